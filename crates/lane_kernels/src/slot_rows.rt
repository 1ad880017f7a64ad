// The bytes of the slots of a row, slot by slot.
ghost use Rattle.std.specs.Prelude.{◌≡◌, ℕ, ◌/◌, ◌≤◌, length, vec_len, IfOk, slice_index};
ghost use Rattle.otn_base.specs.declared.limits.TheConstants.{PAYLOAD_COLUMNS};

use otn_base::Memory;
use otn_base::limits::{OTU2_SLOTS, OTU3_SLOTS, PAYLOAD_COLUMNS};
use std::alloc::Global;
use std::marker::Model;

/// Bytes of a slot of an OTU2 in a row (G.709 clause 19.1).
pub(crate) const OTU2_SLOT_ROW: usize = PAYLOAD_COLUMNS / OTU2_SLOTS;

/// Bytes of a slot of an OTU3 in a row (G.709 clause 19.1).
pub(crate) const OTU3_SLOT_ROW: usize = PAYLOAD_COLUMNS / OTU3_SLOTS;

/// The payload bytes of a row, by tributary slots: `SLOTS` lists of `3808 / SLOTS` bytes, where `SLOTS` is
/// 8 or 32 (G.709 clause 19.1). It is seen as the bytes of slot 1, then those of slot 2, and so on.
#[derive(Drop)]
pub struct SlotRows<const SLOTS: usize> {
    pub(crate) bytes: Vec<u8>,
}

impl<const SLOTS: usize> Model for SlotRows<SLOTS> {
    ghost use Rattle.std.specs.Prelude.{◌≡◌, ℕ, List, length};
    ghost use Rattle.lane_kernels.specs.SlotPlaces.{IsSlotCount};
    ghost use Rattle.otn_base.specs.declared.limits.TheConstants.{PAYLOAD_COLUMNS};

    ghost Value = { List ℕ };

    ghost view = { λ r. r.bytes.items };

    ghost invariant = { λ r. (length r.bytes.items ≡ PAYLOAD_COLUMNS) × IsSlotCount SLOTS };
}

impl<const SLOTS: usize> SlotRows<SLOTS> {
    ghost use Rattle.std.specs.Borrow.{sem, Lends, Array, u8 as byte};
    ghost use Rattle.lane_kernels.specs.contracts.slot_rows.SlotRows.{the_row};
    ghost use Rattle.lane_kernels.specs.Loans.{after_slot_loan};
    ghost use Rattle.lane_kernels.specs.SlotPlaces.{IsSlotCount, slot_bytes};

    /// Bytes that are all 0. Answers `Memory` where there is none for them.
    pub fn new(alloc: Global) -> Result<Self, Memory>
        requires { IsSlotCount SLOTS }
        ensures size { IfOk result (λ rows. length rows ≡ PAYLOAD_COLUMNS) }
        ensures zero { IfOk result (λ rows. (place : ℕ) → slice_index rows place ≡ 0) }
    {
        Ok(SlotRows {
            bytes: zeros(alloc, PAYLOAD_COLUMNS)?,
        })
    }

    /// The bytes of slot `k` (1 to `SLOTS`).
    #[tactic(auto, using(crate::proofs::SlotPlaces::slot_inside))]
    pub fn slot(&self, k: u8) -> &[u8]
        requires low { 1 ≤ k }
        requires high { k ≤ SLOTS }
        ensures bytes { result.now ≡ slot_bytes SLOTS k self.now }
        ensures size { length result.now ≡ PAYLOAD_COLUMNS / SLOTS }
    {
        let bytes = &self.bytes;
        let columns = PAYLOAD_COLUMNS / SLOTS;
        let start = columns * (k as usize - 1);
        &bytes[start..start + columns]
    }

    /// The bytes of slot `k` (1 to `SLOTS`), to be written; every other byte stays.
    #[tactic(auto, using(crate::proofs::SlotPlaces::slot_inside))]
    pub fn slot_mut(&mut self, k: u8) -> &mut [u8]
        requires low { 1 ≤ k }
        requires high { k ≤ SLOTS }
        ensures* writes_back { sem 𝓛 (Lends (the_row SLOTS.row) (Array byte 0) self.entry result
            (after_slot_loan SLOTS k self.entry.now)) }
        ensures bytes { result.now ≡ slot_bytes SLOTS k self.old }
        ensures size { length result.now ≡ PAYLOAD_COLUMNS / SLOTS }
        ensures all { length self.old ≡ PAYLOAD_COLUMNS }
        ensures slots { IsSlotCount SLOTS }
    {
        let bytes = &mut self.bytes;
        let columns = PAYLOAD_COLUMNS / SLOTS;
        let start = columns * (k as usize - 1);
        bytes.slice_mut(start..start + columns)
    }
}

// So many bytes that are all 0.
fn zeros(alloc: Global, count: usize) -> Result<Vec<u8>, Memory>
    ensures size { IfOk result (λ bytes. vec_len bytes ≡ count) }
    ensures zero { IfOk result (λ bytes. (place : ℕ) → slice_index bytes.items place ≡ 0) }
{
    Ok(vec![in alloc; 0u8; count]?)
}
