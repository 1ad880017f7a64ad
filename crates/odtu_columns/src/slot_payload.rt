// The payload of a frame of an OTU2 by tributary slots.
ghost use Rattle.std.specs.Prelude.{◌≡◌, ℕ, ◌+◌, ◌-◌, ◌*◌, ◌/◌, ◌<◌, ◌≤◌, ◌⊎◌, IfOk, length, slice_index};
ghost use Rattle.frame_geometry.specs.Places.{place_of};
ghost use Rattle.otn_base.specs.declared.limits.TheConstants.{LINE_COLUMNS, OTU2_SLOTS, PAYLOAD_COLUMNS, ROWS};
ghost use Rattle.odtu_columns.specs.BySlots.{IsPayloadOf};

use frame_geometry::Frame;
use lane_kernels::split8_among;
use otn_base::Memory;
use otn_base::limits::{LINE_COLUMNS, OTU2_SLOTS, PAYLOAD_COLUMNS, ROWS};
use std::alloc::Global;
use std::marker::Model;

/// Bytes of a slot in a row, and in a frame.
pub(crate) const SLOT_ROW: usize = PAYLOAD_COLUMNS / OTU2_SLOTS;

pub(crate) const SLOT_FRAME: usize = ROWS * SLOT_ROW;

/// The payload of a frame of an OTU2, slot by slot: of each the 1,904 bytes that it has in a frame, row by row. It is
/// seen as the bytes of slot 1, then those of slot 2, and so on.
#[derive(Drop)]
pub struct SlotPayload {
    bytes: Vec<u8>,
}

impl Model for SlotPayload {
    ghost use Rattle.std.specs.Prelude.{◌≡◌, ◌*◌, ℕ, List, length};
    ghost use Rattle.otn_base.specs.declared.limits.TheConstants.{PAYLOAD_COLUMNS, ROWS};

    ghost Value = { List ℕ };

    ghost view = { λ p. p.bytes.items };

    ghost invariant = { λ p. length p.bytes.items ≡ ROWS * PAYLOAD_COLUMNS };
}

impl SlotPayload {
    /// Bytes that are all 0. Answers `Memory` where there is none for them.
    pub fn new(alloc: Global) -> Result<SlotPayload, Memory>
        ensures { IfOk result (λ payload. length payload ≡ ROWS * PAYLOAD_COLUMNS) }
    {
        Ok(SlotPayload {
            bytes: vec![in alloc; 0u8; ROWS * PAYLOAD_COLUMNS]?,
        })
    }

    /// Takes over the payload of a frame of an OTU2.
    pub fn split(&mut self, frame: &Frame<LINE_COLUMNS>)
        ensures { IsPayloadOf frame.now self.new }
    {
        split_rows(frame, &mut self.bytes);
    }

    /// The bytes of slot `k` (1 to 8), 1,904 of them, row by row, in the order of their columns.
    pub fn slot(&self, k: u8) -> &[u8]
        requires low { 1 ≤ k }
        requires high { k ≤ OTU2_SLOTS }
        ensures size { length result.now ≡ ROWS * (PAYLOAD_COLUMNS / OTU2_SLOTS) }
        ensures bytes { (j : ℕ) → j < ROWS * (PAYLOAD_COLUMNS / OTU2_SLOTS)
            → slice_index result.now j ≡ slice_index self.now (ROWS * (PAYLOAD_COLUMNS / OTU2_SLOTS) * (k - 1) + j) }
    {
        let start = SLOT_FRAME * (k as usize - 1);
        &self.bytes[start..start + SLOT_FRAME]
    }
}

// Takes over the payload of all rows of a frame.
fn split_rows(frame: &Frame<LINE_COLUMNS>, into: &mut [u8])
    requires { length into.old ≡ ROWS * PAYLOAD_COLUMNS }
    ensures { IsPayloadOf frame.now into.new }
{
    split_row(frame, 1, into);
    split_row(frame, 2, into);
    split_row(frame, 3, into);
    split_row(frame, 4, into);
}

// Takes over the payload of a row of a frame. The bytes of the other rows stay.
fn split_row(frame: &Frame<LINE_COLUMNS>, row: u32, into: &mut [u8])
    requires low { 1 ≤ row }
    requires high { row ≤ ROWS }
    requires size { length into.old ≡ ROWS * PAYLOAD_COLUMNS }
    ensures here { (k j : ℕ) → k < OTU2_SLOTS → j < PAYLOAD_COLUMNS / OTU2_SLOTS
        → slice_index into.new
        (ROWS * (PAYLOAD_COLUMNS / OTU2_SLOTS) * k + PAYLOAD_COLUMNS / OTU2_SLOTS * (row - 1) + j)
        ≡ slice_index frame.now (place_of LINE_COLUMNS row (17 + (OTU2_SLOTS * j + k))) }
    ensures others { (k other j : ℕ) → k < OTU2_SLOTS → 1 ≤ other → other ≤ ROWS → (other < row) ⊎ (row < other)
        → j < PAYLOAD_COLUMNS / OTU2_SLOTS
        → slice_index into.new
        (ROWS * (PAYLOAD_COLUMNS / OTU2_SLOTS) * k + PAYLOAD_COLUMNS / OTU2_SLOTS * (other - 1) + j)
        ≡ slice_index into.old
        (ROWS * (PAYLOAD_COLUMNS / OTU2_SLOTS) * k + PAYLOAD_COLUMNS / OTU2_SLOTS * (other - 1) + j) }
{
    split8_among(
        frame.payload_row(row),
        into,
        SLOT_ROW * (row as usize - 1),
        SLOT_FRAME,
    );
}
