// The payload of a frame of an OTU2, of which some slots are filled.
ghost use Rattle.std.specs.Prelude.{◌≡◌, ◌≢◌, ◌⊎◌, ℕ, ◌+◌, ◌-◌, ◌*◌, ◌/◌, ◌<◌, ◌≤◌, if◌then◌else◌, false, get_or, length, slice_index, IfOk};
ghost use Rattle.otn_base.specs.declared.limits.TheConstants.{OTU2_SLOTS, PAYLOAD_COLUMNS, ROWS};
ghost use Rattle.odtu_columns.specs.BySlots.{slot_byte};

use crate::RowGroups;
use crate::slot_payload::{SLOT_FRAME, SLOT_ROW};
use lane_kernels::{join8_among, split8_among};
use otn_base::Memory;
use otn_base::limits::{OTU2_SLOTS, PAYLOAD_COLUMNS, ROWS};
use std::alloc::Global;
use std::marker::Model;

/// The payload of a frame, slot by slot, that of a slot row by row. A slot that is not filled has bytes 0, whatever is
/// kept of it, so a payload that all its slots fill anew is not cleared byte by byte before.
#[derive(Drop)]
pub(crate) struct FilledSlots {
    bytes: Vec<u8>,
    filled: [bool; OTU2_SLOTS],
}

impl Model for FilledSlots {
    ghost use Rattle.std.specs.Prelude.{◌≡◌, ◌*◌, ℕ, List, length};
    ghost use Rattle.otn_base.specs.declared.limits.TheConstants.{PAYLOAD_COLUMNS, ROWS};
    ghost use Rattle.odtu_columns.specs.BySlots.{filled_slots};

    ghost Value = { List ℕ };

    ghost view = { λ s. filled_slots s.filled s.bytes.items };

    ghost invariant = { λ s. length s.bytes.items ≡ ROWS * PAYLOAD_COLUMNS };
}

impl FilledSlots {
    /// Bytes that are all 0. Answers `Memory` where there is none for them.
    pub fn new(alloc: Global) -> Result<FilledSlots, Memory>
        ensures { IfOk result (λ slots. (n : ℕ) → slice_index slots n ≡ 0) }
    {
        Ok(FilledSlots {
            bytes: vec![in alloc; 0u8; ROWS * PAYLOAD_COLUMNS]?,
            filled: [false; OTU2_SLOTS],
        })
    }

    /// Makes every byte 0: no slot is filled.
    pub fn clear(&mut self)
        ensures { (n : ℕ) → slice_index self.new n ≡ 0 }
    {
        self.filled = [false; OTU2_SLOTS];
    }

    /// Puts the bytes of slot `k` (1 to 8) in a row (1 to 4), 476 of them; every other byte stays.
    pub fn put_row(&mut self, k: u8, row: u32, bytes: &[u8])
        requires low { 1 ≤ k }
        requires high { k ≤ OTU2_SLOTS }
        requires row_low { 1 ≤ row }
        requires row_high { row ≤ ROWS }
        requires size { length bytes.now ≡ PAYLOAD_COLUMNS / OTU2_SLOTS }
        ensures here { (j : ℕ) → j < PAYLOAD_COLUMNS / OTU2_SLOTS → slice_index self.new
            (ROWS * (PAYLOAD_COLUMNS / OTU2_SLOTS) * (k - 1) + PAYLOAD_COLUMNS / OTU2_SLOTS * (row - 1) + j)
            ≡ slice_index bytes.now j }
        ensures others { (n : ℕ)
            → (n < ROWS * (PAYLOAD_COLUMNS / OTU2_SLOTS) * (k - 1) + PAYLOAD_COLUMNS / OTU2_SLOTS * (row - 1))
            ⊎ (ROWS * (PAYLOAD_COLUMNS / OTU2_SLOTS) * (k - 1) + PAYLOAD_COLUMNS / OTU2_SLOTS * (row - 1)
            + PAYLOAD_COLUMNS / OTU2_SLOTS ≤ n) → slice_index self.new n ≡ slice_index self.old n }
    {
        clear_slot(&mut self.bytes, k, self.filled[k as usize - 1]);
        self.filled[k as usize - 1] = true;
        let at = SLOT_FRAME * (k as usize - 1) + SLOT_ROW * (row as usize - 1);
        write_at(&mut self.bytes, at, bytes);
    }

    /// Puts the bytes of slot `k` (1 to 8), 1,904 of them, out of what lays them out; every other byte stays.
    pub fn lay_slot<G: RowGroups>(&mut self, k: u8, groups: &G)
        requires low { 1 ≤ k }
        requires high { k ≤ OTU2_SLOTS }
        requires size { length (G.groups groups.now) ≡ ROWS * (PAYLOAD_COLUMNS / OTU2_SLOTS) }
        ensures here { (j : ℕ) → j < ROWS * (PAYLOAD_COLUMNS / OTU2_SLOTS)
            → slice_index self.new (ROWS * (PAYLOAD_COLUMNS / OTU2_SLOTS) * (k - 1) + j)
            ≡ slice_index (G.groups groups.now) j }
        ensures others { (n : ℕ) → (n < ROWS * (PAYLOAD_COLUMNS / OTU2_SLOTS) * (k - 1))
            ⊎ (ROWS * (PAYLOAD_COLUMNS / OTU2_SLOTS) * (k - 1) + ROWS * (PAYLOAD_COLUMNS / OTU2_SLOTS) ≤ n)
            → slice_index self.new n ≡ slice_index self.old n }
    {
        self.filled[k as usize - 1] = true;
        lay_at(&mut self.bytes, SLOT_FRAME * (k as usize - 1), groups);
    }

    /// Takes over the payload of a row (1 to 4), 3,808 bytes in the order of their columns; every other row stays.
    pub fn split_row(&mut self, row: u32, payload: &[u8])
        requires row_low { 1 ≤ row }
        requires row_high { row ≤ ROWS }
        requires size { length payload.now ≡ PAYLOAD_COLUMNS }
        ensures here { (x : ℕ) → x < PAYLOAD_COLUMNS
            → slot_byte self.new (row - 1) x ≡ slice_index payload.now x }
        ensures others { (other x : ℕ) → other < ROWS → other ≢ row - 1 → x < PAYLOAD_COLUMNS
            → slot_byte self.new other x ≡ slot_byte self.old other x }
    {
        clear_unfilled(&mut self.bytes, &self.filled);
        self.filled = [true; OTU2_SLOTS];
        split8_among(
            payload,
            &mut self.bytes,
            SLOT_ROW * (row as usize - 1),
            SLOT_FRAME,
        );
    }

    /// Writes the payload of a row (1 to 4), 3,808 bytes in the order of their columns. All slots are filled then, with
    /// bytes 0 where they were not.
    pub fn join_row(&mut self, row: u32, into: &mut [u8])
        requires row_low { 1 ≤ row }
        requires row_high { row ≤ ROWS }
        requires size { length into.old ≡ PAYLOAD_COLUMNS }
        ensures size { length into.new ≡ PAYLOAD_COLUMNS }
        ensures joined { (x : ℕ) → x < PAYLOAD_COLUMNS → slice_index into.new x ≡ slot_byte self.old (row - 1) x }
        ensures kept { self.new ≡ self.old }
    {
        clear_unfilled(&mut self.bytes, &self.filled);
        self.filled = [true; OTU2_SLOTS];
        join8_among(&self.bytes, SLOT_ROW * (row as usize - 1), SLOT_FRAME, into);
    }
}

// Writes 0 into the slots that are not filled.
fn clear_unfilled(bytes: &mut [u8], filled: &[bool; OTU2_SLOTS])
    requires size { length bytes.old ≡ ROWS * PAYLOAD_COLUMNS }
    ensures size { length bytes.new ≡ ROWS * PAYLOAD_COLUMNS }
    ensures cleared { (n : ℕ) → n < ROWS * PAYLOAD_COLUMNS → slice_index bytes.new n
        ≡ (if get_or filled.now (n / (ROWS * (PAYLOAD_COLUMNS / OTU2_SLOTS))) false then slice_index bytes.old n
        else 0) }
{
    for k in 0..OTU2_SLOTS as u8 {
        clear_slot(bytes, k + 1, filled[k as usize]);
    }
}

// Writes 0 into slot `k` (1 to 8) where it is not filled.
fn clear_slot(bytes: &mut [u8], k: u8, filled: bool)
    requires low { 1 ≤ k }
    requires high { k ≤ OTU2_SLOTS }
    requires size { length bytes.old ≡ ROWS * PAYLOAD_COLUMNS }
    ensures size { length bytes.new ≡ ROWS * PAYLOAD_COLUMNS }
    ensures here { (n : ℕ) → ROWS * (PAYLOAD_COLUMNS / OTU2_SLOTS) * (k - 1) ≤ n
        → n < ROWS * (PAYLOAD_COLUMNS / OTU2_SLOTS) * (k - 1) + ROWS * (PAYLOAD_COLUMNS / OTU2_SLOTS)
        → slice_index bytes.new n ≡ (if filled then slice_index bytes.old n else 0) }
    ensures others { (n : ℕ) → (n < ROWS * (PAYLOAD_COLUMNS / OTU2_SLOTS) * (k - 1))
        ⊎ (ROWS * (PAYLOAD_COLUMNS / OTU2_SLOTS) * (k - 1) + ROWS * (PAYLOAD_COLUMNS / OTU2_SLOTS) ≤ n)
        → slice_index bytes.new n ≡ slice_index bytes.old n }
{
    if filled {
        return;
    }
    let at = SLOT_FRAME * (k as usize - 1);
    clear_run(bytes, at, at + SLOT_FRAME);
}

// Writes 0 into the bytes from a place up to another; every other byte stays.
pub(crate) fn clear_run(bytes: &mut [u8], from: usize, to: usize)
    requires order { from ≤ to }
    requires room { to ≤ length bytes.old }
    ensures zero { (place : ℕ) → from ≤ place → place < to → slice_index bytes.new place ≡ 0 }
    ensures kept { (place : ℕ) → (place < from) ⊎ (to ≤ place)
        → slice_index bytes.new place ≡ slice_index bytes.old place }
{
    bytes[from..to].fill(0);
}

// Writes these bytes from a place on; every other byte stays.
fn write_at(into: &mut [u8], at: usize, bytes: &[u8])
    requires room { at + length bytes.now ≤ length into.old }
    ensures size { length into.new ≡ length into.old }
    ensures here { (j : ℕ) → j < length bytes.now → slice_index into.new (at + j) ≡ slice_index bytes.now j }
    ensures others { (n : ℕ) → (n < at) ⊎ (at + length bytes.now ≤ n)
        → slice_index into.new n ≡ slice_index into.old n }
{
    into[at..at + bytes.len()].copy_from_slice(bytes);
}

// Lays out the groups of a slot of a frame from a place on; every other byte stays.
fn lay_at<G: RowGroups>(into: &mut [u8], at: usize, groups: &G)
    requires size { length (G.groups groups.now) ≡ ROWS * (PAYLOAD_COLUMNS / OTU2_SLOTS) }
    requires room { at + ROWS * (PAYLOAD_COLUMNS / OTU2_SLOTS) ≤ length into.old }
    ensures size { length into.new ≡ length into.old }
    ensures here { (j : ℕ) → j < ROWS * (PAYLOAD_COLUMNS / OTU2_SLOTS)
        → slice_index into.new (at + j) ≡ slice_index (G.groups groups.now) j }
    ensures others { (n : ℕ) → (n < at) ⊎ (at + ROWS * (PAYLOAD_COLUMNS / OTU2_SLOTS) ≤ n)
        → slice_index into.new n ≡ slice_index into.old n }
{
    groups.lay(&mut into[at..at + SLOT_FRAME]);
}
