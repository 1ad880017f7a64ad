// The groups of the slots that one ODTU takes, written row by row.
ghost use Rattle.std.specs.Prelude.{◌≡◌, ◌≢◌, [], ◌∷◌, ◌+◌, ◌-◌, ◌*◌, ◌/◌, ◌%◌, ◌<◌, ◌≤◌, ℕ, All, length, slice_index};
ghost use Rattle.frame_geometry.specs.Places.{place_of};
ghost use Rattle.otn_base.specs.LineSlots.{slots_of};
ghost use Rattle.otn_base.specs.SlotList.{IsSlotList};
ghost use Rattle.otn_base.specs.declared.limits.TheConstants.{GROUPS, LINE_COLUMNS, OTU2_SLOTS, PAYLOAD_COLUMNS, ROWS};
ghost use Rattle.odtu_columns.specs.Columns.{slot_row_of};
ghost use Rattle.odtu_columns.specs.Groups.{frame_group, row_groups_of};
ghost use Rattle.odtu_columns.specs.Put.{slot_place, RowWasPut, SlotWasPut};

use crate::RowGroups;
use crate::line::{cycles_in_row, put_one, put_several};
use crate::slot_payload::SLOT_ROW;
use frame_geometry::Frame;
use otn_base::limits::{LINE_COLUMNS, OVERHEAD_COLUMNS};
use otn_base::{LineKind, Slots};

/// Writes all groups of a row (1 to 4) for these slots, which stand in `bytes` one after the other, 476 on
/// an OTU2, 119 on an OTU3; every byte that is not of the slots stays.
pub fn put_row_groups(frame: &mut Frame<LINE_COLUMNS>, row: u32, slots: &Slots, bytes: &[u8])
    requires row_low { 1 ≤ row }
    requires row_high { row ≤ 4 }
    requires size { length bytes.now ≡ length slots.now.list * (PAYLOAD_COLUMNS / slots_of slots.now.kind) }
    ensures put { RowWasPut (slots_of slots.now.kind) slots.now.list row bytes.now frame.old frame.new }
    ensures groups { row_groups_of (slots_of slots.now.kind) slots.now.list row frame.new ≡ bytes.now }
{
    let kind = slots.kind();
    put_groups(kind, slots.as_slice(), bytes, frame.payload_row_mut(row));
}

/// Writes all groups of a row (1 to 4) for these slots out of what lays them out; every byte that is not of the slots
/// stays.
pub(crate) fn lay_row_groups<G: RowGroups>(
    frame: &mut Frame<LINE_COLUMNS>,
    row: u32,
    slots: &Slots,
    groups: &G,
    scratch: &mut [u8],
)
    requires row_low { 1 ≤ row }
    requires row_high { row ≤ 4 }
    requires size { length (G.groups groups.now) ≡ length slots.now.list * (PAYLOAD_COLUMNS / slots_of slots.now.kind) }
    requires scratch { length scratch.old ≡ length (G.groups groups.now) }
    ensures { RowWasPut (slots_of slots.now.kind) slots.now.list row (G.groups groups.now) frame.old frame.new }
{
    let kind = slots.kind();
    lay_groups(
        kind,
        slots.as_slice(),
        groups,
        scratch,
        frame.payload_row_mut(row),
    );
}

/// Writes all groups of a frame for one slot of an OTU2 out of what lays them out; every byte that is not of the slot
/// stays.
pub(crate) fn lay_slot<G: RowGroups>(
    frame: &mut Frame<LINE_COLUMNS>,
    slots: &Slots,
    groups: &G,
    scratch: &mut [u8],
)
    requires line { slots_of slots.now.kind ≡ OTU2_SLOTS }
    requires one { length slots.now.list ≡ 1 }
    requires size { length (G.groups groups.now) ≡ ROWS * (PAYLOAD_COLUMNS / OTU2_SLOTS) }
    requires scratch { length scratch.old ≡ length (G.groups groups.now) }
    ensures { SlotWasPut slots.now.list (G.groups groups.now) frame.old frame.new }
{
    let slot = slots.last();
    groups.lay(scratch);
    put_own_row(frame, 1, slot, scratch);
    put_own_row(frame, 2, slot, scratch);
    put_own_row(frame, 3, slot, scratch);
    put_own_row(frame, 4, slot, scratch);
}

// Puts the bytes of a slot of an OTU2 (1 to 8) in a row (1 to 4) out of those that it has in the frame.
fn put_own_row(frame: &mut Frame<LINE_COLUMNS>, row: u32, slot: u8, bytes: &[u8])
    requires low { 1 ≤ row }
    requires high { row ≤ 4 }
    requires slot_low { 1 ≤ slot }
    requires slot_high { slot ≤ OTU2_SLOTS }
    requires size { length bytes.now ≡ ROWS * (PAYLOAD_COLUMNS / OTU2_SLOTS) }
    ensures put { (cycle : ℕ) → cycle < PAYLOAD_COLUMNS / OTU2_SLOTS
        → slice_index frame.new (place_of LINE_COLUMNS row (16 + OTU2_SLOTS * cycle + slot))
        ≡ slice_index bytes.now (PAYLOAD_COLUMNS / OTU2_SLOTS * (row - 1) + cycle) }
    ensures kept { (place : ℕ) → ((cycle : ℕ) → cycle < PAYLOAD_COLUMNS / OTU2_SLOTS
        → place ≡ place_of LINE_COLUMNS row (16 + OTU2_SLOTS * cycle + slot) → ⊥)
        → slice_index frame.new place ≡ slice_index frame.old place }
{
    let at = SLOT_ROW * (row as usize - 1);
    put_slot_row(frame, LineKind::Otu2, slot, row, &bytes[at..at + SLOT_ROW]);
}

/// Writes the bytes of a slot (1 to 8 on an OTU2, 1 to 32 on an OTU3) in a row (1 to 4), 476 or 119, in the
/// order of their columns; every other byte stays.
pub fn put_slot_row(
    frame: &mut Frame<LINE_COLUMNS>,
    kind: LineKind,
    slot: u8,
    row: u32,
    bytes: &[u8],
)
    requires slot_low { 1 ≤ slot }
    requires slot_high { slot ≤ slots_of kind }
    requires row_low { 1 ≤ row }
    requires row_high { row ≤ 4 }
    requires size { length bytes.now ≡ PAYLOAD_COLUMNS / slots_of kind }
    ensures put { RowWasPut (slots_of kind) (slot ∷ []) row bytes.now frame.old frame.new }
    ensures bytes { slot_row_of (slots_of kind) slot row frame.new ≡ bytes.now }
{
    put_one(kind, bytes, slot, frame.payload_row_mut(row));
}

/// Writes group `g` of a frame for these slots, a byte of each in slot order; every other byte stays. A
/// frame has 1,904 groups on an OTU2, 476 on an OTU3, counted from 1.
pub fn put_group(frame: &mut Frame<LINE_COLUMNS>, g: u32, slots: &Slots, bytes: &[u8])
    requires low { 1 ≤ g }
    requires high { g ≤ GROUPS / slots_of slots.now.kind }
    requires size { length bytes.now ≡ length slots.now.list }
    ensures group { frame_group (slots_of slots.now.kind) slots.now.list g frame.new ≡ bytes.now }
    ensures kept { (place : ℕ) → ((i : ℕ) → i < length slots.now.list
        → place ≡ slot_place (slots_of slots.now.kind) slots.now.list
        ((g - 1) / (PAYLOAD_COLUMNS / slots_of slots.now.kind) + 1)
        ((g - 1) % (PAYLOAD_COLUMNS / slots_of slots.now.kind)) i → ⊥)
        → slice_index frame.new place ≡ slice_index frame.old place }
{
    let kind = slots.kind();
    let cycles = cycles_in_row(kind) as u32;
    let before = g - 1;
    let row = before / cycles + 1;
    let first = OVERHEAD_COLUMNS as u32 + kind.slots() as u32 * (before % cycles);
    set_group(frame, row, first, slots.as_slice(), bytes);
}

// Writes the group of the cycle that begins behind so many columns of a row.
fn set_group(frame: &mut Frame<LINE_COLUMNS>, row: u32, first: u32, slots: &[u8], bytes: &[u8])
    requires row_low { 1 ≤ row }
    requires row_high { row ≤ 4 }
    requires slots { All (λ slot. (1 ≤ slot) × (first + slot ≤ LINE_COLUMNS)) slots.now }
    requires rising { (i j : ℕ) → i < j → j < length slots.now → slice_index slots.now i < slice_index slots.now j }
    requires size { length bytes.now ≡ length slots.now }
    ensures put { (i : ℕ) → i < length slots.now
        → slice_index frame.new (place_of LINE_COLUMNS row (first + slice_index slots.now i))
        ≡ slice_index bytes.now i }
    ensures kept { (place : ℕ) → ((i : ℕ) → i < length slots.now
        → place ≡ place_of LINE_COLUMNS row (first + slice_index slots.now i) → ⊥)
        → slice_index frame.new place ≡ slice_index frame.old place }
{
    for (i, slot) in slots.iter().enumerate() {
        frame.set(row, first + *slot as u32, bytes[i]);
    }
}

/// Writes the groups of a row into its payload.
pub(crate) fn put_groups(kind: LineKind, slots: &[u8], bytes: &[u8], payload: &mut [u8])
    requires list { IsSlotList (slots_of kind) slots.now }
    requires size { length bytes.now ≡ length slots.now * (PAYLOAD_COLUMNS / slots_of kind) }
    requires payload { length payload.old ≡ PAYLOAD_COLUMNS }
    ensures put { (cycle i : ℕ) → cycle < PAYLOAD_COLUMNS / slots_of kind → i < length slots.now
        → slice_index payload.new (slots_of kind * cycle + (slice_index slots.now i - 1))
        ≡ slice_index bytes.now (length slots.now * cycle + i) }
    ensures kept { (n : ℕ) → ((i : ℕ) → i < length slots.now → n % slots_of kind + 1 ≢ slice_index slots.now i)
        → slice_index payload.new n ≡ slice_index payload.old n }
{
    if slots.len() == kind.slots() as usize {
        payload.copy_from_slice(bytes);
        return;
    }
    if slots.len() == 1 {
        put_one(kind, bytes, slots[0], payload);
        return;
    }
    put_several(kind, bytes, cycles_in_row(kind), slots, payload);
}

// Writes the groups of a row into its payload out of what lays them out: where they are of all slots, at their place.
fn lay_groups<G: RowGroups>(
    kind: LineKind,
    slots: &[u8],
    groups: &G,
    scratch: &mut [u8],
    payload: &mut [u8],
)
    requires list { IsSlotList (slots_of kind) slots.now }
    requires size { length (G.groups groups.now) ≡ length slots.now * (PAYLOAD_COLUMNS / slots_of kind) }
    requires scratch { length scratch.old ≡ length (G.groups groups.now) }
    requires payload { length payload.old ≡ PAYLOAD_COLUMNS }
    ensures put { (cycle i : ℕ) → cycle < PAYLOAD_COLUMNS / slots_of kind → i < length slots.now
        → slice_index payload.new (slots_of kind * cycle + (slice_index slots.now i - 1))
        ≡ slice_index (G.groups groups.now) (length slots.now * cycle + i) }
    ensures kept { (n : ℕ) → ((i : ℕ) → i < length slots.now → n % slots_of kind + 1 ≢ slice_index slots.now i)
        → slice_index payload.new n ≡ slice_index payload.old n }
{
    if slots.len() == kind.slots() as usize {
        groups.lay(payload);
        return;
    }
    groups.lay(scratch);
    put_groups(kind, slots, scratch, payload);
}
