// The kernels that take and put the bytes of slots, for a line of either kind.
ghost use Rattle.std.specs.Prelude.{◌≡◌, ◌≢◌, ℕ, ◌+◌, ◌-◌, ◌*◌, ◌/◌, ◌%◌, ◌<◌, ◌≤◌, length, slice_index};
ghost use Rattle.otn_base.specs.LineSlots.{slots_of};
ghost use Rattle.otn_base.specs.SlotList.{IsSlotList};
ghost use Rattle.otn_base.specs.declared.limits.TheConstants.{PAYLOAD_COLUMNS};

use lane_kernels::{put_slot, put_slots, take_slot, take_slots};
use otn_base::LineKind;
use otn_base::limits::{OTU2_SLOTS, OTU3_SLOTS, PAYLOAD_COLUMNS};

/// How many cycles of all its slots a row has on a line: 476, or 119.
pub(crate) fn cycles_in_row(kind: LineKind) -> usize
    ensures cycles { result ≡ PAYLOAD_COLUMNS / slots_of kind }
    ensures few { result ≤ PAYLOAD_COLUMNS }
{
    match kind {
        LineKind::Otu2 => PAYLOAD_COLUMNS / OTU2_SLOTS,
        LineKind::Otu3 => PAYLOAD_COLUMNS / OTU3_SLOTS,
    }
}

/// Writes the bytes of a slot in some whole cycles.
pub(crate) fn take_one(kind: LineKind, cycles: &[u8], slot: u8, into: &mut [u8])
    requires low { 1 ≤ slot }
    requires high { slot ≤ slots_of kind }
    requires size { length cycles.now ≡ slots_of kind * length into.old }
    ensures { (j : ℕ) → j < length into.old
        → slice_index into.new j ≡ slice_index cycles.now (slots_of kind * j + slot - 1) }
{
    match kind {
        LineKind::Otu2 => take_slot::<OTU2_SLOTS>(cycles, slot, into),
        LineKind::Otu3 => take_slot::<OTU3_SLOTS>(cycles, slot, into),
    }
}

/// Writes a byte of each of these slots for each of `count` cycles.
pub(crate) fn take_several(
    kind: LineKind,
    cycles: &[u8],
    count: usize,
    slots: &[u8],
    into: &mut [u8],
)
    requires slots { IsSlotList (slots_of kind) slots.now }
    requires cycles { length cycles.now ≡ slots_of kind * count }
    requires size { length into.old ≡ length slots.now * count }
    ensures { (j p : ℕ) → j < count → p < length slots.now
        → slice_index into.new (length slots.now * j + p)
        ≡ slice_index cycles.now (slots_of kind * j + (slice_index slots.now p - 1)) }
{
    match kind {
        LineKind::Otu2 => take_slots::<OTU2_SLOTS>(cycles, count, slots, into),
        LineKind::Otu3 => take_slots::<OTU3_SLOTS>(cycles, count, slots, into),
    }
}

/// Writes these bytes into the columns of a slot in some whole cycles; every other byte stays.
pub(crate) fn put_one(kind: LineKind, bytes: &[u8], slot: u8, cycles: &mut [u8])
    requires low { 1 ≤ slot }
    requires high { slot ≤ slots_of kind }
    requires size { length cycles.old ≡ slots_of kind * length bytes.now }
    ensures here { (j : ℕ) → j < length bytes.now
        → slice_index cycles.new (slots_of kind * j + slot - 1) ≡ slice_index bytes.now j }
    ensures others { (x : ℕ) → x % slots_of kind + 1 ≢ slot → slice_index cycles.new x ≡ slice_index cycles.old x }
{
    match kind {
        LineKind::Otu2 => put_slot::<OTU2_SLOTS>(bytes, slot, cycles),
        LineKind::Otu3 => put_slot::<OTU3_SLOTS>(bytes, slot, cycles),
    }
}

/// Writes these bytes, one for each of these slots for each of `count` cycles, into the columns of the
/// slots; every other byte stays.
pub(crate) fn put_several(
    kind: LineKind,
    bytes: &[u8],
    count: usize,
    slots: &[u8],
    cycles: &mut [u8],
)
    requires slots { IsSlotList (slots_of kind) slots.now }
    requires size { length bytes.now ≡ length slots.now * count }
    requires cycles { length cycles.old ≡ slots_of kind * count }
    ensures here { (j p : ℕ) → j < count → p < length slots.now
        → slice_index cycles.new (slots_of kind * j + (slice_index slots.now p - 1))
        ≡ slice_index bytes.now (length slots.now * j + p) }
    ensures others { (x : ℕ) → ((p : ℕ) → p < length slots.now → x % slots_of kind + 1 ≢ slice_index slots.now p)
        → slice_index cycles.new x ≡ slice_index cycles.old x }
{
    match kind {
        LineKind::Otu2 => put_slots::<OTU2_SLOTS>(bytes, count, slots, cycles),
        LineKind::Otu3 => put_slots::<OTU3_SLOTS>(bytes, count, slots, cycles),
    }
}
