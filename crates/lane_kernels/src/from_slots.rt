// A row out of its slots.
ghost use Rattle.std.specs.Prelude.{◌≡◌, ℕ, ◌+◌, ◌*◌, ◌/◌, ◌%◌, ◌<◌, ◌≤◌, length, slice_index};
ghost use Rattle.lane_kernels.specs.SlotPlaces.{slot_bytes};
ghost use Rattle.otn_base.specs.declared.limits.TheConstants.{OTU2_SLOTS, OTU3_SLOTS, PAYLOAD_COLUMNS};
ghost use Rattle.lane_kernels.specs.declared.slot_rows.TheConstants.{OTU2_SLOT_ROW, OTU3_SLOT_ROW};

use crate::slot_rows::{OTU2_SLOT_ROW, OTU3_SLOT_ROW};
use crate::turn::GROUP;
use crate::{SlotRows, turn};
use otn_base::limits::{OTU2_SLOTS, OTU3_SLOTS};

/// Writes the payload of a row, 3,808 bytes, out of its slots: byte x, from 0, is byte `x / SLOTS` of slot
/// `x % SLOTS + 1` (G.709 clause 19.1).
pub fn join<const SLOTS: usize>(rows: &SlotRows<SLOTS>, into: &mut [u8])
    requires { length into.old ≡ PAYLOAD_COLUMNS }
    ensures { (x : ℕ) → x < PAYLOAD_COLUMNS
        → slice_index into.new x ≡ slice_index (slot_bytes SLOTS (x % SLOTS + 1) rows.now) (x / SLOTS) }
{
    if SLOTS == OTU2_SLOTS {
        join_eight(&rows.bytes, into);
    } else {
        join_thirty_two(&rows.bytes, into);
    }
}

/// `join` for the 8 slots of an OPU2.
pub fn join8(rows: &SlotRows<OTU2_SLOTS>, into: &mut [u8])
    requires { length into.old ≡ PAYLOAD_COLUMNS }
    ensures { (x : ℕ) → x < PAYLOAD_COLUMNS
        → slice_index into.new x ≡ slice_index (slot_bytes OTU2_SLOTS (x % OTU2_SLOTS + 1) rows.now) (x / OTU2_SLOTS) }
{
    join(rows, into);
}

/// Writes the payload of a row of an OTU2, 3,808 bytes, out of bytes that have `wide` for each slot, those of the row
/// behind the first `at` of them: byte x, from 0, is byte `at + x / 8` of slot `x % 8 + 1` (G.709 clause 19.1).
#[inline]
pub fn join8_among(lists: &[u8], at: usize, wide: usize, into: &mut [u8])
    requires lists { length lists.now ≡ OTU2_SLOTS * wide }
    requires at { at + OTU2_SLOT_ROW ≤ wide }
    requires into { length into.old ≡ PAYLOAD_COLUMNS }
    ensures size { length into.new ≡ PAYLOAD_COLUMNS }
    ensures joined { (k j : ℕ) → k < OTU2_SLOTS → j < OTU2_SLOT_ROW
        → slice_index into.new (OTU2_SLOTS * j + k) ≡ slice_index lists.now (wide * k + at + j) }
{
    turn::together(lists, at, OTU2_SLOT_ROW, wide, into, 0, OTU2_SLOTS);
}

fn join_eight(lists: &[u8], into: &mut [u8])
    requires lists { length lists.now ≡ PAYLOAD_COLUMNS }
    requires into { length into.old ≡ PAYLOAD_COLUMNS }
    ensures { (k j : ℕ) → k < OTU2_SLOTS → j < OTU2_SLOT_ROW
        → slice_index into.new (OTU2_SLOTS * j + k) ≡ slice_index lists.now (OTU2_SLOT_ROW * k + j) }
{
    join8_among(lists, 0, OTU2_SLOT_ROW, into);
}

// Eight slots after the other.
fn join_thirty_two(lists: &[u8], into: &mut [u8])
    requires lists { length lists.now ≡ PAYLOAD_COLUMNS }
    requires into { length into.old ≡ PAYLOAD_COLUMNS }
    ensures { (k j : ℕ) → k < OTU3_SLOTS → j < OTU3_SLOT_ROW
        → slice_index into.new (OTU3_SLOTS * j + k) ≡ slice_index lists.now (OTU3_SLOT_ROW * k + j) }
{
    for quarter in 0..4_usize {
        turn::together(
            lists,
            GROUP * OTU3_SLOT_ROW * quarter,
            OTU3_SLOT_ROW,
            OTU3_SLOT_ROW,
            into,
            GROUP * quarter,
            OTU3_SLOTS,
        );
    }
}
