// A row into its slots.
ghost use Rattle.std.specs.Prelude.{◌≡◌, ℕ, ◌+◌, ◌*◌, ◌/◌, ◌%◌, ◌<◌, ◌≤◌, ◌⊎◌, length, slice_index};
ghost use Rattle.lane_kernels.specs.SlotPlaces.{slot_bytes};
ghost use Rattle.otn_base.specs.declared.limits.TheConstants.{OTU2_SLOTS, OTU3_SLOTS, PAYLOAD_COLUMNS};
ghost use Rattle.lane_kernels.specs.declared.slot_rows.TheConstants.{OTU2_SLOT_ROW, OTU3_SLOT_ROW};

use crate::slot_rows::{OTU2_SLOT_ROW, OTU3_SLOT_ROW};
use crate::turn::GROUP;
use crate::{SlotRows, turn};
use otn_base::limits::{OTU2_SLOTS, OTU3_SLOTS};

/// Writes the payload of a row, 3,808 bytes, slot by slot: byte x, from 0, is byte `x / SLOTS` of slot
/// `x % SLOTS + 1` (G.709 clause 19.1).
pub fn split<const SLOTS: usize>(row: &[u8], into: &mut SlotRows<SLOTS>)
    requires { length row.now ≡ PAYLOAD_COLUMNS }
    ensures { (x : ℕ) → x < PAYLOAD_COLUMNS
        → slice_index (slot_bytes SLOTS (x % SLOTS + 1) into.new) (x / SLOTS) ≡ slice_index row.now x }
{
    if SLOTS == OTU2_SLOTS {
        split_eight(row, &mut into.bytes);
    } else {
        split_thirty_two(row, &mut into.bytes);
    }
}

/// `split` for the 8 slots of an OPU2.
pub fn split8(row: &[u8], into: &mut SlotRows<OTU2_SLOTS>)
    requires { length row.now ≡ PAYLOAD_COLUMNS }
    ensures { (x : ℕ) → x < PAYLOAD_COLUMNS
        → slice_index (slot_bytes OTU2_SLOTS (x % OTU2_SLOTS + 1) into.new) (x / OTU2_SLOTS) ≡ slice_index row.now x }
{
    split(row, into);
}

/// Writes the payload of a row of an OTU2, 3,808 bytes, slot by slot into bytes that have `wide` for each slot, behind
/// the first `at` of them: byte x, from 0, is byte `at + x / 8` of slot `x % 8 + 1` (G.709 clause 19.1). Every other
/// byte stays.
#[inline]
pub fn split8_among(row: &[u8], into: &mut [u8], at: usize, wide: usize)
    requires row { length row.now ≡ PAYLOAD_COLUMNS }
    requires into { length into.old ≡ OTU2_SLOTS * wide }
    requires at { at + OTU2_SLOT_ROW ≤ wide }
    ensures here { (k j : ℕ) → k < OTU2_SLOTS → j < OTU2_SLOT_ROW
        → slice_index into.new (wide * k + at + j) ≡ slice_index row.now (OTU2_SLOTS * j + k) }
    ensures others { (k j : ℕ) → k < OTU2_SLOTS → j < wide → (j < at) ⊎ (at + OTU2_SLOT_ROW ≤ j)
        → slice_index into.new (wide * k + j) ≡ slice_index into.old (wide * k + j) }
{
    turn::apart(row, 0, OTU2_SLOTS, into, at, OTU2_SLOT_ROW, wide);
}

fn split_eight(row: &[u8], into: &mut [u8])
    requires row { length row.now ≡ PAYLOAD_COLUMNS }
    requires into { length into.old ≡ PAYLOAD_COLUMNS }
    ensures { (k j : ℕ) → k < OTU2_SLOTS → j < OTU2_SLOT_ROW
        → slice_index into.new (OTU2_SLOT_ROW * k + j) ≡ slice_index row.now (OTU2_SLOTS * j + k) }
{
    split8_among(row, into, 0, OTU2_SLOT_ROW);
}

// Eight slots after the other.
fn split_thirty_two(row: &[u8], into: &mut [u8])
    requires row { length row.now ≡ PAYLOAD_COLUMNS }
    requires into { length into.old ≡ PAYLOAD_COLUMNS }
    ensures { (k j : ℕ) → k < OTU3_SLOTS → j < OTU3_SLOT_ROW
        → slice_index into.new (OTU3_SLOT_ROW * k + j) ≡ slice_index row.now (OTU3_SLOTS * j + k) }
{
    for quarter in 0..4_usize {
        turn::apart(
            row,
            GROUP * quarter,
            OTU3_SLOTS,
            into,
            GROUP * OTU3_SLOT_ROW * quarter,
            OTU3_SLOT_ROW,
            OTU3_SLOT_ROW,
        );
    }
}
