// Several slots of a row, cycle by cycle.
ghost use Rattle.std.specs.Prelude.{◌≡◌, ℕ, ◌+◌, ◌-◌, ◌*◌, ◌<◌, ◌≤◌, All, length, slice_index};
ghost use Rattle.std.specs.Simd.Lanes.{Each1};
ghost use Rattle.lane_kernels.specs.SlotPlaces.{IsSlotCount};
ghost use Rattle.otn_base.specs.SlotList.{IsSlotList};
ghost use Rattle.otn_base.specs.declared.limits.TheConstants.{MOST_SLOTS, OTU2_SLOTS, OTU3_SLOTS};

use otn_base::limits::{OTU2_SLOTS, OTU3_SLOTS};
use std::simd::u8x16;

/// Writes a byte of each of these slots, in slot order, for each of some whole cycles of `SLOTS` columns, as the 3,808
/// payload bytes of a row (G.709 clause 19.1).
#[inline]
pub fn take_slots<const SLOTS: usize>(row: &[u8], cycles: usize, slots: &[u8], into: &mut [u8])
    requires line { IsSlotCount SLOTS }
    requires slots { IsSlotList SLOTS slots.now }
    requires row { length row.now ≡ SLOTS * cycles }
    requires into { length into.old ≡ length slots.now * cycles }
    ensures { (j p : ℕ) → j < cycles → p < length slots.now
        → slice_index into.new (length slots.now * j + p)
        ≡ slice_index row.now (SLOTS * j + (slice_index slots.now p - 1)) }
{
    let done = if SLOTS == OTU2_SLOTS {
        take_pairs(row, cycles, slots, into)
    } else {
        take_halves(row, cycles, slots, into)
    };
    take_cycles(row, SLOTS, cycles, slots, into, done);
}

// Two cycles of 8 columns at a time, as far as sixteen bytes can be written; says how many cycles they
// are.
#[inline(always)]
fn take_pairs(row: &[u8], cycles: usize, slots: &[u8], into: &mut [u8]) -> usize
    requires slots { IsSlotList OTU2_SLOTS slots.now }
    requires few { length slots.now ≤ OTU2_SLOTS }
    requires row { length row.now ≡ OTU2_SLOTS * cycles }
    requires into { length into.old ≡ length slots.now * cycles }
    ensures count { result ≤ cycles }
    ensures bytes { (j p : ℕ) → j < result → p < length slots.now
        → slice_index into.new (length slots.now * j + p)
        ≡ slice_index row.now (OTU2_SLOTS * j + (slice_index slots.now p - 1)) }
{
    let lanes = pair_lanes(slots);
    let two = 2 * slots.len();
    let pairs = (into.len().saturating_sub(16 - two) / two).min(cycles / 2);
    for pair in 0..pairs {
        take_pair(row, 16 * pair, lanes, into, two * pair);
    }
    2 * pairs
}

// Where the bytes of these slots stand in two cycles of 8 columns.
#[inline(always)]
fn pair_lanes(slots: &[u8]) -> u8x16
    requires slots { IsSlotList OTU2_SLOTS slots.now }
    requires few { length slots.now ≤ OTU2_SLOTS }
    ensures first { (p : ℕ) → p < length slots.now → slice_index result p ≡ slice_index slots.now p - 1 }
    ensures second { (p : ℕ) → p < length slots.now
        → slice_index result (length slots.now + p) ≡ OTU2_SLOTS + (slice_index slots.now p - 1) }
    ensures low { Each1 (λ i. i < 16) result }
    ensures long { length result ≡ 16 }
{
    let mut lanes = [0u8; 16];
    for (p, k) in slots.iter().enumerate() {
        lanes[p] = *k - 1;
        lanes[slots.len() + p] = *k + 7;
    }
    u8x16::from_array(lanes)
}

// One cycle of 32 columns at a time, in two halves, as far as sixteen bytes can be written behind the
// first half's; says how many cycles they are.
#[inline(always)]
fn take_halves(row: &[u8], cycles: usize, slots: &[u8], into: &mut [u8]) -> usize
    requires slots { IsSlotList OTU3_SLOTS slots.now }
    requires row { length row.now ≡ OTU3_SLOTS * cycles }
    requires into { length into.old ≡ length slots.now * cycles }
    ensures count { result ≤ cycles }
    ensures bytes { (j p : ℕ) → j < result → p < length slots.now
        → slice_index into.new (length slots.now * j + p)
        ≡ slice_index row.now (OTU3_SLOTS * j + (slice_index slots.now p - 1)) }
{
    let low = low_slots(slots);
    let first = half_lanes(&slots[..low], 0);
    let second = half_lanes(&slots[low..], 16);
    let all = slots.len();
    let count = ((into.len() + all).saturating_sub(low + 16) / all).min(cycles);
    for cycle in 0..count {
        take_pair(row, OTU3_SLOTS * cycle, first, into, all * cycle);
        take_pair(
            row,
            OTU3_SLOTS * cycle + 16,
            second,
            into,
            all * cycle + low,
        );
    }
    count
}

/// How many of these slots are of the first 16.
#[inline(always)]
pub(crate) fn low_slots(slots: &[u8]) -> usize
    requires { IsSlotList OTU3_SLOTS slots.now }
    ensures count { result ≤ length slots.now }
    ensures low { (p : ℕ) → p < result → slice_index slots.now p ≤ 16 }
    ensures high { (p : ℕ) → result ≤ p → p < length slots.now → 17 ≤ slice_index slots.now p }
{
    for (p, k) in slots.iter().enumerate() {
        if *k > 16 {
            return p;
        }
    }
    slots.len()
}

// Where the bytes of these slots stand in the 16 columns behind so many.
#[inline(always)]
fn half_lanes(slots: &[u8], before: u8) -> u8x16
    requires before { before ≤ 16 }
    requires low { (p : ℕ) → p < length slots.now → before + 1 ≤ slice_index slots.now p }
    requires high { (p : ℕ) → p < length slots.now → slice_index slots.now p ≤ before + 16 }
    requires few { length slots.now ≤ 16 }
    ensures each { (p : ℕ) → p < length slots.now → slice_index result p ≡ slice_index slots.now p - 1 - before }
    ensures low { Each1 (λ i. i < 16) result }
    ensures long { length result ≡ 16 }
{
    let mut lanes = [0u8; 16];
    for (p, k) in slots.iter().enumerate() {
        lanes[p] = *k - 1 - before;
    }
    u8x16::from_array(lanes)
}

// Sixteen bytes out of sixteen.
#[inline(always)]
fn take_pair(row: &[u8], at: usize, lanes: u8x16, into: &mut [u8], to: usize)
    requires row { at + 16 ≤ length row.now }
    requires into { to + 16 ≤ length into.old }
    requires low { Each1 (λ i. i < 16) lanes }
    requires long { length lanes ≡ 16 }
    ensures below { (n : ℕ) → n < to → slice_index into.new n ≡ slice_index into.old n }
    ensures here { (i : ℕ) → i < 16 → slice_index into.new (to + i) ≡ slice_index row.now (at + slice_index lanes i) }
{
    let bytes = u8x16::from_slice(&row[at..]).swizzle_dyn(lanes);
    bytes.copy_to_slice(&mut into[to..]);
}

// The cycles from one on, byte by byte.
#[inline(always)]
fn take_cycles(row: &[u8], line: usize, cycles: usize, slots: &[u8], into: &mut [u8], from: usize)
    requires line { (1 ≤ line) × (line ≤ MOST_SLOTS) }
    requires slots { All (λ k. (1 ≤ k) × (k ≤ line)) slots.now }
    requires from { from ≤ cycles }
    requires row { length row.now ≡ line * cycles }
    requires into { length into.old ≡ length slots.now * cycles }
    ensures before { (n : ℕ) → n < length slots.now * from → slice_index into.new n ≡ slice_index into.old n }
    ensures rest { (j p : ℕ) → from ≤ j → j < cycles → p < length slots.now
        → slice_index into.new (length slots.now * j + p)
        ≡ slice_index row.now (line * j + (slice_index slots.now p - 1)) }
{
    for cycle in from..cycles {
        take_cycle(row, line * cycle, slots, into, slots.len() * cycle);
    }
}

#[inline(always)]
fn take_cycle(row: &[u8], at: usize, slots: &[u8], into: &mut [u8], to: usize)
    requires slots { All (λ k. (1 ≤ k) × (at + k ≤ length row.now)) slots.now }
    requires into { to + length slots.now ≤ length into.old }
    ensures below { (n : ℕ) → n < to → slice_index into.new n ≡ slice_index into.old n }
    ensures here { (p : ℕ) → p < length slots.now
        → slice_index into.new (to + p) ≡ slice_index row.now (at + (slice_index slots.now p - 1)) }
{
    for (p, k) in slots.iter().enumerate() {
        into[to + p] = row[at + (*k as usize - 1)];
    }
}
