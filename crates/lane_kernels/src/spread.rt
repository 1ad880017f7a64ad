// Bytes of several slots into a row, cycle by cycle.
ghost use Rattle.std.specs.Prelude.{◌≡◌, ◌≢◌, ℕ, ◌+◌, ◌-◌, ◌*◌, ◌%◌, ◌<◌, ◌≤◌, ◌⊎◌, All, if◌then◌else◌, nat_lt, length, slice_index};
ghost use Rattle.lane_kernels.specs.SlotPlaces.{IsSlotCount};
ghost use Rattle.lane_kernels.specs.Steps.Spread.{HalfLanes, SpreadLanes};
ghost use Rattle.otn_base.specs.SlotList.{IsSlotList};
ghost use Rattle.otn_base.specs.declared.limits.TheConstants.{MOST_SLOTS, OTU2_SLOTS, OTU3_SLOTS};

use crate::several::low_slots;
use otn_base::limits::{OTU2_SLOTS, OTU3_SLOTS};
use std::simd::prelude::*;

/// Writes these bytes, a byte of each of these slots for each of some whole cycles of `SLOTS` columns, into
/// the columns of the slots, as among the 3,808 payload bytes of a row; every other byte stays
/// (G.709 clause 19.1).
#[inline]
pub fn put_slots<const SLOTS: usize>(bytes: &[u8], cycles: usize, slots: &[u8], row: &mut [u8])
    requires line { IsSlotCount SLOTS }
    requires slots { IsSlotList SLOTS slots.now }
    requires bytes { length bytes.now ≡ length slots.now * cycles }
    requires row { length row.old ≡ SLOTS * cycles }
    ensures here { (j p : ℕ) → j < cycles → p < length slots.now
        → slice_index row.new (SLOTS * j + (slice_index slots.now p - 1))
        ≡ slice_index bytes.now (length slots.now * j + p) }
    ensures others { (x : ℕ) → ((p : ℕ) → p < length slots.now → x % SLOTS + 1 ≢ slice_index slots.now p)
        → slice_index row.new x ≡ slice_index row.old x }
{
    let done = if SLOTS == OTU2_SLOTS {
        put_pairs(bytes, cycles, slots, row)
    } else {
        put_halves(bytes, cycles, slots, row)
    };
    put_cycles(bytes, cycles, slots, row, SLOTS, done);
}

// Two cycles of 8 columns at a time, as far as sixteen bytes can be read; says how many cycles they are.
#[inline(always)]
fn put_pairs(bytes: &[u8], cycles: usize, slots: &[u8], row: &mut [u8]) -> usize
    requires slots { IsSlotList OTU2_SLOTS slots.now }
    requires few { length slots.now ≤ OTU2_SLOTS }
    requires bytes { length bytes.now ≡ length slots.now * cycles }
    requires row { length row.old ≡ OTU2_SLOTS * cycles }
    ensures count { result ≤ cycles }
    ensures here { (j p : ℕ) → j < result → p < length slots.now
        → slice_index row.new (OTU2_SLOTS * j + (slice_index slots.now p - 1))
        ≡ slice_index bytes.now (length slots.now * j + p) }
    ensures others { (x : ℕ) → ((p : ℕ) → p < length slots.now → x % OTU2_SLOTS + 1 ≢ slice_index slots.now p)
        → slice_index row.new x ≡ slice_index row.old x }
{
    let lanes = spread_lanes(slots);
    let two = 2 * slots.len();
    let pairs = (bytes.len().saturating_sub(16 - two) / two).min(cycles / 2);
    for pair in 0..pairs {
        put_pair(bytes, two * pair, lanes, row, 16 * pair);
    }
    2 * pairs
}

// Which of the bytes of two cycles stands in each of their columns: 128 for a column of another slot.
#[inline(always)]
fn spread_lanes(slots: &[u8]) -> u8x16
    requires slots { IsSlotList OTU2_SLOTS slots.now }
    requires few { length slots.now ≤ OTU2_SLOTS }
    ensures { SpreadLanes slots.now result }
{
    let mut lanes = [128u8; 16];
    for (p, k) in slots.iter().enumerate() {
        lanes[*k as usize - 1] = p as u8;
        lanes[*k as usize + 7] = (slots.len() + p) as u8;
    }
    u8x16::from_array(lanes)
}

// One cycle of 32 columns at a time, in two halves, as far as sixteen bytes can be read behind the first
// half's; says how many cycles they are.
#[inline(always)]
fn put_halves(bytes: &[u8], cycles: usize, slots: &[u8], row: &mut [u8]) -> usize
    requires slots { IsSlotList OTU3_SLOTS slots.now }
    requires bytes { length bytes.now ≡ length slots.now * cycles }
    requires row { length row.old ≡ OTU3_SLOTS * cycles }
    ensures count { result ≤ cycles }
    ensures here { (j p : ℕ) → j < result → p < length slots.now
        → slice_index row.new (OTU3_SLOTS * j + (slice_index slots.now p - 1))
        ≡ slice_index bytes.now (length slots.now * j + p) }
    ensures others { (x : ℕ) → ((p : ℕ) → p < length slots.now → x % OTU3_SLOTS + 1 ≢ slice_index slots.now p)
        → slice_index row.new x ≡ slice_index row.old x }
{
    let low = low_slots(slots);
    let first = half_spread(&slots[..low], 0);
    let second = half_spread(&slots[low..], 16);
    let all = slots.len();
    let count = ((bytes.len() + all).saturating_sub(low + 16) / all).min(cycles);
    for cycle in 0..count {
        put_pair(bytes, all * cycle, first, row, OTU3_SLOTS * cycle);
        put_pair(
            bytes,
            all * cycle + low,
            second,
            row,
            OTU3_SLOTS * cycle + 16,
        );
    }
    count
}

// Which of the bytes of these slots stands in each of the 16 columns behind so many: 128 for a column of
// another slot.
#[inline(always)]
fn half_spread(slots: &[u8], before: u8) -> u8x16
    requires before { before ≤ 16 }
    requires low { (p : ℕ) → p < length slots.now → before + 1 ≤ slice_index slots.now p }
    requires high { (p : ℕ) → p < length slots.now → slice_index slots.now p ≤ before + 16 }
    requires rising { (p q : ℕ) → p < q → q < length slots.now → slice_index slots.now p < slice_index slots.now q }
    requires few { length slots.now ≤ 16 }
    ensures { HalfLanes slots.now before result }
{
    let mut lanes = [128u8; 16];
    for (p, k) in slots.iter().enumerate() {
        lanes[(*k - 1 - before) as usize] = p as u8;
    }
    u8x16::from_array(lanes)
}

// Sixteen columns out of sixteen bytes and the columns as they were.
#[inline(always)]
fn put_pair(bytes: &[u8], from: usize, lanes: u8x16, row: &mut [u8], at: usize)
    requires bytes { from + 16 ≤ length bytes.now }
    requires row { at + 16 ≤ length row.old }
    requires low { (i : ℕ) → (slice_index lanes i < 16) ⊎ (slice_index lanes i ≡ 128) }
    requires long { length lanes ≡ 16 }
    ensures here { (i : ℕ) → i < 16 → slice_index lanes i < 16
        → slice_index row.new (at + i) ≡ slice_index bytes.now (from + slice_index lanes i) }
    ensures kept { (i : ℕ) → i < 16 → slice_index lanes i ≡ 128
        → slice_index row.new (at + i) ≡ slice_index row.old (at + i) }
    ensures outside { (n : ℕ) → (n < at) ⊎ (at + 16 ≤ n) → slice_index row.new n ≡ slice_index row.old n }
{
    let new = u8x16::from_slice(&bytes[from..]).swizzle_dyn(lanes);
    let old = u8x16::from_slice(&row[at..]);
    let merged = where_low(lanes, new, old);
    merged.copy_to_slice(&mut row[at..]);
}

// The lanes of the one where these are below 128, and of the other.
#[inline(always)]
fn where_low(lanes: u8x16, new: u8x16, old: u8x16) -> u8x16
    requires lanes { length lanes ≡ 16 }
    requires new { length new ≡ 16 }
    requires old { length old ≡ 16 }
    ensures long { length result ≡ 16 }
    ensures each { (i : ℕ) → i < 16 → slice_index result i
        ≡ (if nat_lt (slice_index lanes i) 128 then slice_index new i else slice_index old i) }
{
    lanes.simd_lt(u8x16::splat(128)).select(new, old)
}

// The cycles from one on, byte by byte.
#[inline(always)]
fn put_cycles(bytes: &[u8], cycles: usize, slots: &[u8], row: &mut [u8], line: usize, from: usize)
    requires line { (1 ≤ line) × (line ≤ MOST_SLOTS) }
    requires slots { IsSlotList line slots.now }
    requires from { from ≤ cycles }
    requires bytes { length bytes.now ≡ length slots.now * cycles }
    requires row { length row.old ≡ line * cycles }
    ensures before { (n : ℕ) → n < line * from → slice_index row.new n ≡ slice_index row.old n }
    ensures rest { (j p : ℕ) → from ≤ j → j < cycles → p < length slots.now
        → slice_index row.new (line * j + (slice_index slots.now p - 1))
        ≡ slice_index bytes.now (length slots.now * j + p) }
    ensures others { (x : ℕ) → ((p : ℕ) → p < length slots.now → x % line + 1 ≢ slice_index slots.now p)
        → slice_index row.new x ≡ slice_index row.old x }
{
    for cycle in from..cycles {
        put_cycle(bytes, slots.len() * cycle, slots, row, line * cycle, line);
    }
}

#[inline(always)]
fn put_cycle(bytes: &[u8], from: usize, slots: &[u8], row: &mut [u8], at: usize, line: usize)
    requires slots { IsSlotList line slots.now }
    requires bytes { from + length slots.now ≤ length bytes.now }
    requires row { at + line ≤ length row.old }
    ensures here { (p : ℕ) → p < length slots.now
        → slice_index row.new (at + (slice_index slots.now p - 1)) ≡ slice_index bytes.now (from + p) }
    ensures others { (n : ℕ) → ((p : ℕ) → p < length slots.now → n ≢ at + (slice_index slots.now p - 1))
        → slice_index row.new n ≡ slice_index row.old n }
{
    for (p, k) in slots.iter().enumerate() {
        row[at + (*k as usize - 1)] = bytes[from + p];
    }
}
