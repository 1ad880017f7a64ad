// One slot of a row.
ghost use Rattle.std.specs.Prelude.{◌≡◌, ◌≢◌, ℕ, ◌+◌, ◌-◌, ◌*◌, ◌%◌, ◌<◌, ◌≤◌, length, slice_index};
ghost use Rattle.lane_kernels.specs.SlotPlaces.{IsSlotCount};
ghost use Rattle.otn_base.specs.declared.limits.TheConstants.{OTU2_SLOTS};

use crate::block::Block;
use otn_base::limits::OTU2_SLOTS;

/// Writes the bytes of slot `k` (1 to `SLOTS`) of some whole cycles of `SLOTS` columns, as the 3,808
/// payload bytes of a row, in the order of their columns (G.709 clause 19.1).
#[inline]
pub fn take_slot<const SLOTS: usize>(row: &[u8], k: u8, into: &mut [u8])
    requires slots { IsSlotCount SLOTS }
    requires low { 1 ≤ k }
    requires high { k ≤ SLOTS }
    requires size { length row.now ≡ SLOTS * length into.old }
    ensures { (j : ℕ) → j < length into.old → slice_index into.new j ≡ slice_index row.now (SLOTS * j + k - 1) }
{
    let done = if SLOTS == OTU2_SLOTS {
        take_blocks(row, k as usize - 1, into)
    } else {
        0
    };
    take_rest(row, SLOTS, k as usize - 1, into, done);
}

/// Writes these bytes into the columns of slot `k` (1 to `SLOTS`) of some whole cycles of `SLOTS`
/// columns, as the 3,808 payload bytes of a row; every other byte stays (G.709 clause 19.1).
#[inline]
pub fn put_slot<const SLOTS: usize>(bytes: &[u8], k: u8, row: &mut [u8])
    requires slots { IsSlotCount SLOTS }
    requires low { 1 ≤ k }
    requires high { k ≤ SLOTS }
    requires size { length row.old ≡ SLOTS * length bytes.now }
    ensures here { (j : ℕ) → j < length bytes.now → slice_index row.new (SLOTS * j + k - 1) ≡ slice_index bytes.now j }
    ensures others { (x : ℕ) → x % SLOTS + 1 ≢ k → slice_index row.new x ≡ slice_index row.old x }
{
    let first = k as usize - 1;
    let mut done = 0;
    // Four at a time: of a plain loop the compiler gathers sixteen bytes, for which it has not the registers.
    while bytes.len() - done >= 4 {
        row[SLOTS * done + first] = bytes[done];
        row[SLOTS * (done + 1) + first] = bytes[done + 1];
        row[SLOTS * (done + 2) + first] = bytes[done + 2];
        row[SLOTS * (done + 3) + first] = bytes[done + 3];
        done += 4;
    }
    for j in done..bytes.len() {
        row[SLOTS * j + first] = bytes[j];
    }
}

// Sixteen cycles of an OTU2's columns at a time, as far as a cycle stands behind them; says how many they are.
#[inline(always)]
fn take_blocks(row: &[u8], first: usize, into: &mut [u8]) -> usize
    requires first { first < OTU2_SLOTS }
    requires size { length row.now ≡ OTU2_SLOTS * length into.old }
    ensures count { result ≤ length into.old }
    ensures bytes { (j : ℕ) → j < result → slice_index into.new j ≡ slice_index row.now (OTU2_SLOTS * j + first) }
{
    let blocks = into.len().saturating_sub(1) / 16;
    for block in 0..blocks {
        take_block(row, OTU2_SLOTS * 16 * block + first, into, 16 * block);
    }
    16 * blocks
}

#[inline(always)]
fn take_block(row: &[u8], at: usize, into: &mut [u8], to: usize)
    requires row { at + OTU2_SLOTS * 16 ≤ length row.now }
    requires into { to + 16 ≤ length into.old }
    ensures below { (j : ℕ) → j < to → slice_index into.new j ≡ slice_index into.old j }
    ensures here { (j : ℕ) → j < 16 → slice_index into.new (to + j) ≡ slice_index row.now (at + OTU2_SLOTS * j) }
{
    let bytes = Block::load_groups(row, at, OTU2_SLOTS).first_bytes();
    bytes.copy_to_slice(&mut into[to..]);
}

// The cycles from one on, one by one.
#[inline(always)]
fn take_rest(row: &[u8], slots: usize, first: usize, into: &mut [u8], from: usize)
    requires first { first < slots }
    requires size { length row.now ≡ slots * length into.old }
    requires from { from ≤ length into.old }
    ensures before { (j : ℕ) → j < from → slice_index into.new j ≡ slice_index into.old j }
    ensures rest { (j : ℕ) → from ≤ j → j < length into.old
        → slice_index into.new j ≡ slice_index row.now (slots * j + first) }
{
    for j in from..into.len() {
        into[j] = row[slots * j + first];
    }
}
