// A run of lists of bytes that are interleaved, byte by byte, and the same lists one after the other.
ghost use Rattle.std.specs.Prelude.{◌≡◌, ℕ, ◌+◌, ◌*◌, ◌<◌, ◌≤◌, ◌⊎◌, length, slice_index};

use crate::block::Block;

/// The bytes of a group, as a vector of eight bytes holds them.
pub(crate) const GROUP: usize = 8;

/// Writes eight lists of `count` bytes, each `wide` bytes behind the one before it, from `to` on: byte j of list k,
/// from 0, is byte k of the group that begins `step * j` bytes behind `first`.
#[inline(always)]
pub(crate) fn apart(
    row: &[u8],
    first: usize,
    step: usize,
    into: &mut [u8],
    to: usize,
    count: usize,
    wide: usize,
)
    requires count { 16 ≤ count }
    requires wide { count ≤ wide }
    requires row { first + step * count + 8 ≤ length row.now + step }
    requires into { to + wide * 7 + count ≤ length into.old }
    ensures here { (k j : ℕ) → k < 8 → j < count
        → slice_index into.new (to + wide * k + j) ≡ slice_index row.now (first + step * j + k) }
    ensures others { (n : ℕ) → ((k : ℕ) → k < 8 → (n < to + wide * k) ⊎ (to + wide * k + count ≤ n))
        → slice_index into.new n ≡ slice_index into.old n }
{
    for block in 0..count / 16 + 1 {
        let from = (16 * block).min(count - 16);
        block_apart(row, first + step * from, step, into, to + from, wide);
    }
}

/// Writes such groups out of the eight lists that stand at `at`, likewise each `wide` bytes behind the one before it.
#[inline(always)]
pub(crate) fn together(
    lists: &[u8],
    at: usize,
    count: usize,
    wide: usize,
    into: &mut [u8],
    first: usize,
    step: usize,
)
    requires count { 16 ≤ count }
    requires wide { count ≤ wide }
    requires step { 8 ≤ step }
    requires lists { at + wide * 7 + count ≤ length lists.now }
    requires into { first + step * count + 8 ≤ length into.old + step }
    ensures here { (k j : ℕ) → k < 8 → j < count
        → slice_index into.new (first + step * j + k) ≡ slice_index lists.now (at + wide * k + j) }
    ensures others { (n : ℕ) → ((j : ℕ) → j < count → (n < first + step * j) ⊎ (first + step * j + 8 ≤ n))
        → slice_index into.new n ≡ slice_index into.old n }
{
    for block in 0..count / 16 + 1 {
        let from = (16 * block).min(count - 16);
        block_together(lists, at + from, wide, into, first + step * from, step);
    }
}

#[inline(always)]
fn block_apart(row: &[u8], at: usize, step: usize, into: &mut [u8], to: usize, count: usize)
    requires row { at + step * 15 + 8 ≤ length row.now }
    requires into { to + count * 7 + 16 ≤ length into.old }
    requires count { 16 ≤ count }
    ensures here { (g b : ℕ) → g < 16 → b < 8
        → slice_index into.new (to + count * b + g) ≡ slice_index row.now (at + step * g + b) }
    ensures others { (n : ℕ) → ((b : ℕ) → b < 8 → (n < to + count * b) ⊎ (to + count * b + 16 ≤ n))
        → slice_index into.new n ≡ slice_index into.old n }
{
    let block = Block::load_groups(row, at, step);
    block.into_bytes().store_bytes(into, to, count);
}

#[inline(always)]
fn block_together(lists: &[u8], at: usize, count: usize, into: &mut [u8], to: usize, step: usize)
    requires lists { at + count * 7 + 16 ≤ length lists.now }
    requires into { to + step * 15 + 8 ≤ length into.old }
    requires step { 8 ≤ step }
    ensures here { (g b : ℕ) → g < 16 → b < 8
        → slice_index into.new (to + step * g + b) ≡ slice_index lists.now (at + count * b + g) }
    ensures others { (n : ℕ) → ((g : ℕ) → g < 16 → (n < to + step * g) ⊎ (to + step * g + 8 ≤ n))
        → slice_index into.new n ≡ slice_index into.old n }
{
    let block = Block::load_bytes(lists, at, count);
    block.into_groups().store_groups(into, to, step);
}
