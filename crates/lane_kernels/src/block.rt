// Sixteen groups of eight bytes: group after group, or first the first byte of every group, then the
// second of every group, and so on.
ghost use Rattle.std.specs.Prelude.{◌≡◌, ℕ, ◌+◌, ◌*◌, ◌<◌, ◌≤◌, length, slice_index};
ghost use Rattle.lane_kernels.specs.Steps.Blocks.{by_groups, by_bytes, interleaved, low_half, high_half, seconds, two_groups, bytes_from, eight, sixteen, group_lists, byte_lists, puts};
ghost use Rattle.std.specs.Simd.Lanes.{put_chunk};

use std::simd::{u8x8, u8x16};

/// Eight vectors.
#[derive(Clone, Copy)]
pub(crate) struct Block {
    v0: u8x16,
    v1: u8x16,
    v2: u8x16,
    v3: u8x16,
    v4: u8x16,
    v5: u8x16,
    v6: u8x16,
    v7: u8x16,
}

impl Block {
    /// Sixteen groups of eight bytes, each `step` bytes behind the one before it.
    #[inline(always)]
    pub(crate) fn load_groups(row: &[u8], at: usize, step: usize) -> Block
        requires { at + step * 15 + 8 ≤ length row.now }
        ensures { result ≡ by_groups (λ g. bytes_from row.now (at + step * g)) }
    {
        Block {
            v0: load_two(row, at, at + step),
            v1: load_two(row, at + step * 2, at + step * 3),
            v2: load_two(row, at + step * 4, at + step * 5),
            v3: load_two(row, at + step * 6, at + step * 7),
            v4: load_two(row, at + step * 8, at + step * 9),
            v5: load_two(row, at + step * 10, at + step * 11),
            v6: load_two(row, at + step * 12, at + step * 13),
            v7: load_two(row, at + step * 14, at + step * 15),
        }
    }

    /// Eight lists of sixteen bytes, each `step` bytes behind the one before it: the first bytes of the
    /// groups, then the second, and so on.
    #[inline(always)]
    pub(crate) fn load_bytes(rows: &[u8], at: usize, step: usize) -> Block
        requires { at + step * 7 + 16 ≤ length rows.now }
        ensures { result ≡ by_bytes (λ g b. bytes_from rows.now (at + step * b) g) }
    {
        Block {
            v0: load(rows, at),
            v1: load(rows, at + step),
            v2: load(rows, at + step * 2),
            v3: load(rows, at + step * 3),
            v4: load(rows, at + step * 4),
            v5: load(rows, at + step * 5),
            v6: load(rows, at + step * 6),
            v7: load(rows, at + step * 7),
        }
    }

    /// Writes the groups, each `step` bytes behind the one before it.
    #[inline(always)]
    pub(crate) fn store_groups(self, into: &mut [u8], at: usize, step: usize)
        requires { at + step * 15 + 8 ≤ length into.old }
        ensures { (f : ℕ → ℕ → ℕ) → self ≡ by_groups f → into.new ≡ puts at step 0 (group_lists f) into.old }
    {
        store_two(self.v0, into, at, at + step);
        store_two(self.v1, into, at + step * 2, at + step * 3);
        store_two(self.v2, into, at + step * 4, at + step * 5);
        store_two(self.v3, into, at + step * 6, at + step * 7);
        store_two(self.v4, into, at + step * 8, at + step * 9);
        store_two(self.v5, into, at + step * 10, at + step * 11);
        store_two(self.v6, into, at + step * 12, at + step * 13);
        store_two(self.v7, into, at + step * 14, at + step * 15);
    }

    /// Writes the first bytes of the groups, then `step` bytes behind the first of them the second
    /// bytes, and so on.
    #[inline(always)]
    pub(crate) fn store_bytes(self, into: &mut [u8], at: usize, step: usize)
        requires { at + step * 7 + 16 ≤ length into.old }
        ensures { (f : ℕ → ℕ → ℕ) → self ≡ by_bytes f → into.new ≡ puts at step 0 (byte_lists f) into.old }
    {
        self.v0.copy_to_slice(&mut into[at..]);
        self.v1.copy_to_slice(&mut into[at + step..]);
        self.v2.copy_to_slice(&mut into[at + step * 2..]);
        self.v3.copy_to_slice(&mut into[at + step * 3..]);
        self.v4.copy_to_slice(&mut into[at + step * 4..]);
        self.v5.copy_to_slice(&mut into[at + step * 5..]);
        self.v6.copy_to_slice(&mut into[at + step * 6..]);
        self.v7.copy_to_slice(&mut into[at + step * 7..]);
    }

    /// Group after group, where the first bytes of all came first, and so on.
    #[inline(always)]
    #[tactic(auto, using(crate::proofs::Blocks::turned_back))]
    pub(crate) fn into_groups(self) -> Block
        ensures { (f : ℕ → ℕ → ℕ) → self ≡ by_bytes f → result ≡ by_groups f }
    {
        self.interleave().interleave().interleave()
    }

    /// The first bytes of all groups, then the second, and so on, where group came after group.
    #[inline(always)]
    #[tactic(auto, using(crate::proofs::Blocks::turned))]
    pub(crate) fn into_bytes(self) -> Block
        ensures { (f : ℕ → ℕ → ℕ) → self ≡ by_groups f → result ≡ by_bytes f }
    {
        self.interleave().interleave().interleave().interleave()
    }

    /// The first byte of every group, where group came after group.
    #[inline(always)]
    #[tactic(auto, using(crate::proofs::Blocks::firsts))]
    pub(crate) fn first_bytes(self) -> u8x16
        ensures { (f : ℕ → ℕ → ℕ) → self ≡ by_groups f → result ≡ sixteen (λ g. f g 0) }
    {
        let front = every_fourth(self.v0, self.v1, self.v2, self.v3);
        let back = every_fourth(self.v4, self.v5, self.v6, self.v7);
        every_second(front, back)
    }

    // The vectors of the first half and of the second, byte by byte in turn.
    #[inline(always)]
    #[tactic(auto, unfolding(crate::specs::Steps::Blocks::interleaved))]
    fn interleave(self) -> Block
        ensures { result ≡ interleaved self }
    {
        Block {
            v0: low(self.v0, self.v4),
            v1: high(self.v0, self.v4),
            v2: low(self.v1, self.v5),
            v3: high(self.v1, self.v5),
            v4: low(self.v2, self.v6),
            v5: high(self.v2, self.v6),
            v6: low(self.v3, self.v7),
            v7: high(self.v3, self.v7),
        }
    }
}

// Lanes 0, 2, 4 and so on of two vectors.
#[inline(always)]
fn every_second(a: u8x16, b: u8x16) -> u8x16
    ensures { result ≡ seconds a b }
{
    a.shuffle(
        b,
        [0, 2, 4, 6, 8, 10, 12, 14, 16, 18, 20, 22, 24, 26, 28, 30],
    )
}

// Lanes 0, 4, 8 and so on of four.
#[inline(always)]
fn every_fourth(a: u8x16, b: u8x16, c: u8x16, d: u8x16) -> u8x16
    ensures { result ≡ seconds (seconds a b) (seconds c d) }
{
    every_second(every_second(a, b), every_second(c, d))
}

#[inline(always)]
fn low(a: u8x16, b: u8x16) -> u8x16
    ensures { result ≡ low_half a b }
{
    a.shuffle(b, [0, 16, 1, 17, 2, 18, 3, 19, 4, 20, 5, 21, 6, 22, 7, 23])
}

#[inline(always)]
fn high(a: u8x16, b: u8x16) -> u8x16
    ensures { result ≡ high_half a b }
{
    a.shuffle(
        b,
        [8, 24, 9, 25, 10, 26, 11, 27, 12, 28, 13, 29, 14, 30, 15, 31],
    )
}

// Sixteen bytes.
#[inline(always)]
fn load(row: &[u8], at: usize) -> u8x16
    requires { at + 16 ≤ length row.now }
    ensures { result ≡ sixteen (bytes_from row.now at) }
{
    u8x16::from_slice(&row[at..])
}

// Eight bytes at one place and eight at another.
#[inline(always)]
fn load_two(row: &[u8], first: usize, second: usize) -> u8x16
    requires first { first + 8 ≤ length row.now }
    requires second { second + 8 ≤ length row.now }
    ensures { result ≡ two_groups (bytes_from row.now first) (bytes_from row.now second) }
{
    let a = u8x8::from_slice(&row[first..]);
    let b = u8x8::from_slice(&row[second..]);
    a.shuffle(b, [0, 1, 2, 3, 4, 5, 6, 7, 8, 9, 10, 11, 12, 13, 14, 15])
}

// Writes the first eight bytes at one place and the others at another.
#[inline(always)]
fn store_two(v: u8x16, into: &mut [u8], first: usize, second: usize)
    requires first { first + 8 ≤ length into.old }
    requires second { second + 8 ≤ length into.old }
    ensures { (f g : ℕ → ℕ) → v ≡ two_groups f g
        → into.new ≡ put_chunk second (put_chunk first into.old (eight f)) (eight g) }
{
    let a: u8x8 = v.swizzle([0, 1, 2, 3, 4, 5, 6, 7]);
    let b: u8x8 = v.swizzle([8, 9, 10, 11, 12, 13, 14, 15]);
    a.copy_to_slice(&mut into[first..]);
    b.copy_to_slice(&mut into[second..]);
}
