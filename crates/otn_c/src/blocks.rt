// Blocks of bytes: parts that lie one behind the other, by where each of them ends.
ghost use Rattle.std.specs.Prelude.{◌≡◌, ◌<◌, ◌≤◌, ◌+◌, ◌++◌, MatchOption, OnSome, length, take};
ghost use Rattle.otn_c.specs.Blocks.{IsNoPart, part_of};

/// Part n of a block. None where it would end before it begins, or behind the block.
pub(crate) fn part<'a>(block: &'a [u8], ends: &[usize], n: usize) -> Option<&'a [u8]>
    requires { n < length ends.now }
    ensures bytes { MatchOption result (IsNoPart block.now ends.now n)
        (λ bytes. bytes.now ≡ part_of block.now ends.now n) }
    ensures part { OnSome result (IsNoPart block.now ends.now n → ⊥) }
{
    let start = if n == 0 { 0 } else { ends[n - 1] };
    block.get(start..ends[n])
}

/// Puts bytes behind the first `at` bytes of a block, which stay.
pub(crate) fn put(block: &mut [u8], at: usize, bytes: &[u8])
    requires { at + length bytes.now ≤ length block.old }
    ensures length { length block.new ≡ length block.old }
    ensures before { take at block.new ≡ take at block.old }
    ensures put { take (at + length bytes.now) block.new ≡ take at block.old ++ bytes.now }
{
    block[at..at + bytes.len()].copy_from_slice(bytes);
}
