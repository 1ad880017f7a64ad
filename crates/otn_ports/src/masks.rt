// Masks of places, and bytes that are spoiled by them.
ghost use Rattle.std.specs.Prelude.{◌≡◌, ◌≤◌, ℕ, ◌+◌, true, length, drop};
ghost use Rattle.port_base.specs.Bytes.{raised};
ghost use Rattle.otn_ports.specs.Spoiling.{mask_at, rises_from, spoiled};

/// Spoils bytes that stand from a place on, and says how many pairs are used up by that.
pub(crate) fn spoil(bytes: &mut [u8], from: u64, pairs: &[(u64, u8)]) -> usize
    requires { rises_from from pairs.now ≡ true }
    ensures within { result ≤ length pairs.now }
    ensures bytes { bytes.new ≡ spoiled pairs.now from bytes.old }
    ensures rises { rises_from (raised from (length bytes.old)) (drop result pairs.now) ≡ true }
    ensures rest { (k : ℕ) → mask_at (drop result pairs.now) (raised from (length bytes.old) + k)
        ≡ mask_at pairs.now (from + length bytes.old + k) }
{
    let mut used = 0;
    for i in 0..bytes.len() {
        let mask = next_mask(pairs, &mut used, from.saturating_add(i as u64));
        bytes[i] ^= mask;
    }
    used
}

// The mask of a place, where the pairs before it are used up. A pair of this place is then used up too.
fn next_mask(pairs: &[(u64, u8)], used: &mut usize, place: u64) -> u8
    requires within { used.old ≤ length pairs.now }
    requires rises { rises_from place (drop used.old pairs.now) ≡ true }
    ensures within { used.new ≤ length pairs.now }
    ensures mask { result ≡ mask_at (drop used.old pairs.now) place }
    ensures rises { rises_from (raised place 1) (drop used.new pairs.now) ≡ true }
    ensures rest { (q : ℕ) → raised place 1 ≤ q
        → mask_at (drop used.new pairs.now) q ≡ mask_at (drop used.old pairs.now) q }
{
    if *used == pairs.len() {
        return 0;
    }
    let (listed, mask) = pairs[*used];
    if listed != place {
        return 0;
    }
    *used += 1;
    mask
}
