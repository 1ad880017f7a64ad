// Laws of the two directions.
ghost use Rattle.std.specs.Prelude.{◌≡◌, ℕ, ◌<◌, ◌^◌, List};
ghost use Rattle.gfp_scrambler.specs.BitList.{AreBytes, IsScrambled, IsDescrambled};
ghost use Rattle.gfp_scrambler.specs.Register.{descrambled, last_bits, scrambled};

/// Descrambling undoes scrambling, and both registers then hold the same bits.
pub fn descrambling_undoes()
    ensures { (register : ℕ) (plain : List ℕ) → descrambled register (scrambled register plain) ≡ plain }
{}

/// From bits 0 on, the bytes sent, and the plain bytes of any that came, are those of the bit rules.
pub fn is_the_bit_rule()
    ensures sent { (plain : List ℕ) → AreBytes plain → IsScrambled plain (scrambled 0 plain) }
    ensures plain { (got : List ℕ) → AreBytes got → IsDescrambled got (descrambled 0 got) }
{}
