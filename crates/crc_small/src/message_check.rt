// The checks of a justification message: of 8 bits over JC1 and JC2, and of 5 bits over D1 to D10.

ghost use Rattle.std.specs.Prelude.{◌≡◌, ◌≢◌, ℕ, ◌<◌, [], ◌∷◌};
ghost use Rattle.crc_small.specs.LongDivision.{crc8_of, crc5_of, bring_down};
ghost use Rattle.crc_small.specs.Steps.Shifted.{after_byte, after_five};
ghost use Rattle.crc_small.specs.Changes.{ChangesOneByte};

/// The check of 8 bits that JC3 carries (G.709 Annex D): the remainder of the bits of JC1 and JC2, followed
/// by 8 zeros, by x^8 + x^3 + x^2 + 1. A change within one of the three bytes is always found.
pub fn crc8(jc1: u8, jc2: u8) -> u8
    ensures check { result ≡ crc8_of (jc1 ∷ jc2 ∷ []) }
    ensures one_byte_changed { (a b c : ℕ) → a < 256 → b < 256
        → ChangesOneByte (jc1 ∷ jc2 ∷ result ∷ []) (a ∷ b ∷ c ∷ [])
        → c ≢ crc8_of (a ∷ b ∷ []) }
{
    byte8(byte8(0, jc1), jc2)
}

/// The check of 5 bits that JC6 carries (G.709 Annex D): the remainder of the ten bits of `d`, the most
/// significant first, followed by 5 zeros, by x^5 + x + 1.
pub fn crc5(d: u16) -> u8
    requires { d < 1024 }
    ensures check { result ≡ crc5_of d }
    ensures five_bits { result < 32 }
{
    let high = (d / 32) as u8;
    let low = (d % 32) as u8;
    five5(five5(0, high), low)
}

/// The register of 8 bits after one byte more.
fn byte8(register: u8, byte: u8) -> u8
    ensures { result ≡ after_byte 7 0x10D register byte }
{
    let mut shifted = register ^ byte;
    for _ in 0..8_u32 {
        shifted = shift8(shifted);
    }
    shifted
}

/// The register of 8 bits shifted once.
fn shift8(register: u8) -> u8
    ensures { result ≡ bring_down 8 0x10D register 0 }
{
    if register >= 0x80 {
        (register << 1) ^ 0x0D
    } else {
        register << 1
    }
}

/// The register of 5 bits after five bits more.
fn five5(register: u8, bits: u8) -> u8
    requires register { register < 32 }
    requires bits { bits < 32 }
    ensures value { result ≡ after_five register bits }
    ensures small { result < 32 }
{
    let mut shifted = register ^ bits;
    for _ in 0..5_u32 {
        shifted = shift5(shifted);
    }
    shifted
}

/// The register of 5 bits shifted once.
fn shift5(register: u8) -> u8
    requires { register < 32 }
    ensures value { result ≡ bring_down 5 0x23 register 0 }
    ensures small { result < 32 }
{
    if register >= 16 {
        (register * 2 - 32) ^ 0x03
    } else {
        register * 2
    }
}
