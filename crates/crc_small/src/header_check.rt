// The check of 16 bits, and the one correction of a header that it allows.

ghost use Rattle.std.specs.Prelude.{◌≡◌, ℕ, IsTrue, ◌↔◌, IsNone, IfSome};
ghost use Rattle.crc_small.specs.LongDivision.{crc16_of};
ghost use Rattle.crc_small.specs.Header.{IsRightHeader, IsWithinOneBit};

use crate::steps::byte16;

/// The check of 16 bits of some bytes (G.7041 clause 6.1.1.2): the remainder of their bits, most
/// significant first, followed by 16 zeros, by x^16 + x^12 + x^5 + 1.
pub fn crc16(bytes: &[u8]) -> u16
    ensures { result ≡ crc16_of bytes.now }
{
    let mut register = 0;
    for byte in bytes {
        register = byte16(register, *byte);
    }
    register
}

/// The right header that differs from `header` in at most one bit (G.7041 clause 6.1.1.2.1). A header is
/// four bytes, the first of them the most significant one here: two of a length, then their [`crc16`].
pub fn fix_one_bit(header: u32) -> Option<u32>
    ensures none { IsNone result ↔ ((right : ℕ) → IsRightHeader right → ¬ IsWithinOneBit header right) }
    ensures right { IfSome result IsRightHeader }
    ensures near { IfSome result (IsWithinOneBit header) }

    // So the header that comes back is the only one.
    ensures at_most_one { (one other : ℕ) → IsRightHeader one → IsRightHeader other
        → IsWithinOneBit header one → IsWithinOneBit header other → one ≡ other }
{
    if is_right(header) {
        return Some(header);
    }
    for place in 0..32_u32 {
        let other = header ^ (1 << place);
        if is_right(other) {
            return Some(other);
        }
    }
    None
}

/// Whether the last two bytes are the check of the first two.
fn is_right(header: u32) -> bool
    ensures { IsTrue result ↔ IsRightHeader header }
{
    let first = (header >> 24) as u8;
    let second = (header >> 16 & 0xFF) as u8;
    byte16(byte16(0, first), second) as u32 == header & 0xFFFF
}
