// What pairs of hex digits say.
ghost use Rattle.std.specs.Prelude.{◌≡◌, ◌≤◌, ◌*◌, length, if◌then◌else◌, Some, None};
ghost use Rattle.hex.specs.Hex.{decode_of};
ghost use Rattle.packet_text.specs.PacketText.{decoded};

use crate::lanes::{BLOCK, all_small, decode_block};
use hex::decode_to_slice;
use std::simd::u8x16;

/// Writes the bytes that hex digits of either case say, two of them a byte, to the slice, and says whether they are
/// digits; if not, the slice's content is open.
pub fn decode_digits(digits: &[u8], bytes: &mut [u8]) -> bool
    requires { length digits.now ≡ 2 * length bytes.old }
    ensures { decoded (decode_of digits.now) ≡ (if result then Some bytes.new else None) }
{
    if bytes.len() < BLOCK {
        return decode_few(digits, bytes);
    }
    decode_blocks(digits, bytes)
}

// Two blocks at a time. One that would go past the end goes over the last 16 bytes again. Whether all were digits is
// asked once, at the end.
#[tactic(auto, using(crate::proofs::DigitBlocks::none_seen, crate::proofs::DigitBlocks::seen_all, crate::proofs::DigitBlocks::seen_none))]
fn decode_blocks(digits: &[u8], bytes: &mut [u8]) -> bool
    requires size { length digits.now ≡ 2 * length bytes.old }
    requires some { 16 ≤ length bytes.old }
    ensures { decoded (decode_of digits.now) ≡ (if result then Some bytes.new else None) }
{
    let last = bytes.len() - BLOCK;
    let mut seen = u8x16::splat(0);
    for two in 0..bytes.len().div_ceil(2 * BLOCK) {
        seen = decode_block(digits, bytes, (2 * BLOCK * two).min(last), seen);
        seen = decode_block(digits, bytes, (2 * BLOCK * two + BLOCK).min(last), seen);
    }
    all_small(seen)
}

// By the library.
fn decode_few(digits: &[u8], bytes: &mut [u8]) -> bool
    requires { length digits.now ≡ 2 * length bytes.old }
    ensures { decoded (decode_of digits.now) ≡ (if result then Some bytes.new else None) }
{
    decode_to_slice(digits, bytes).is_ok()
}
