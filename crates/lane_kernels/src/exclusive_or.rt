// Sums of all bytes by exclusive or, and masks.
ghost use Rattle.std.specs.Prelude.{◌≡◌, ℕ, ◌<◌, bit_xor, fold, length, slice_index};
ghost use Rattle.std.specs.Prelude.{◌+◌, ◌*◌, ◌≤◌};

use std::simd::u8x64;

/// The exclusive or of all bytes, bit by bit (BIP-8: G.709 clause 15.3).
pub fn parity(bytes: &[u8]) -> u8
    ensures { result ≡ fold bit_xor 0 bytes.now }
{
    let blocks = bytes.len() / 64;
    let mut lanes = u8x64::splat(0);
    for block in 0..blocks {
        lanes = lanes ^ u8x64::from_slice(&bytes[64 * block..]);
    }
    parity_from(lanes.reduce_xor(), &bytes[64 * blocks..])
}

// The exclusive or of a byte and all of these.
fn parity_from(start: u8, bytes: &[u8]) -> u8
    ensures { result ≡ fold bit_xor start bytes.now }
{
    bytes.iter().fold(start, |all, byte| all ^ *byte)
}

/// Writes over each byte its exclusive or with the byte of the mask at the same place.
pub fn xor_mask(bytes: &mut [u8], mask: &[u8])
    requires { length mask.now ≡ length bytes.old }
    ensures { (i : ℕ) → i < length bytes.old
        → slice_index bytes.new i ≡ bit_xor (slice_index bytes.old i) (slice_index mask.now i) }
{
    for (i, byte) in bytes.iter_mut().enumerate() {
        *byte ^= mask[i];
    }
}
