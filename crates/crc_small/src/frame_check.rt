// The check of 32 bits: the frame check sequence of a GFP payload.

ghost use Rattle.std.specs.Prelude.{◌≡◌, ℕ, ◌+◌, ◌≤◌, ◌<◌, length, slice_index};
ghost use Rattle.crc_small.specs.LongDivision.{crc32_of};
ghost use Rattle.crc_small.specs.Steps.Folding.{after_some};

use crate::long_message::front32;
use crate::steps::{byte32, four_words32, sixteen32, word, word32};

// From so many bytes on a message is folded.
const LONG: usize = 160;

// Bytes that are taken in at once.
const BLOCK: usize = 16;

/// At place `n`, from 0, the register that 16 - `n` bytes of zeros turn into one of ones.
pub(crate) const BEFORE_ZEROS: [u32; BLOCK] = [
    0x1470_E51C,
    0x2FF0_B1AC,
    0x50DD_A75D,
    0xA530_F607,
    0xD61C_3A65,
    0x1727_635B,
    0x7535_D075,
    0xC2A1_038C,
    0xF50B_27F7,
    0x955A_6162,
    0x68B9_32F5,
    0x339F_DE2F,
    0x46AF_6449,
    0x8164_74C5,
    0x09B9_3859,
    0x9BF1_A90F,
];

/// The check of 32 bits of some bytes (G.7041 clause 6.1.2.2.1), by the generator 04C11DB7: the remainder
/// of their bits, most significant first, followed by 32 zeros, with the first 32 bits and the remainder
/// inverted.
pub fn crc32(bytes: &[u8]) -> u32
    ensures { result ≡ crc32_of bytes.now }
{
    let (mut register, mut at) = begin(bytes);
    while bytes.len() - at >= BLOCK {
        register = four_words32(
            register,
            word(bytes, at),
            word(bytes, at + 4),
            word(bytes, at + 8),
            word(bytes, at + 12),
        );
        at += BLOCK;
    }
    while bytes.len() - at >= 4 {
        register = word32(register, word(bytes, at));
        at += 4;
    }
    for byte in &bytes[at..] {
        register = byte32(register, *byte);
    }
    register ^ 0xFFFF_FFFF
}

// The register after the first bytes, and how many they are: a long message is folded, but for its end.
#[tactic(auto, unfolding(crate::specs::Steps::Folding::after_some))]
fn begin(bytes: &[u8]) -> (u32, usize)
    ensures within { result.1 ≤ length bytes.now }
    ensures register { result.0 ≡ after_some (slice_index bytes.now) 0 result.1 0xFFFFFFFF }
{
    if bytes.len() >= LONG {
        return front32(bytes);
    }
    if bytes.len() >= BLOCK {
        return lead32(bytes);
    }
    (0xFFFF_FFFF, 0)
}

// The register after the first bytes of a message that has sixteen or more, and how many they are: so many that blocks
// of sixteen are left. Zeros are taken in before them, to a block of sixteen, by a register that they make all ones.
fn lead32(bytes: &[u8]) -> (u32, usize)
    requires { 16 ≤ length bytes.now }
    ensures within { result.1 ≤ length bytes.now }
    ensures register { result.0 ≡ after_some (slice_index bytes.now) 0 result.1 0xFFFFFFFF }
{
    let few = bytes.len() % BLOCK;
    let led = behind_zeros(bytes);
    let register = sixteen32(BEFORE_ZEROS[few], &led[few..few + BLOCK]);
    (register, few)
}

// A block of zeros, and the first block of these bytes.
fn behind_zeros(bytes: &[u8]) -> [u8; 2 * BLOCK]
    requires { 16 ≤ length bytes.now }
    ensures zeros { (j : ℕ) → j < 16 → slice_index result j ≡ 0 }
    ensures bytes { (j : ℕ) → j < 16 → slice_index result (16 + j) ≡ slice_index bytes.now j }
    ensures size { length result ≡ 32 }
{
    let mut led = [0u8; 2 * BLOCK];
    led[BLOCK..].copy_from_slice(&bytes[..BLOCK]);
    led
}
