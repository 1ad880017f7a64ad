// What some bytes do to a register: look-ups in tables.

ghost use Rattle.std.specs.Prelude.{◌≡◌, ◌+◌, ◌/◌, ◌%◌, ◌^◌, ◌≤◌, length, slice_index};
ghost use Rattle.crc_small.specs.Steps.Folding.{after_some};
ghost use Rattle.crc_small.specs.Steps.Shifted.{after_byte, after_word};
ghost use Rattle.crc_small.specs.Steps.LookUp.{looked_up};

use crate::frame_tables::FRAME_STEPS;
use crate::tables::HEADER_STEPS;

/// The register of the check of 16 bits after one byte more.
#[inline]
pub(crate) fn byte16(register: u16, byte: u8) -> u16
    ensures { result ≡ after_byte 15 0x11021 register byte }
{
    let top = (register >> 8) as u8 ^ byte;
    HEADER_STEPS[top as usize] ^ (register << 8)
}

/// The register of the check of 32 bits after one byte more.
#[inline]
pub(crate) fn byte32(register: u32, byte: u8) -> u32
    ensures { result ≡ after_byte 31 0x104C11DB7 register byte }
{
    let top = (register >> 24) as u8 ^ byte;
    FRAME_STEPS[0][top as usize] ^ (register << 8)
}

/// The register of the check of 32 bits after four bytes more, by four look-ups that do not wait for one another.
/// A word has its first byte the most significant one.
#[inline]
pub(crate) fn word32(register: u32, word: u32) -> u32
    ensures { result ≡ after_word 31 0x104C11DB7 register word }
{
    look_up(
        register ^ word,
        &FRAME_STEPS[3],
        &FRAME_STEPS[2],
        &FRAME_STEPS[1],
        &FRAME_STEPS[0],
    )
}

/// The register of the check of 32 bits after sixteen bytes more, by sixteen look-ups that do not wait for one
/// another. Those that wait for the register stand last, and so are added last: the other twelve, of the next
/// sixteen bytes too, go on beside them.
#[inline]
pub(crate) fn four_words32(register: u32, first: u32, second: u32, third: u32, fourth: u32) -> u32
    ensures { let after = after_word 31 0x104C11DB7 in result
        ≡ after (after (after (after register first) second) third) fourth }
{
    let two = look_up(
        second,
        &FRAME_STEPS[11],
        &FRAME_STEPS[10],
        &FRAME_STEPS[9],
        &FRAME_STEPS[8],
    );
    let three = look_up(
        third,
        &FRAME_STEPS[7],
        &FRAME_STEPS[6],
        &FRAME_STEPS[5],
        &FRAME_STEPS[4],
    );
    let four = look_up(
        fourth,
        &FRAME_STEPS[3],
        &FRAME_STEPS[2],
        &FRAME_STEPS[1],
        &FRAME_STEPS[0],
    );
    let one = look_up(
        register ^ first,
        &FRAME_STEPS[15],
        &FRAME_STEPS[14],
        &FRAME_STEPS[13],
        &FRAME_STEPS[12],
    );
    one ^ two ^ three ^ four
}

/// What four tables have for the four bytes of a word, added up.
#[inline]
fn look_up(
    word: u32,
    four: &[u32; 256],
    three: &[u32; 256],
    two: &[u32; 256],
    one: &[u32; 256],
) -> u32
    ensures { result ≡ looked_up four.now three.now two.now one.now word }
{
    four[(word >> 24) as usize]
        ^ three[(word >> 16 & 0xFF) as usize]
        ^ two[(word >> 8 & 0xFF) as usize]
        ^ one[(word & 0xFF) as usize]
}

/// The register of the check of 32 bits after these sixteen bytes.
#[inline]
pub(crate) fn sixteen32(register: u32, bytes: &[u8]) -> u32
    requires { length bytes.now ≡ 16 }
    ensures { result ≡ after_some (slice_index bytes.now) 0 16 register }
{
    four_words32(
        register,
        word(bytes, 0),
        word(bytes, 4),
        word(bytes, 8),
        word(bytes, 12),
    )
}

/// The four bytes from this place on, the first of them the most significant one.
#[inline]
pub(crate) fn word(bytes: &[u8], at: usize) -> u32
    requires { at + 4 ≤ length bytes.now }
    ensures first { result / 2 ^ 24 ≡ slice_index bytes.now at }
    ensures second { result / 2 ^ 16 % 2 ^ 8 ≡ slice_index bytes.now (at + 1) }
    ensures third { result / 2 ^ 8 % 2 ^ 8 ≡ slice_index bytes.now (at + 2) }
    ensures fourth { result % 2 ^ 8 ≡ slice_index bytes.now (at + 3) }
{
    u32::from_be_bytes([bytes[at], bytes[at + 1], bytes[at + 2], bytes[at + 3]])
}
