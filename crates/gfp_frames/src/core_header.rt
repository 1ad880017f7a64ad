// Core headers (G.7041 clause 6.1.1).
ghost use Rattle.std.specs.Prelude.{◌≡◌, ◌<◌, ◌^◌, IfSome};
ghost use Rattle.gfp_frames.specs.CoreHeader.{two_bytes, four_bytes, core_header, right_pli, near_pli};

use crc_small::{crc16, fix_one_bit};

/// What a core header is XORed with on the way (G.7041 clause 6.1.1.3).
pub const PATTERN: u32 = 0xB6AB_31E0;

/// An idle frame (G.7041 clause 6.2.1): the core header with PLI 0.
pub const IDLE_FRAME: [u8; 4] = [0xB6, 0xAB, 0x31, 0xE0];

/// The two bytes of a number, the most significant first.
pub fn bytes_of_16(n: u16) -> [u8; 2]
    ensures { result ≡ two_bytes n }
{
    [(n >> 8) as u8, (n & 0xFF) as u8]
}

/// The four bytes of a number, the most significant first.
pub fn bytes_of_32(n: u32) -> [u8; 4]
    ensures { result ≡ four_bytes n }
{
    [
        (n >> 24) as u8,
        (n >> 16 & 0xFF) as u8,
        (n >> 8 & 0xFF) as u8,
        (n & 0xFF) as u8,
    ]
}

/// The core header of a frame with this PLI.
#[tactic(auto, unfolding(crate::specs::CoreHeader::core_header))]
pub fn header_bytes(pli: u16) -> [u8; 4]
    ensures { result ≡ core_header pli }
{
    let check = crc16(&bytes_of_16(pli));
    bytes_of_32((pli as u32 * 0x1_0000 + check as u32) ^ PATTERN)
}

/// The PLI of a header whose cHEC is right. The header is a number of four bytes without the pattern.
#[tactic(auto, unfolding(crate::specs::CoreHeader::right_pli))]
pub fn checked_pli(header: u32) -> Option<u16>
    ensures value { result ≡ right_pli header }
    ensures small { IfSome result (λ pli. pli < 65536) }
{
    let pli = (header >> 16) as u16;
    if crc16(&bytes_of_16(pli)) as u32 == header & 0xFFFF {
        Some(pli)
    } else {
        None
    }
}

/// The PLI of the right header that differs from this one in one bit at most.
pub fn corrected_pli(header: u32) -> Option<u16>
    ensures value { result ≡ near_pli header }
    ensures small { IfSome result (λ pli. pli < 65536) }
{
    match fix_one_bit(header) {
        Some(fixed) => Some((fixed >> 16) as u16),
        None => None,
    }
}
