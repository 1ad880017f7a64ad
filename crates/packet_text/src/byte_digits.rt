// The hex digits of bytes, and a packet's line by them.
ghost use Rattle.std.specs.Prelude.{◌≡◌, ◌+◌, ◌*◌, ◌<◌, ◌≤◌, ◌++◌, length, take, drop};
ghost use Rattle.hex.specs.Hex.{encode_lower, lower_digits};
ghost use Rattle.packet_text.specs.PacketText.{packet_line};
ghost use Rattle.packet_text.specs.Steps.DigitMarks.{Put};

use crate::lanes::{BLOCK, encode_block};
use crate::writing::{end_line, put_digits};
use std::simd::u8x16;

// Bytes with each digit once, in order.
const EACH_DIGIT: [u8; 8] = [0x01, 0x23, 0x45, 0x67, 0x89, 0xab, 0xcd, 0xef];

/// The sixteen digits, in lower case, that the library `hex` writes, asked once and kept.
#[derive(Drop)]
pub struct ByteDigits {
    // By their value.
    digits: [u8; 16],
    ghost right: { digits ≡ lower_digits },
}

impl ByteDigits {
    /// Asks for all digits.
    #[tactic(auto, using(crate::proofs::ByteBlocks::each_digit))]
    pub fn new() -> ByteDigits {
        let mut digits = [0; 16];
        put_digits(&EACH_DIGIT, &mut digits);
        ByteDigits { digits }
    }

    /// Puts a packet's line at the front of the slice: its hex digits, in lower case, and LF. Says how many bytes the
    /// line has.
    pub fn put_line(&self, packet: &[u8], text: &mut [u8]) -> usize
        requires fits { length packet.now ≤ 65531 }
        requires room { 2 * length packet.now + 1 ≤ length text.old }
        ensures size { result ≡ 2 * length packet.now + 1 }
        ensures line { text.new ≡ packet_line packet.now ++ drop result text.old }
    {
        let n = 2 * packet.len();
        self.encode(packet, &mut text[..n]);
        end_line(n, text)
    }

    // Fills the slice with a packet's digits, block by block.
    #[tactic(auto, using(crate::proofs::ByteBlocks::none_put, crate::proofs::ByteBlocks::more_put))]
    fn encode(&self, packet: &[u8], digits: &mut [u8])
        requires { length digits.old ≡ 2 * length packet.now }
        ensures { digits.new ≡ encode_lower packet.now }
    {
        let table = u8x16::from_array(self.digits);
        let blocks = packet.len() / BLOCK;
        for block in 0..blocks {
            encode_block(table, packet, digits, BLOCK * block);
        }
        encode_end(table, packet, digits, BLOCK * blocks);
    }
}

// Writes the digits behind those of the first `done` bytes: by a last block, which may overlap the one before it, and
// those of a packet that has no block by the library.
fn encode_end(table: u8x16, packet: &[u8], digits: &mut [u8], done: usize)
    requires table { table ≡ lower_digits }
    requires room { length digits.old ≡ 2 * length packet.now }
    requires within { done ≤ length packet.now }
    requires few { length packet.now < done + 16 }
    requires put { Put packet.now digits.old done }
    ensures { digits.new ≡ encode_lower packet.now }
{
    if packet.len() < BLOCK {
        put_digits(packet, digits);
        return;
    }
    encode_block(table, packet, digits, packet.len() - BLOCK);
}
