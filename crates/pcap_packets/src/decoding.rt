// The digits in front of a text, decoded where they are looked for.
ghost use Rattle.std.specs.Prelude.{◌≡◌, ◌<◌, ◌≤◌, length};
ghost use Rattle.pcap_packets.specs.Decoding.{Decoded};

use crate::lanes::{BLOCK, BLOCK_BYTES, decode_block};

/// Decodes the digits of lower case in front of a text into a buffer, from `at` on, and says how many they are: fewer
/// where the buffer has no room for a block of sixteen bytes more.
pub(crate) fn decode_front(text: &[u8], buffer: &mut [u8], at: usize) -> usize
    requires { at ≤ length buffer.old }
    ensures { Decoded text.now result buffer.old buffer.new at }
{
    let mut count = 0;
    while text.len() - count >= BLOCK {
        let more = decode_some(&text[count..], buffer, at + count / 2);
        count += more;
        if more < BLOCK {
            return count;
        }
    }
    count + decode_last(&text[count..], buffer, at + count / 2)
}

// The same of the first 32 bytes of a text.
#[inline(always)]
fn decode_some(text: &[u8], buffer: &mut [u8], at: usize) -> usize
    requires text { 32 ≤ length text.now }
    requires at { at ≤ length buffer.old }
    ensures bound { result ≤ 32 }
    ensures decoded { Decoded text.now result buffer.old buffer.new at }
{
    if buffer.len() - at < BLOCK_BYTES {
        return 0;
    }
    decode_block(text, buffer, at)
}

// The same of a text of fewer bytes: of a block that has zeros behind it.
fn decode_last(text: &[u8], buffer: &mut [u8], at: usize) -> usize
    requires text { length text.now < 32 }
    requires at { at ≤ length buffer.old }
    ensures { Decoded text.now result buffer.old buffer.new at }
{
    let mut block = [0; BLOCK];
    block[..text.len()].copy_from_slice(text);
    decode_some(&block, buffer, at)
}
