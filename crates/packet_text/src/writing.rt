// A packet's line.
ghost use Rattle.std.specs.Prelude.{◌≡◌, ◌≢◌, ◌+◌, ◌*◌, ◌<◌, ◌≤◌, ◌∷◌, ◌++◌, [], length, take, drop};
ghost use Rattle.hex.specs.Hex.{encode_lower};
ghost use Rattle.port_base.specs.OutPlace.{out_view};
ghost use Rattle.port_base.specs.Views.{Live};
ghost use Rattle.port_base.specs.Writes.{Writes, state_after_write};
ghost use Rattle.packet_text.specs.PacketText.{packet_line};

use hex::encode_to_slice;
use port_base::{OutPlaceOf, Sink, Written};

const LF: u8 = b'\n';

/// Writes a packet of 1 to 65,531 bytes as one line: its hex digits, in lower case, and LF. The line is made in the
/// scratch slice and leaves in one whole write. Lost comes where the place died in it; a place that is not live takes
/// nothing, and the answer is Whole.
pub fn write_packet<K: Sink>(place: &mut OutPlaceOf<K>, packet: &[u8], text: &mut [u8]) -> Written
    requires some { 1 ≤ length packet.now }
    requires fits { length packet.now ≤ 65531 }
    requires room { 2 * length packet.now + 1 ≤ length text.old }
    ensures state { (out_view K.Sink place.new).state ≡ state_after_write (out_view K.Sink place.old).state result }
    ensures live { (out_view K.Sink place.old).state ≡ Live
        → Writes result (out_view K.Sink place.old) (packet_line packet.now) (out_view K.Sink place.new) }
    ensures idle { (out_view K.Sink place.old).state ≢ Live → (place.new ≡ place.old) × (result ≡ Written.Whole) }
{
    let n = put_line(packet, text);
    place.write_all(&text[..n])
}

// Puts a packet's line at the front of the slice, and says how many bytes it has.
fn put_line(packet: &[u8], text: &mut [u8]) -> usize
    requires fits { length packet.now ≤ 65531 }
    requires room { 2 * length packet.now + 1 ≤ length text.old }
    ensures size { result ≡ 2 * length packet.now + 1 }
    ensures line { text.new ≡ packet_line packet.now ++ drop result text.old }
{
    let n = 2 * packet.len();
    put_digits(packet, &mut text[..n]);
    end_line(n, text)
}

/// Fills the slice with a packet's digits.
pub(crate) fn put_digits(packet: &[u8], digits: &mut [u8])
    requires { length digits.old ≡ 2 * length packet.now }
    ensures { digits.new ≡ encode_lower packet.now }
{
    match encode_to_slice(packet, digits) {
        Ok(()) => {}
        Err(_) => unreachable!(),
    }
}

/// Puts LF behind a line's digits, and says how many bytes the line has.
pub(crate) fn end_line(digits: usize, text: &mut [u8]) -> usize
    requires { digits < length text.old }
    ensures size { result ≡ digits + 1 }
    ensures line { text.new ≡ take digits text.old ++ 10 ∷ drop result text.old }
{
    text[digits] = LF;
    digits + 1
}
