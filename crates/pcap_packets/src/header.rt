// The header of a capture.
ghost use Rattle.std.specs.Prelude.{◌≡◌, ◌≤◌, length};
ghost use Rattle.pcap_packets.specs.CaptureText.{is_header, header_order};

use crate::order::{ByteOrder, half_at, number_at};

/// Bytes of a capture's header.
pub(crate) const FILE_HEADER: usize = 24;

// The magic: times in microseconds, and in nanoseconds.
const MICROSECONDS: u32 = 0xa1b2_c3d4;

const NANOSECONDS: u32 = 0xa1b2_3c4d;

// The link type of Ethernet.
const ETHERNET: u32 = 1;

/// The byte order that the header at the front has. None where it is no header of a classic capture of Ethernet
/// packets.
pub(crate) fn order_of(bytes: &[u8]) -> Option<ByteOrder>
    requires { 24 ≤ length bytes.now }
    ensures { result ≡ header_order bytes.now }
{
    if has_header(ByteOrder::HighFirst, bytes) {
        Some(ByteOrder::HighFirst)
    } else if has_header(ByteOrder::LowFirst, bytes) {
        Some(ByteOrder::LowFirst)
    } else {
        None
    }
}

// Whether a header of this byte order is at the front.
#[tactic(auto, unfolding(crate::specs::CaptureText::is_header))]
fn has_header(order: ByteOrder, bytes: &[u8]) -> bool
    requires { 24 ≤ length bytes.now }
    ensures { result ≡ is_header order bytes.now }
{
    let magic = number_at(order, bytes, 0);
    (magic == MICROSECONDS || magic == NANOSECONDS)
        && half_at(order, bytes, 4) == 2
        && half_at(order, bytes, 6) == 4
        && number_at(order, bytes, 20) % 65536 == ETHERNET
}
