// The bytes at the front of a capture's records.
ghost use Rattle.std.specs.Prelude.{◌≡◌, ◌≤◌, ◌-◌, nat_le, length};
ghost use Rattle.pcap_packets.specs.CaptureText.{captured};
ghost use Rattle.pcap_packets.specs.Steps.Captures.{IsFront};

use crate::order::{ByteOrder, number_at};

/// Bytes of a record in front of its packet.
pub(crate) const RECORD_HEADER: usize = 16;

// Bytes of a packet at most.
const MOST_PACKET: usize = 65_527;

/// What they are.
#[derive(Clone, Copy)]
pub(crate) enum Front {
    /// No whole record, and what is there may become one.
    Waits,
    /// A whole record, whose packet has so many bytes.
    Whole(usize),
    /// A record that tells of more bytes than a packet may have.
    Bad,
}

/// Judges the bytes at the front.
pub(crate) fn front_of(order: ByteOrder, bytes: &[u8]) -> Front
    ensures { IsFront order bytes.now result }
{
    if bytes.len() < RECORD_HEADER {
        return Front::Waits;
    }
    let size = captured_bytes(order, bytes);
    if size > MOST_PACKET {
        return Front::Bad;
    }
    if !has_packet(bytes, size) {
        return Front::Waits;
    }
    Front::Whole(size)
}

// How many bytes of its packet the record at the front has.
fn captured_bytes(order: ByteOrder, bytes: &[u8]) -> usize
    requires { 16 ≤ length bytes.now }
    ensures { result ≡ captured order bytes.now }
{
    number_at(order, bytes, 8) as usize
}

// Whether so many bytes of a packet are behind the header of the record.
fn has_packet(bytes: &[u8], size: usize) -> bool
    requires { 16 ≤ length bytes.now }
    ensures { result ≡ nat_le size (length bytes.now - 16) }
{
    bytes.len() - RECORD_HEADER >= size
}
