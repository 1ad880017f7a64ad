// Payload areas of linear GFP frames (G.7041 clause 6.1.2.1.3.2).
ghost use Rattle.std.specs.Prelude.{◌≡◌, ◌+◌, ◌≤◌, ◌++◌, ◌==◌, ◌&&◌, if◌then◌else◌, option_map, length, vec_len};
ghost use Rattle.std.specs.Option.{is_some};
ghost use Rattle.std.specs.Vec.{vec_capacity};
ghost use Rattle.crc_small.specs.LongDivision.{crc32_of};
ghost use Rattle.gfp_frames.specs.Area.{pfi, exi, upi, thec_is_right, last_four};
ghost use Rattle.gfp_linear.specs.ChannelFrames.{with_check, packet_area, loss_area};
ghost use Rattle.gfp_linear.specs.ChannelArrivals.{ehec_is_right, is_linear, has_packet, has_loss, arrival_in, seen};

use crate::Arrival;
use crc_small::{crc16, crc32};
use gfp_frames::{bytes_of_16, bytes_of_32};
use otn_base::append;

/// Bytes of a type with its tHEC and of an extension header with its eHEC.
const HEADERS: usize = 8;

// The type of client data with FCS, and of a client signal fail: EXI 0001, UPI 01.
const PACKET_TYPE: [u8; 2] = [0x11, 0x01];

const LOSS_TYPE: [u8; 2] = [0x81, 0x01];

/// Puts the plain payload area of a channel's packet at the end.
#[tactic(auto, unfolding(crate::specs::ChannelFrames::packet_area))]
pub(crate) fn append_packet_area(buffer: &mut Vec<u8>, cid: u8, packet: &[u8])
    requires { vec_len buffer.old + length packet.now + 12 ≤ vec_capacity buffer.old }
    ensures items { buffer.new.items ≡ buffer.old.items ++ packet_area cid packet.now }
    ensures capacity { vec_capacity buffer.old ≤ vec_capacity buffer.new }
{
    append_checked(buffer, &PACKET_TYPE);
    append_checked(buffer, &[cid, 0]);
    append(buffer, packet);
    append(buffer, &bytes_of_32(crc32(packet)));
}

/// Puts the plain payload area of a channel's loss frame at the end.
#[tactic(auto, unfolding(crate::specs::ChannelFrames::loss_area))]
pub(crate) fn append_loss_area(buffer: &mut Vec<u8>, cid: u8)
    requires { vec_len buffer.old + 8 ≤ vec_capacity buffer.old }
    ensures items { buffer.new.items ≡ buffer.old.items ++ loss_area cid }
    ensures capacity { vec_capacity buffer.old ≤ vec_capacity buffer.new }
{
    append_checked(buffer, &LOSS_TYPE);
    append_checked(buffer, &[cid, 0]);
}

// Two bytes of a header, and their CRC-16.
fn append_checked(buffer: &mut Vec<u8>, bytes: &[u8])
    requires { vec_len buffer.old + length bytes.now + 2 ≤ vec_capacity buffer.old }
    ensures items { buffer.new.items ≡ buffer.old.items ++ with_check bytes.now }
    ensures capacity { vec_capacity buffer.old ≤ vec_capacity buffer.new }
{
    append(buffer, bytes);
    append(buffer, &bytes_of_16(crc16(bytes)));
}

/// What arrives with a plain payload area, if it passes the checks: tHEC, EXI, UPI and eHEC; of a packet PTI, at least
/// one byte, and the FCS where PFI is 1; of a loss PTI, PFI and that nothing follows the extension header.
#[tactic(auto, unfolding(crate::specs::ChannelArrivals::arrival_in))]
pub(crate) fn arrival_of(area: &[u8]) -> Option<Arrival<'_>>
    ensures { option_map seen result ≡ arrival_in area.now }
{
    if !linear(area) {
        return None;
    }
    if holds_packet(area) {
        let end = area.len() - fcs_bytes(area);
        return Some(Arrival::Packet(area[4], &area[HEADERS..end]));
    }
    if holds_loss(area) {
        return Some(Arrival::Loss(area[4]));
    }
    None
}

/// Whether something arrives with a plain payload area.
#[tactic(auto, unfolding(crate::specs::ChannelArrivals::arrival_in))]
pub(crate) fn arrives(area: &[u8]) -> bool
    ensures { result ≡ is_some (arrival_in area.now) }
{
    linear(area) && (holds_packet(area) || holds_loss(area))
}

// A type and an extension header, each with a right check; EXI 0001, UPI 01.
fn linear(area: &[u8]) -> bool
    ensures { result ≡ is_linear area.now }
{
    if area.len() < HEADERS {
        return false;
    }
    extended(area) && type_is_right(area) && extension_is_right(area)
}

// EXI 0001, UPI 01.
fn extended(area: &[u8]) -> bool
    requires { 8 ≤ length area.now }
    ensures { result ≡ (exi area.now == 1 && upi area.now == 1) }
{
    area[0] & 0xF == 1 && area[1] == 1
}

// The tHEC is that of the type.
fn type_is_right(area: &[u8]) -> bool
    requires { 8 ≤ length area.now }
    ensures { result ≡ thec_is_right area.now }
{
    crc16(&[area[0], area[1]]) == area[2] as u16 * 256 + area[3] as u16
}

// The eHEC is that of the extension header.
fn extension_is_right(area: &[u8]) -> bool
    requires { 8 ≤ length area.now }
    ensures { result ≡ ehec_is_right area.now }
{
    crc16(&[area[4], area[5]]) == area[6] as u16 * 256 + area[7] as u16
}

// Client data of at least one byte, with a right FCS where there is one.
fn holds_packet(area: &[u8]) -> bool
    requires { 8 ≤ length area.now }
    ensures { result ≡ has_packet area.now }
{
    let fcs = fcs_bytes(area);
    if area[0] >> 5 != 0 || area.len() <= HEADERS + fcs {
        return false;
    }
    fcs == 0 || ends_right(area, &area[HEADERS..area.len() - 4])
}

// A client signal fail: no FCS, and nothing behind the extension header.
fn holds_loss(area: &[u8]) -> bool
    requires { 8 ≤ length area.now }
    ensures { result ≡ has_loss area.now }
{
    area[0] >> 5 == 4 && area[0] >> 4 & 1 == 0 && area.len() == HEADERS
}

// Bytes of the FCS.
fn fcs_bytes(area: &[u8]) -> usize
    requires { 8 ≤ length area.now }
    ensures { result ≡ (if pfi area.now == 1 then 4 else 0) }
{
    if area[0] >> 4 & 1 == 1 { 4 } else { 0 }
}

// The last four bytes of the area are the FCS of the packet.
fn ends_right(area: &[u8], packet: &[u8]) -> bool
    requires { 4 ≤ length area.now }
    ensures { result ≡ (crc32_of packet.now == last_four area.now) }
{
    let end = area.len();
    let fcs = u32::from_be_bytes([area[end - 4], area[end - 3], area[end - 2], area[end - 1]]);
    crc32(packet) == fcs
}
