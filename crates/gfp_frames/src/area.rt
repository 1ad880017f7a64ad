// Payload areas of client frames (G.7041 clause 6.1.2).
ghost use Rattle.std.specs.Prelude.{◌≡◌, ◌+◌, ◌<◌, ◌≤◌, ◌++◌, ◌==◌, option_map, take, drop, IfSome, length, vec_len};
ghost use Rattle.std.specs.Vec.{vec_capacity};
ghost use Rattle.gfp_frames.specs.CoreHeader.{two_bytes};
ghost use Rattle.gfp_frames.specs.Area.{type_bytes, client_area, is_client, pfi, last_four, packet_in};
ghost use Rattle.crc_small.specs.LongDivision.{crc16_of, crc32_of};

use crate::core_header::{bytes_of_16, bytes_of_32};
use crc_small::{crc16, crc32};
use otn_base::append;

/// Puts the plain payload area of a packet at the end.
#[tactic(auto, unfolding(crate::specs::Area::client_area))]
pub fn append_client_area(buffer: &mut Vec<u8>, packet: &[u8], fcs: bool)
    requires { vec_len buffer.old + length packet.now + 8 ≤ vec_capacity buffer.old }
    ensures items { buffer.new.items ≡ buffer.old.items ++ client_area packet.now fcs }
    ensures capacity { vec_capacity buffer.old ≤ vec_capacity buffer.new }
{
    append_type(buffer, fcs);
    append(buffer, packet);
    if fcs {
        append(buffer, &bytes_of_32(crc32(packet)));
    }
}

// The two type bytes and their tHEC: PTI 000 and EXI 0000, with PFI, and UPI 01.
fn append_type(buffer: &mut Vec<u8>, fcs: bool)
    requires { vec_len buffer.old + 4 ≤ vec_capacity buffer.old }
    ensures items { buffer.new.items ≡ buffer.old.items ++ (type_bytes fcs ++ two_bytes (crc16_of (type_bytes fcs))) }
    ensures capacity { vec_capacity buffer.old ≤ vec_capacity buffer.new }
{
    let kind = [if fcs { 0x10u8 } else { 0x00 }, 0x01];
    append(buffer, &kind);
    append(buffer, &bytes_of_16(crc16(&kind)));
}

/// The size of the packet that stands after the first four bytes of a plain area, if the area passes
/// the checks of delivery: PTI, EXI, UPI, tHEC, at least one byte, and the FCS where PFI is 1.
#[tactic(auto, unfolding(crate::specs::Area::packet_in))]
pub fn packet_size(area: &[u8]) -> Option<usize>
    requires { 4 ≤ length area.now }
    ensures packet { packet_in area.now ≡ option_map (λ n. take n (drop 4 area.now)) result }
    ensures some { IfSome result (λ n. 1 ≤ n) }
    ensures within { IfSome result (λ n. n + 4 ≤ length area.now) }
{
    let fcs = has_fcs(area);
    let end = area.len() - if fcs { 4 } else { 0 };
    if !carries_client(area) || end <= 4 {
        return None;
    }
    if fcs && !ends_right(area, &area[4..end]) {
        return None;
    }
    Some(end - 4)
}

// PTI 000, EXI 0000, UPI 01 and a right tHEC.
fn carries_client(area: &[u8]) -> bool
    requires { 4 ≤ length area.now }
    ensures { result ≡ is_client area.now }
{
    area[0] >> 5 == 0
        && area[0] & 0xF == 0
        && area[1] == 1
        && crc16(&[area[0], area[1]]) == area[2] as u16 * 256 + area[3] as u16
}

// PFI is 1.
fn has_fcs(area: &[u8]) -> bool
    requires { 4 ≤ length area.now }
    ensures { result ≡ (pfi area.now == 1) }
{
    area[0] >> 4 & 1 == 1
}

// The last four bytes of the area are the FCS of the packet.
fn ends_right(area: &[u8], packet: &[u8]) -> bool
    requires { 4 ≤ length area.now }
    ensures { result ≡ (crc32_of packet.now == last_four area.now) }
{
    let end = area.len();
    let fcs = u32::from_be_bytes([area[end - 4], area[end - 3], area[end - 2], area[end - 1]]);
    crc32(packet) == fcs
}
