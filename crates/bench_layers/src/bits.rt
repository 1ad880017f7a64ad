// What GFP does with the bits of a packet: its check, and the scrambler of its area.
use crate::gfp::{mixed, packet};
use crc_small::crc32;
use gfp_scrambler::{Descrambler, Scrambler};
use otn_base::Memory;
use std::alloc::Global;

/// The CRC-32 of as many bytes, as often.
pub fn check(alloc: Global, size: u32, times: u32) -> Result<u32, Memory> {
    let mut packet = packet(alloc, size)?;
    let mut checksum = 0u32;
    for _ in 0..times {
        // Each time over other bytes, so that no pass can be left out.
        if !packet.is_empty() {
            packet[0] = (checksum & 0xFF) as u8;
        }
        checksum = checksum.wrapping_mul(31).wrapping_add(crc32(&packet));
    }
    Ok(checksum)
}

/// Scrambles as many bytes, as often.
pub fn scramble(alloc: Global, size: u32, times: u32) -> Result<u32, Memory> {
    let mut packet = packet(alloc, size)?;
    let mut scrambler = Scrambler::new();
    let mut checksum = 0u32;
    for _ in 0..times {
        scrambler.scramble(&mut packet);
        checksum = mixed(checksum, &packet);
    }
    Ok(checksum)
}

/// Descrambles as many bytes, as often.
pub fn descramble(alloc: Global, size: u32, times: u32) -> Result<u32, Memory> {
    let mut packet = packet(alloc, size)?;
    let mut descrambler = Descrambler::new();
    let mut checksum = 0u32;
    for _ in 0..times {
        descrambler.descramble(&mut packet);
        checksum = mixed(checksum, &packet);
    }
    Ok(checksum)
}
