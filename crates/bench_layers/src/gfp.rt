// GFP: packets into frames, and packets out of them.
use gfp_frames::{GfpMaker, GfpReader};
use otn_base::Memory;
use otn_base::limits::MOST_PACKET;
use std::alloc::Global;

// Bytes of a frame beside its packet: core header, type, tHEC and FCS.
const AROUND: usize = 12;

// A maker that has made this idle frame, a packet for it, and room for the packet's frame with FCS.
#[derive(Drop)]
struct Making {
    maker: GfpMaker,
    idle: [u8; 4],
    packet: Vec<u8>,
    frame: Vec<u8>,
}

impl Making {
    // Of a packet of this size.
    fn new(alloc: Global, size: u32) -> Result<Making, Memory> {
        let mut maker = GfpMaker::new(alloc)?;
        let mut idle = [0u8; 4];
        give(&mut maker, &mut idle);
        let packet = packet(alloc, size)?;
        let mut frame = Vec::new(alloc);
        frame.resize(packet.len().min(MOST_PACKET) + AROUND, 0u8)?;
        Ok(Making {
            maker,
            idle,
            packet,
            frame,
        })
    }
}

/// Makes as many frames with FCS, of a packet of this size.
pub fn make(alloc: Global, size: u32, times: u32) -> Result<u32, Memory> {
    let mut making = Making::new(alloc, size)?;
    let mut checksum = 0u32;
    for _ in 0..times {
        offer(&mut making.maker, &making.packet);
        give(&mut making.maker, &mut making.frame);
        checksum = mixed(checksum, &making.frame);
    }
    Ok(checksum)
}

/// Fills as many bytes as often with idle frames.
pub fn make_idle(alloc: Global, size: u32, times: u32) -> Result<u32, Memory> {
    let mut stream = packet(alloc, size)?;
    let mut maker = GfpMaker::new(alloc)?;
    let mut checksum = 0u32;
    for _ in 0..times {
        give(&mut maker, &mut stream);
        checksum = mixed(checksum, &stream);
    }
    Ok(checksum)
}

/// Reads a stream of as many bytes of idle frames, as often.
pub fn read_idle(alloc: Global, size: u32, times: u32) -> Result<u32, Memory> {
    let mut stream = packet(alloc, size)?;
    let mut maker = GfpMaker::new(alloc)?;
    give(&mut maker, &mut stream);
    read_often(alloc, &stream, times)
}

/// Reads as many bytes in which no frame is found, as often.
pub fn hunt(alloc: Global, size: u32, times: u32) -> Result<u32, Memory> {
    let stream = packet(alloc, size)?;
    read_often(alloc, &stream, times)
}

/// Makes frames as [`make`] does, byte by byte.
pub fn make_bytes(alloc: Global, size: u32, times: u32) -> Result<u32, Memory> {
    let mut making = Making::new(alloc, size)?;
    let mut checksum = 0u32;
    for _ in 0..times {
        offer(&mut making.maker, &making.packet);
        for byte in making.frame.iter_mut() {
            *byte = making.maker.next_byte();
        }
        checksum = mixed(checksum, &making.frame);
    }
    Ok(checksum)
}

/// Reads the frames of 16 packets of this size with FCS, as often.
pub fn read(alloc: Global, size: u32, times: u32) -> Result<u32, Memory> {
    let stream = sixteen(alloc, size)?;
    read_often(alloc, &stream, times)
}

/// Reads frames as [`read`] does, byte by byte.
pub fn read_bytes(alloc: Global, size: u32, times: u32) -> Result<u32, Memory> {
    let stream = sixteen(alloc, size)?;
    let mut reader = GfpReader::new(alloc)?;
    let mut checksum = 0u32;
    for _ in 0..times {
        reader.restart();
        for byte in &stream {
            if let Some(packet) = reader.take(*byte) {
                checksum = mixed(checksum, packet);
            }
        }
    }
    Ok(checksum)
}

// Reads a stream so often, each time from its beginning.
fn read_often(alloc: Global, stream: &[u8], times: u32) -> Result<u32, Memory> {
    let mut reader = GfpReader::new(alloc)?;
    let mut checksum = 0u32;
    for _ in 0..times {
        reader.restart();
        checksum = take(&mut reader, stream, checksum);
    }
    Ok(checksum)
}

// An idle frame, and the frames of 16 packets of this size with FCS.
fn sixteen(alloc: Global, size: u32) -> Result<Vec<u8>, Memory> {
    let mut making = Making::new(alloc, size)?;
    let mut stream = Vec::new(alloc);
    stream.extend_from_slice(&making.idle)?;
    for _ in 0..16u32 {
        offer(&mut making.maker, &making.packet);
        give(&mut making.maker, &mut making.frame);
        stream.extend_from_slice(&making.frame)?;
    }
    Ok(stream)
}

// A packet of 1 to 65,527 bytes.
pub(crate) fn packet(alloc: Global, size: u32) -> Result<Vec<u8>, Memory> {
    let mut packet = Vec::new(alloc);
    for n in 0..size.min(65_527).max(1) {
        packet.push((n % 251) as u8)?;
    }
    Ok(packet)
}

fn offer(maker: &mut GfpMaker, packet: &[u8]) {
    if maker.idle() && !packet.is_empty() && packet.len() <= MOST_PACKET {
        maker.offer(packet, true);
    }
}

fn give(maker: &mut GfpMaker, bytes: &mut [u8]) {
    maker.fill(bytes);
}

// The checksum after the packets that these bytes deliver.
fn take(reader: &mut GfpReader, bytes: &[u8], checksum: u32) -> u32 {
    let mut mix = checksum;
    let mut rest = bytes;
    for _ in 0..bytes.len() {
        let (count, packet) = reader.take_some(rest);
        if let Some(packet) = packet {
            mix = mixed(mix, packet);
        }
        rest = &rest[count..];
        if rest.is_empty() {
            break;
        }
    }
    mix
}

// A checksum that looks at the last byte.
pub(crate) fn mixed(checksum: u32, bytes: &[u8]) -> u32 {
    let last = bytes.last().copied().unwrap_or(0);
    checksum.wrapping_mul(31).wrapping_add(last as u32)
}
