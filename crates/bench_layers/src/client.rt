// Client frames: packets as text into frames, and frames found in bytes.
ghost use Rattle.std.specs.Prelude.{◌≤◌};

use crate::gfp::mixed;
use odu_client::{Aligned, ClientAligner, ClientFramer};
use otn_base::limits::{CLIENT_FRAME_BYTES, CLIENT_PAYLOAD_BYTES, MOST_PACKET};
use otn_base::{Memory, Trace};
use packet_text::PacketLines;
use port_base::{InPlaceOf, MemSource};
use std::alloc::Global;

// Packets of a text, and frames of a stream in which no packet stands.
const PACKETS: usize = 16;

// Bytes of a GFP frame beside its packet, with FCS.
const AROUND: usize = 12;

/// Makes the client frames of a text of 16 packets of this size with FCS, as often.
pub fn frame(alloc: Global, size: u32, times: u32) -> Result<u32, Memory> {
    let size = (size as usize).min(MOST_PACKET).max(1);
    let mut bytes = zeros(alloc, frames_of(size) * CLIENT_FRAME_BYTES)?;
    let mut framer = ClientFramer::new(alloc)?;
    let mut lines = PacketLines::new(alloc)?;
    let Some(trace) = Trace::new(&[]) else {
        return Ok(0);
    };
    let mut checksum = 0u32;
    for _ in 0..times {
        framer.restart(&trace, true);
        lines.restart();
        let mut place = InPlaceOf::Live(MemSource::new(text(alloc, size)?), 0);
        framer.fill(&mut lines, &mut place, &mut bytes);
        checksum = mixed(checksum, &bytes);
    }
    Ok(checksum)
}

/// Finds 16 client frames in their bytes, as often.
pub fn align(alloc: Global, times: u32) -> Result<u32, Memory> {
    let mut bytes = zeros(alloc, PACKETS * CLIENT_FRAME_BYTES)?;
    let mut framer = ClientFramer::new(alloc)?;
    let mut lines = PacketLines::new(alloc)?;
    let mut nothing: InPlaceOf<MemSource> = InPlaceOf::Empty;
    framer.fill(&mut lines, &mut nothing, &mut bytes);
    let mut aligner = ClientAligner::new(alloc)?;
    let mut checksum = 0u32;
    for _ in 0..times {
        aligner.restart();
        checksum = find(&mut aligner, &bytes, checksum);
    }
    Ok(checksum)
}

// How many client frames the GFP frames of the packets fill.
fn frames_of(size: usize) -> usize
    ensures { result ≤ 100 }
{
    (PACKETS * (size.min(MOST_PACKET) + AROUND) + 4) / CLIENT_PAYLOAD_BYTES + 1
}

// The text of 16 packets of this size.
fn text(alloc: Global, size: usize) -> Result<Vec<u8>, Memory> {
    let mut text = Vec::new(alloc);
    for _ in 0..PACKETS {
        let end = text.len().saturating_add(size).saturating_add(size);
        text.resize(end, b'7')?;
        text.push(b'\n')?;
    }
    Ok(text)
}

fn zeros(alloc: Global, n: usize) -> Result<Vec<u8>, Memory> {
    Ok(vec![in alloc; 0u8; n]?)
}

// The checksum after the frames that are found in these bytes.
fn find(aligner: &mut ClientAligner, bytes: &[u8], checksum: u32) -> u32 {
    let mut mix = checksum;
    let mut rest = bytes;
    for _ in 0..bytes.len() {
        let (aligned, count) = aligner.take_some(rest);
        if aligned == Aligned::Whole {
            mix = mixed(mix, aligner.frame().as_bytes());
        }
        rest = &rest[count..];
        if rest.is_empty() {
            break;
        }
    }
    mix
}
