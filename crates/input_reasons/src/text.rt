// What stands in a packet text.
use crate::Packets;
use otn_base::Memory;
use packet_text::{Line, PacketLines};
use port_base::{InPlaceOf, Source};
use std::alloc::Global;

/// What stands in a packet text.
#[derive(Clone, Copy, Debug, PartialEq, Eq)]
pub struct TextLook {
    /// The packets that are read of it.
    pub packets: Packets,
    /// How it ends.
    pub end: TextEnd,
}

/// How the reading of a packet text ends.
#[derive(Clone, Copy, Debug, PartialEq, Eq)]
pub enum TextEnd {
    /// With its last line.
    Whole,
    /// At this line, from 1, which is no packet.
    Bad(u64),
    /// A read failed.
    Failed,
}

/// Reads the packets of a text, as a run does, and says what they are.
pub fn look_at_text<S: Source>(alloc: Global, source: S) -> Result<TextLook, Memory> {
    let mut lines = PacketLines::new(alloc)?;
    let mut place = InPlaceOf::Live(source, 0);
    let mut packets = Packets::none();
    for _ in 0..u64::MAX {
        match lines.take(&mut place) {
            Line::Packet => packets.add(lines.packet().len() as u64),
            last => return Ok(look_with(packets, last)),
        }
    }
    Ok(look_with(packets, Line::Lost))
}

fn look_with(packets: Packets, last: Line) -> TextLook {
    let end = match last {
        Line::Bad(line) => TextEnd::Bad(line),
        Line::Lost => TextEnd::Failed,
        _ => TextEnd::Whole,
    };
    TextLook { packets, end }
}
