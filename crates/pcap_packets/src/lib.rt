//! Captures as client ports: a source that gives the packets of a pcap file as hex lines, and a sink that writes hex lines as
//! such a file.
//!
//! - `order`: the two byte orders of a capture's numbers.
//! - `header`, `front`: what the bytes at the front of a capture, or of its records, are.
//! - `leading`: how many digits are in front of a text.
//! - `lanes`, `decoding`: these digits, decoded where they are looked for.
//! - `making`: the record of the line in front of a text.
//! - `held`: bytes that wait in a buffer.
//! - `lines`: the lines of a capture whose bytes come piece by piece.
//! - `source`: the port that gives them.
//! - `record`: the line in hand of a sink, its record, and the records of many lines.
//! - `sink`: the port that takes lines.
//! - `laws`: either byte order gives one text, and what was written reads back.
#![tactic(auto)]

mod decoding;
mod front;
mod header;
mod held;
mod lanes;
mod laws;
mod leading;
mod lines;
mod making;
mod order;
mod record;
mod sink;
mod source;

pub use laws::{byte_order_alike, written_gives_packets, written_reads_back};
pub use sink::PcapSink;
pub use source::PcapSource;
