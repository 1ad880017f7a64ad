//! Packets as text: lines of hex digits, read from a place and written to one.
//!
//! - `packet_lines`: the packets of a text, one after another; `line`: what it answers.
//! - `cutter`: a text is cut into lines; `block`: the bytes that were read last; `line_feed`: the end of a line;
//!   `found`: what a line turned out to be.
//! - `digits`, `pairs`, `lanes`: bytes out of hex digits: of a line, of pairs, of sixteen at a time.
//! - `writing`: a packet's line; `byte_digits`: hex digits out of bytes; `laws`: laws of these texts.
#![tactic(auto)]

mod block;
mod byte_digits;
mod cutter;
mod digits;
mod found;
mod lanes;
mod laws;
mod line;
mod line_feed;
mod packet_lines;
mod pairs;
mod writing;

pub use byte_digits::ByteDigits;
pub use laws::{given_is_among, written_reads_back};
pub use line::Line;
pub use packet_lines::PacketLines;
pub use pairs::decode_digits;
pub use writing::write_packet;
