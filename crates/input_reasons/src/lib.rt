//! What stands in the files of the inputs, in words: how much, and why one is none.
//!
//! - `packets`: how many packets there are, and how many client frames they need.
//! - `text`, `bad_line`: packet texts, and why a line is no packet.
//! - `capture`: captures, and why one is none.
//! - `line`: lines, and whether one looks like a line.
//!
//! It proves that all this is safe and ends, how many client frames packets need, and which counts of frames make a
//! file no line. That the words are right, and the counts those of the file, is tested.
#![tactic(auto)]

mod bad_line;
mod capture;
mod line;
mod packets;
mod text;

pub use bad_line::reason_of_line;
pub use capture::{CaptureLook, look_at_capture};
pub use line::{LineLook, look_at_line};
pub use packets::Packets;
pub use text::{TextEnd, TextLook, look_at_text};
