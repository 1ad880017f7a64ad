//! The report of a run, as text: a line for each port and each connection that the plan uses.
//!
//! - `report`: the whole of it, in room that was taken before.
//! - `report_lines`, `report_words`: its lines, with the bytes that each has at most, and the words of its states.
//! - `port_kind`: the kinds of ports that have lines.
#![tactic(auto)]

mod port_kind;
mod report;
mod report_lines;
mod report_words;

pub use report::put_report;
pub use report_lines::REPORT_BYTES;
