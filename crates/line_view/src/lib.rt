//! A line and the tributaries on it, turn by turn, as lines of words and numbers.
//!
//! - `viewing`: the view of a line, written to a sink.
//! - `shown`: a tributary that the view is to show.
//! - `msi`: the MSI bytes of a turn.
//! - `watched`: its sink on the line, and `told` what a turn says of the line and of it.
//! - `turns`: the turns of the line with the sinks on it.
//! - `lines`, `words`: the lines of the text and their words.
//! - `laws`: what is proved of views.
#![tactic(auto)]

mod laws;
mod lines;
mod msi;
mod shown;
mod told;
mod turns;
mod viewing;
mod watched;
mod words;

pub use laws::what_is_told;
pub use lines::{LINE_BYTES, put_number, put_slots};
pub use shown::{NAME_BYTES, Shown};
pub use told::{Told, TurnCounts, TurnSeen};
pub use viewing::write_view;
