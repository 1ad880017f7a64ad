//! A tributary of a line, turn by turn.
//!
//! - `tap`: `Tap`, which takes it from an OTU2 line: a sink that sees the turns of the line.
//! - `feed`: `Feed`, which puts it on one: a source that fills the frames of the line.
//! - `walking`: `Walker` and `walk`, the turns of a command along a line of any form, and how it ends.
//! - `settling`: how a command over such lines ended.
//! - `laws`: what the file of such a line carries.
#![tactic(auto)]

mod feed;
mod laws;
mod settling;
mod tap;
#[cfg(test)]
mod tests;
mod walking;

pub use feed::Feed;
pub use laws::what_is_fed;
pub use port_base::{is_dead_in, is_dead_out};
pub use settling::{either, ended_by};
pub use tap::Tap;
pub use walking::{After, Walker, after_turn, end_walk, walk};
