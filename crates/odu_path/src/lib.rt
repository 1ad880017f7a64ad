//! The overhead of an ODU path: path monitoring (G.709 clause 15.8), in the frames of a line and of a client.
//!
//! - `writer`: `PathWriter`, which writes it.
//! - `check`: `PathCheck`, which counts the frames with a wrong PM parity, and `stat`.
#![tactic(auto)]

mod check;
mod writer;

pub use check::{PathCheck, stat};
pub use writer::PathWriter;
