//! The signals that stand in place of a client (G.709 clause 16.5: ODU maintenance signals).
//!
//! - `signal`: which signals there are.
//! - `runs`: the runs of equal bytes that a signal's frames are made of.
//! - `stream`: `SignalBytes`, which gives a signal's stream piece by piece.
#![tactic(auto)]

mod runs;
mod signal;
mod stream;

pub use signal::Signal;
pub use stream::SignalBytes;
