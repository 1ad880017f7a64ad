//! The sink of a tributary: it takes a client's bytes out of the multiframes of a line (G.709 clause 19
//! and Annex D). docs/FORMATS.md, "A sink's turns", says in words what it emits.
//!
//! - `sink`: the sink itself, by turns of as many frames as the line has slots.
//! - `turn`, `hear`, `said`, `watching`, `arrivals`: what a turn says to it: its message and its MSI bytes.
//! - `follower`: how it goes on from turn to turn, without totals.
//! - `payload`, `extract`: the bytes of the data groups, from the columns of a row into a buffer.
#![tactic(auto)]

mod arrivals;
mod extract;
mod follower;
mod hear;
mod payload;
mod said;
mod sink;
mod turn;
mod watching;

pub use sink::TribSink;
pub use tributary_model::SinkState;
