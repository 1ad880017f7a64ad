//! The source of a tributary: it puts a client's bytes into the multiframes of a line (G.709 clause 19
//! and Annex D). docs/FORMATS.md, "A source's turns", says in words what it puts.
//!
//! - `source`: the source itself, by turns of one multiframe each.
//! - `message`: what it says in a turn.
//! - `backlog`: the bytes that are left, in the buffers in which the turns brought them.
//! - `rows`, `row_layer`, `lay`: the groups of the rows of a frame, out of the bytes that are left.
#![tactic(auto)]

mod backlog;
mod lay;
mod message;
mod row_layer;
mod rows;
mod source;

pub use source::TribSource;
