//! Ports in memory between which and their user bytes pass while a device goes on: a source that is filled later, and a
//! sink whose bytes are taken out and let go of.
//!
//! - `source`: `FilledSource`, to which bytes are handed in.
//! - `sink`: `FilledSink`, which tells all bytes that it ever got, and keeps those of late alone.
#![tactic(auto)]

mod sink;
mod source;

pub use sink::FilledSink;
pub use source::{FilledSource, Handed};
