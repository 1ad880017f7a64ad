//! Multiframe alignment of a line by its MFAS bytes: `Phase` hunts or is locked, and `starts` says where a
//! multiframe may begin.
#![tactic(auto)]

mod phase;

pub use phase::{Phase, starts};
