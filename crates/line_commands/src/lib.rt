//! The commands over one line: what they write of it, and how they end.
//!
//! - `slot`: the payload bytes of one tributary slot of a line.
//! - `frames_at_hand`: these bytes, gathered out of the bytes of frames.
//! - `pull`: what the sink of a tributary on a line emits, turn by turn.
//! - `laws`: that nothing else on a line changes what they write, and that a client's bytes come out as they went in.
#![tactic(auto)]

mod frames_at_hand;
mod laws;
mod pull;
mod slot;

pub use laws::{
    pull_of_carried, pull_of_given, pull_of_one_damaged, pull_two_worlds, slot_of_given,
    slot_two_worlds,
};
pub use pull::write_pull;
pub use slot::write_slot;
