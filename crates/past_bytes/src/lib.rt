//! Bytes that went by, of which only proofs know. They take no memory, and nothing of them runs.
#![tactic(auto)]

mod past;

pub use past::{Past, Taken};
