//! The law of the events of a view: its text has lines, and what a sink of events writes of it is the events of these.
//!
//! - `laws`: what is proved of them.
#![tactic(auto)]

mod laws;

pub use laws::what_events_say;
