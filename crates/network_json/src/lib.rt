//! What is told of a network, as JSON for other programs: its nodes, its fibres, each customer's way, what does not
//! meet, and whether all does.
//!
//! - `ends`: lines, clients and signals.
//! - `lists`: a value more in a list.
//! - `entries`: an entry of a plan.
//! - `places`: nodes and fibres.
//! - `ways`: the ways.
//! - `troubles`: what is amiss.
//! - `whole`: the whole value, and how it is written.
#![tactic(auto)]

mod ends;
mod entries;
mod lists;
mod places;
mod troubles;
mod ways;
mod whole;

pub use whole::{network_value, write_network_json};
