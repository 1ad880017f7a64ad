//! The moments of a node: where a node and its bays stand after some pieces of each port. Each move leads from one
//! moment to the next. Definitions, and laws about them, that the node's own contracts cite.
//!
//! - `build`: the parts of a node before turn 1 of a plan.
#![tactic(auto)]

mod build;

pub use build::{new_lines_in, new_lines_out, new_links};
