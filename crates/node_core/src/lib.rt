//! A node: a state machine that carries a plan, stepped port by port in any order, settled at the end, and asked for
//! the numbers of its report.
//!
//! - `node`: the node; `runs`: a whole run of it, in an order that a chooser says.
//! - `settle`: the end of a run; `reads`: what a node tells of its ports and its connections; `tally`: all of it
//!   together, as the numbers of a run for its report.
#![tactic(auto)]

mod node;
mod reads;
mod runs;
mod settle;
mod tally;

pub use device_model::{ClientInCounts, ClientOutCounts, FromState, Outcome, RunNumbers};
pub use node::Node;
pub use runs::{carry, carry_node};
pub use turn_pieces::uses;
