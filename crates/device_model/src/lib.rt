//! What a device shows and carries, and what a run of it leaves, over the definitions of its layers: definitions that
//! the node and the top call cite, and first laws about them, each the contract of a function.
//!
//! - `line_views`: what the turns of a line show of a tributary, and what a sink on it emits.
//! - `made`: what the file of an output line shows of the connections that go to it.
//! - `numbers`: the numbers of a run, as they are handed over to its report.
//! - `outcome`: how a run ends, and what the from end of a connection is.
//! - `plans`: what is promised of a plan that breaks no rule.
#![tactic(auto)]

mod line_views;
mod made;
mod numbers;
mod outcome;
mod plans;

pub use line_views::{same_views, whole_views};
pub use made::made_files;
pub use numbers::{ClientInCounts, ClientOutCounts, RunNumbers};
pub use outcome::{FromState, Outcome};
pub use plans::accepted_plans;
