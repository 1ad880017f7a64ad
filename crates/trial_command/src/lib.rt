//! The command `trial`: packets of eight clients, through four runs in a row.
//!
//! - `trial`: the command.
//! - `carried`: its four runs; `places`: the places of each, in memory.
//! - `lines`: the lines of its report.
#![tactic(auto)]

mod carried;
mod lines;
mod places;
mod trial;

pub use trial::{run_trial, status_of_trial};
