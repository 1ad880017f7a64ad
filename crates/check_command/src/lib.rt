//! The plan of a command, and the command `check`.
//!
//! - `plan_text`: the plan, read of its source.
//! - `check`: whether it is one, and how large.
//! - `laws`: what `check` answers, by the whole text of a source that tells it.
#![tactic(auto)]

mod check;
mod laws;
mod plan_text;

pub use check::{Checked, check_plan, status_of_check};
pub use laws::check_of_text;
pub use plan_text::{Planned, read_plan};
