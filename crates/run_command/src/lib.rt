//! The command `run`: a plan is carried over the places, and reported.
//!
//! - `plan_run`: the plan is read, carried in an order that a chooser says, and its report is written.
//! - `laws`: the headline, of each connection of a plan that is run; and `run` by the whole text of its plan.
//! - `damage`: the headline of damaged lines.
#![tactic(auto)]

mod damage;
mod laws;
mod plan_run;

pub use damage::damaged_lines;
pub use laws::{headline, headline_of_any_inputs, run_of_text};
pub use plan_run::{Ran, run_plan, status_of_run};
