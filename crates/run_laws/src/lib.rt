//! Laws of what a run leaves, each the contract of a function. They name no node: whatever carried the plan, they hold.
//!
//! - `laws`: of runs of what was given, of two worlds, and of what a connection carries; also by what is seen of the
//!   places alone.
//! - `damage`: of what a run leaves on a connection whose line was damaged.
#![tactic(auto)]

mod damage;
mod laws;

pub use damage::{runs_agree_but_for_one, runs_hand_on_a_front, runs_heal};
pub use laws::{faultless_runs, outputs_through, run_of_given, runs_agree, runs_carry, seen_runs};
