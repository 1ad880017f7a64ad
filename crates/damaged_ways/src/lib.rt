//! Laws of a customer's way over fibres that may be damaged, of nodes over any ports, files too: each the contract of a
//! function. They name no program: whatever carried the plans, they hold.
//!
//! - `laws`: of isolation along such a way, and of what it delivers.
#![tactic(auto)]

mod laws;

pub use laws::{damaged_ways_are_isolated, damaged_ways_deliver};
