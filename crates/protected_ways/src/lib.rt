//! A law of a customer's way over 1+1 protection, the contract of a function.
//!
//! - `laws`: of isolation along such a way.
#![tactic(auto)]

mod laws;

pub use laws::protected_ways_are_isolated;
