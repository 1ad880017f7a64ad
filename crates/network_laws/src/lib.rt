//! Laws of networks: of a customer's way through any number of nodes, each the contract of a function. They name no
//! program: whatever carried the plans, and however the bytes came from one node to the next, they hold.
//!
//! - `laws`: of isolation along a way, of what it delivers, and of both in whole networks.
#![tactic(auto)]

mod laws;

pub use laws::{networks_isolate_and_deliver, ways_are_isolated, ways_deliver};
