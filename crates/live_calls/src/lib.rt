//! A live node as a program outside of it drives it: by the numbers of its inputs and outputs, with a report at any
//! moment.
//!
//! - `held`: the node, and what is called of it.
#![tactic(auto)]

mod held;

pub use held::{HeldNode, PORTS};
