//! What networks are made of beside the plans of their nodes.
//!
//! - `fibre`: the two ends of a fibre.
#![tactic(auto)]

mod fibre;

pub use fibre::FibreEnds;
