//! Networks that are stepped node by node, with fibres in memory: also those in which a fibre leads round to where it
//! began. Laws alone: whoever steps the nodes, in whatever order.
#![tactic(auto)]

mod laws;

pub use laws::stepped_networks_are_runs;
