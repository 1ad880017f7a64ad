//! Networks of calls of `run`: the laws of networks speak of them.
#![tactic(auto)]

mod laws;

pub use laws::headline_of_networks;
