//! How the ways of a network are found: by definitions that can be computed, and a law that they find the ways that
//! there are, and no others.
#![tactic(auto)]

mod laws;

pub use laws::ways_are_found;
