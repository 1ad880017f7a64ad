//! The self-synchronous scrambler x^43 + 1 of GFP payload areas (G.7041 clause 6.1.2.3), both ways.
//! The areas of a stream joined are one list of bits; core headers pass beside it.
#![tactic(auto)]

mod descrambler;
mod laws;
mod register;
mod scrambler;
mod words;

pub use descrambler::Descrambler;
pub use laws::{descrambling_undoes, is_the_bit_rule};
pub use scrambler::Scrambler;
