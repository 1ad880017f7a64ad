//! GMP's justification message both ways, as far as it carries the number Cm: the bytes JC1 to JC3 of
//! G.709 Annex D.
//!
//! - [`say`] gives the bytes that carry a number after the former one.
//! - [`Listener`] hears such bytes, and keeps the last number that it accepted; [`Heard`] is its answer.
#![tactic(auto)]

mod listener;
mod patterns;
mod sender;

pub use listener::{Heard, Listener};
pub use sender::say;
