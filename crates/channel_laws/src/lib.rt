//! What joins `bundle` and `unbundle`: the packets that clients put on a line as channels come out of it where its
//! channels are taken apart.
//!
//! - `laws`: the laws, each the contract of a function.
#![tactic(auto)]

mod laws;

pub use laws::bundled_comes_out;
