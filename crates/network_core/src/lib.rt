//! A node's turn, of which any pieces may have been done before: what several nodes in one process have in common,
//! whose outputs are served first, and whose inputs get their bytes then.
//!
//! - `turns`: what is left of the turn, and its end.
#![tactic(auto)]

mod turns;

pub use turns::end_turn;
