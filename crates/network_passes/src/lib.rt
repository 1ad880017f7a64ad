//! Networks over files that are run in passes, so that their fibres may lead round: laws alone. They name no program.
//!
//! - `laws`: what passes leave, and when they settle.
#![tactic(auto)]

mod laws;

pub use laws::passes_settle;
