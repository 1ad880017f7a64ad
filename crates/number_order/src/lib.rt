//! The choices that a number settles: those of `run --order N`, and the words that `trial N` draws by.
//!
//! - `number_chooser`: a chooser of which port of a plan is served next.
#![tactic(auto)]

mod number_chooser;

pub use number_chooser::NumberChooser;
