//! Lists of numbers as text, as `0,5,12`: in decimal, with commas between them.
//!
//! - `list`: the numbers that a text lists.
//! - `number`: the number that a text is.
#![tactic(auto)]

mod list;
mod number;

pub use list::numbers_of;
pub use number::number_of;
