//! The frames of G.709: four rows of columns, one byte a place.
//!
//! - `frame`: `Frame<COLS>`, which is made, cleared, filled, and read and written byte by byte.
//! - `payload`: the payload columns of a row, read and written as a whole.
//! - `overhead`: the rows and columns of the overhead, by name.
#![tactic(auto)]

mod frame;
pub mod overhead;
mod payload;

pub use frame::Frame;
