//! A live node behind a pointer that a program in C holds, and the calls of it.
//!
//! - `calls`: the calls, each answered by a number.
//! - `codes`: the numbers by which they answer.
//! - `handle`: the handle, which is empty or owns a node.
//! - `loose`: a box as its pointer.
//! - `told`: what a call tells beside its answer.
#![tactic(auto)]

mod calls;
mod codes;
mod handle;
mod loose;
mod told;

pub use calls::{close, end_input, hand_in, lack, left, open, report, turn};
pub use handle::NodeHandle;
pub use told::Told;
