//! The words of the program's commands.
//!
//! - `words`: the command whose form they are.
//! - `laws`: that they are the form of one at most.
#![tactic(auto)]

mod laws;
mod words;

pub use laws::forms_are_apart;
pub use words::{Command, command_of, order_of, takes_captures};
