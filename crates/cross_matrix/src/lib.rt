//! The pipes of a node: the parts of each connection, joined. A pipe takes from the connection's input what
//! a turn brings, and gives to its output what the turn before brought.
//!
//! - `pipe`: a connection's pipe.
//! - `build`: the pipe of an entry of a plan.
//! - `taking`, `giving`: its two parts.
//! - `receiver`: a client's output, from arriving bytes to lines of text; `held_lines`: the lines until they leave.
#![tactic(auto)]

mod build;
mod giving;
mod held_lines;
mod pipe;
mod receiver;
mod taking;

pub use device_model::FromState;
pub use pipe::Pipe;
