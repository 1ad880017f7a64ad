//! The connections of a node: a piece of each kind of port, and the end of a turn, over the list of all of them.
//!
//! - `link`: a connection of a node: what the plan says of it, and its pipe; `entry`: a copy of what the plan says.
//! - `lines_in`, `lines_out`, `clients`: a piece of each kind of port.
//! - `turn`: the end of a turn; `retire`: client places at the stop of their connection.
#![tactic(auto)]

mod clients;
mod entry;
mod lines_in;
mod lines_out;
mod link;
mod retire;
mod turn;

pub use clients::{give_client, take_client};
pub use lines_in::read_line;
pub use lines_out::write_line;
pub use link::Link;
pub use retire::retire_all;
pub use turn::{end_lines, fence_all, start_all};
