//! A node that is driven turn by turn. Opened by a plan, it has what leaves in turn 1. Then, each time the frames of
//! its line inputs and the packets of its clients for a turn are handed in, it does that turn and has what leaves in
//! the next.
//!
//! - `live_node`: the node.
//! - `places`: its places, which hold ports in memory.
//! - `kept`: whether its outputs keep all that leaves in the next turn.
//! - `serving`: all pieces of the outputs in a turn.
//! - `line_watch`: how many frames of an input line the next turn looks at.
//! - `client_watch`: how much of a client's packets the next turn takes.
#![tactic(auto)]

mod client_watch;
mod kept;
mod line_watch;
mod live_node;
mod places;
mod serving;

pub use client_watch::Lack;
pub use live_node::{LiveNode, Turned};
pub use places::{HandedIn, Places};
