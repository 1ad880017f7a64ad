//! The pieces of a turn: how many each port of a device has by a plan, and how many are done.
//!
//! - `pieces`: the pieces of all ports in a turn, counted and cleared.
//! - `ports`: the ports of a device by number, and which of them a plan uses or a connection touches.
#![tactic(auto)]

mod pieces;
mod ports;

pub use pieces::Pieces;
pub use ports::{PORTS, has_number, kind_by, port_at, touches, uses};
