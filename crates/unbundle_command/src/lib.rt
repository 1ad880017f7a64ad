//! The channels of a line, taken apart (G.7041 clause 6.1.2.1.3.2): the packets of the linear GFP frames that an ODU0
//! in tributary slot 1 has go to the client outputs of their channels.
//!
//! - `command`: `unbundle`, the command over the places of a device.
//! - `unbundling`: its turns: a sink of the line, and what becomes of the bytes that it emits.
//! - `receiving`: what arrives in these bytes.
//! - `outputs`, `channel`: the packets of each channel, as lines for its client output, and how many arrived.
//! - `laws`: what no call shows by itself: that nothing else on the line changes what arrives.
//! - `settling`, `report`: the end of the command, and its report.
#![tactic(auto)]

mod channel;
mod command;
mod laws;
mod outputs;
mod receiving;
mod report;
mod settling;
mod unbundling;

pub use command::unbundle;
pub use laws::unbundled_is_apart;
