//! Packets of several clients as the channels of one tributary (G.7041, linear extension header): the command `bundle`.
//!
//! - `channel`: `Channel`, a client's text, packet by packet.
//! - `weaving`: the frames of all channels in one stream, each from the channel whose turn it is.
//! - `framing`, `filling`: the client frames that carry the stream.
//! - `bundling`: the turns of the line.
//! - `settling`, `report_line`: its end, and its report.
//! - `command`: `bundle`, the command over the places of a device.
//!
//! `ClientList`, whose packets they are, is of `client_list`.
#![tactic(auto)]

mod bundling;
mod channel;
mod command;
mod filling;
mod framing;
mod report_line;
mod settling;
mod weaving;

pub use client_list::ClientList;
pub use command::bundle;
