//! Linear GFP (G.7041 clause 6.1.2.1.3.2): the packets of several channels in one stream of frames, told apart by a
//! channel identifier (CID), and the loss of a channel's client.
#![tactic(auto)]

mod area;
mod arrival;
mod laws;
mod maker;
mod reader;

pub use arrival::Arrival;
pub use laws::{arrivals_stay, channels_arrive, channels_take_turns, made_is_the_weave};
pub use maker::ChannelMaker;
pub use reader::ChannelReader;
