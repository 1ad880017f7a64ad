//! Frame-mapped GFP (G.7041): packets into frames, and packets out of any list of bytes.
#![tactic(auto)]

mod area;
mod core_header;
mod laws;
mod maker;
mod phase;
mod reader;

pub use core_header::{bytes_of_16, bytes_of_32};
pub use laws::{
    areas_are_one_list_of_bits, areas_arrive, areas_stay, delivered_stays, frames_stand_by_place,
    made_is_the_stream, one_wrong_bit_is_corrected, packets_arrive,
};
pub use maker::GfpMaker;
pub use reader::GfpReader;
