//! Client frames: the ODU frames of a client are made of its packets, and are found again in the bytes that arrive.
//!
//! - `framer`: frames out of a client's text; `packet_stream`: their payload, a stream of GFP frames; `frame_maker`:
//!   frames out of a payload that is handed in.
//! - `client_overhead`, `client_frame`: what stands beside the payload.
//! - `aligner`: the frames in bytes that arrive; `aligned`: what a byte brings; `fas`: the frame alignment signal.
//! - `laws`: laws of a client's frames.
#![tactic(auto)]

mod aligned;
mod aligner;
mod client_frame;
mod client_overhead;
mod fas;
mod frame_maker;
mod framer;
mod laws;
mod packet_stream;

pub use aligned::Aligned;
pub use aligner::ClientAligner;
pub use client_overhead::ClientOverhead;
pub use frame_maker::FrameMaker;
pub use framer::ClientFramer;
pub use laws::{delivered_stays, output_goes_on, packets_arrive};
