//! What section and path overhead have in common: bytes in a row of a frame, and the BIP-8 parity of frames (G.709
//! clauses 15.7.2.1 and 15.8.2.1), which stands two frames after the frame that it is of.
//!
//! - `runs`: `put_run` and `put_overhead`, which write bytes into a row.
//! - `opu`: the parity of a frame, and the part of it that the payload gives.
//! - `delay`: `ParityDelay`, which gives the parity of the frame two before.
//! - `check`: `ParityCheck`, which counts the frames that carry another.
#![tactic(auto)]

mod check;
mod delay;
mod opu;
mod runs;

pub use check::ParityCheck;
pub use delay::ParityDelay;
pub use opu::{parity, parity_with, payload_parity};
pub use runs::{put_overhead, put_run};
