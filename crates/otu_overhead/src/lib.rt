//! The overhead of an OTU2 or OTU3 frame: frame alignment and section monitoring (G.709 clauses 15.6 and 15.7). No FEC
//! is written, but 0 in its columns.
//!
//! - `writer`: `OtuWriter`, which writes it.
//! - `check`: `OtuCheck`, which counts the frames with a wrong FAS or SM parity.
//! - `mask`: `line_mask`, by which the frames of a scrambled line are masked (G.709 clause 11.2).
#![tactic(auto)]

mod check;
mod mask;
mod writer;

pub use check::OtuCheck;
pub use mask::line_mask;
pub use writer::OtuWriter;
