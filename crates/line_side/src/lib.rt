//! The sides of a line of either kind, plain or scrambled. `LineIn` reads one: it finds the multiframes of its frames,
//! one turn each. `UncountedLineIn` does the same and checks no overhead, so it has no numbers of it. `LineOut` makes
//! a line, frame by frame, and writes it by eight frames.
//!
//! - `line_in`: an input line, turn by turn; `reader`: its frames, one after the other; `tried`: what a hunt makes of a
//!   frame; `ending`: whether and how its bytes ended; `checks`, `counts`: what is counted of its overhead.
//! - `line_out`: an output line; `waiting`: its frames that wait to be written.
//! - `mask`: what the frames of a scrambled line go through; `laws`: laws of a line's bytes.
#![tactic(auto)]

mod checks;
mod counts;
mod ending;
mod laws;
mod line_in;
mod line_out;
mod mask;
mod reader;
mod tried;
mod waiting;

pub use counts::LineCounts;
pub use laws::{
    frame_by_frame, frames_through_mask, given_is_among, masked_twice, one_line_file,
    parity_two_on, takes_the_wanted,
};
pub use line_out::LineOut;

/// An input line of a node, with its numbers.
pub type LineIn = line_in::LineIn<1>;

/// An input line that checks no overhead of its frames, for a caller that doesn't report them.
pub type UncountedLineIn = line_in::LineIn<0>;
