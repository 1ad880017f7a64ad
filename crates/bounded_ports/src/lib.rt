//! A sink in memory whose type says how many bytes it takes, so that what it was given says whether it may have failed.
//!
//! - `bounded_sink`: the sink.
//! - `laws`: a place with it that failed is full.
#![tactic(auto)]

mod bounded_sink;
mod laws;

pub use bounded_sink::BoundedSink;
pub use laws::full_where_failed;
