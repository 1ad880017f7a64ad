//! Ports over the system's files and output, and ports that fail where a test wants it; with all of `port_base`.
//!
//! - `reader_source`, `writer_sink`: ports over the system's files and output, by the calls in `system`;
//!   `system_answer`: what an answer of the system comes to.
//! - `ahead`: what a source over a reader has read ahead.
//! - `listed_source`, `listed_sink`: ports in memory that fail at listed calls, counted by `listed_calls`.
//! - `spoiled_source`: a source that spoils bytes of another by `masks` of their places.
//!
//! Ports, places and bays themselves stand in `port_base`. Libraries stand on that alone, so that a change of a port
//! over files is no change of theirs.
#![tactic(auto)]

mod ahead;
mod listed_calls;
mod listed_sink;
mod listed_source;
mod masks;
mod reader_source;
mod spoiled_source;
mod system;
mod system_answer;
mod writer_sink;

pub use ahead::ReadBlock;
pub use listed_sink::ListedSink;
pub use listed_source::ListedSource;
pub use port_base::{
    Bays, Chooser, Ended, Failed, FirstReady, InPlace, InPlaceOf, InPort, MemSink, MemSource,
    OutPlace, OutPlaceOf, OutPort, Rack, Reading, Sealed, Sink, Source, Written, ask_byte,
    is_dead_in, is_dead_out, read_whole, write_counted, write_whole,
};
pub use reader_source::{FileSource, ReaderSource};
pub use spoiled_source::SpoiledSource;
pub use writer_sink::{FileSink, StdoutSink, WriterSink};
