//! Ports that may fail at any call, the places that hold them, and the bays of all places.
//!
//! - `source`, `sink`: what a port is, with its meanings; `Failed`.
//! - `mem_source`, `mem_sink`: ports in memory.
//! - `in_port`, `out_port`: a port behind a box, or one in memory.
//! - `in_place`, `out_place`: a place with its port, which reads and writes whole slices; `sealed`: the port of a dead
//!   or a retired one.
//! - `dead_places`: whether a place is dead.
//! - `asking`: a place is asked for one byte more.
//! - `fill`, `drain`: a whole read of a source, and a whole write to a sink, that stand in no place.
//! - `bays`: all places of a device.
//! - `chooser`: what settles a free choice.
//! - `ended`: how a command over places ended.
//!
//! Ports over the system's files, and ports that fail where a test wants it, stand in `otn_ports`.
//!
//! One event goes by these words. A call of a port *fails*: it answers `Failed`, and the port's
//! count of faults rose in it, or stands at its end. A whole read or write in which a call failed is
//! *lost*: it answers `Lost`. A live place whose read or write is lost *dies* in it: it is *dead*
//! from then on, and its port, sealed, is asked nothing more.
#![tactic(auto)]

mod asking;
mod bays;
mod chooser;
mod dead_places;
mod drain;
mod ended;
mod fill;
mod in_place;
mod in_port;
mod mem_sink;
mod mem_source;
mod out_place;
mod out_port;
mod sealed;
mod sink;
mod source;

pub use asking::ask_byte;
pub use bays::{Bays, Rack};
pub use chooser::{Chooser, FirstReady};
pub use dead_places::{is_dead_in, is_dead_out};
pub use drain::{Written, write_counted, write_whole};
pub use ended::Ended;
pub use fill::read_whole;
pub use in_place::{InPlace, InPlaceOf, Reading};
pub use in_port::InPort;
pub use mem_sink::MemSink;
pub use mem_source::MemSource;
pub use out_place::{OutPlace, OutPlaceOf};
pub use out_port::OutPort;
pub use sealed::Sealed;
pub use sink::Sink;
pub use source::{Failed, Source};
