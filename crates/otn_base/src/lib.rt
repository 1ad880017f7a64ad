//! What every layer of the device shares: kinds of lines and of tributaries, lists of tributary slots, trail traces,
//! the names of ports, the answer for want of memory, the bytes of one turn, bytes that several hold, bytes at the end
//! or the front of a buffer, and the numbers of the formats.
#![tactic(auto)]

mod buffer;
mod burst;
mod kind;
pub mod limits;
mod line_kind;
mod memory;
mod shared;
mod slots;
mod trace;

pub use buffer::{append, copy_front};
pub use burst::Burst;
pub use kind::{Kind, PortName};
pub use line_kind::LineKind;
pub use memory::Memory;
pub use shared::SharedBytes;
pub use slots::Slots;
pub use trace::Trace;
