//! The columns and the justification bytes of an ODTU in a frame of an OTU2 or an OTU3 (G.709 clause 19).
//!
//! - `slot`: the bytes of one tributary slot.
//! - `groups`: a byte of each of the slots that one ODTU takes, cycle by cycle.
//! - `put`: the same, written.
//! - `justification`: its justification bytes.
//! - `fill`: `FillFrame`, a frame that sources fill.
//! - `laying`: `RowGroups`, groups before they are in a frame.
//! - `slot_frame`: `SlotFrame`, such a frame that is kept by slots.
//! - `filled_slots`: its payload, of which some slots are filled.
//! - `take`: `TakeFrame`, a frame of which sinks take.
//! - `slot_payload`: `SlotPayload`, the payload of a frame by slots.
//! - `split_frame`: `SplitFrame`, a frame of which sinks take, beside its payload by slots.
//! - `line`: the kernels below them, for a line of either kind.
#![tactic(auto)]

mod fill;
mod filled_slots;
mod groups;
mod justification;
mod laying;
mod line;
mod put;
mod slot;
mod slot_frame;
mod slot_payload;
mod split_frame;
mod take;

pub use fill::FillFrame;
pub use groups::{cycle_group, cycle_groups, group, row_groups};
pub use justification::{message, put_message};
pub use laying::RowGroups;
pub use put::{put_group, put_row_groups, put_slot_row};
pub use slot::slot_row;
pub use slot_frame::SlotFrame;
pub use slot_payload::SlotPayload;
pub use split_frame::SplitFrame;
pub use take::TakeFrame;
