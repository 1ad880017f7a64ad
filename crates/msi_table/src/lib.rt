//! The multiplex structure identifier of a line (G.709 clause 19.4.1).
//!
//! - `watch`: `MsiWatch`, which watches the MSI byte of one slot.
//! - `slot_map`: `SlotMap`, which says the tributary port of each slot, and `psi_byte`.
#![tactic(auto)]

mod slot_map;
mod watch;

pub use slot_map::{SlotMap, psi_byte};
pub use watch::MsiWatch;
