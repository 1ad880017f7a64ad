//! The payload bytes of a row by tributary slots, many bytes at a time: a line has 8 slots, or 32
//! (G.709 clause 19.1). What a call says names no vector: byte x of a row, from 0, is byte `x / SLOTS` of
//! slot `x % SLOTS + 1`.
//!
//! - `into_slots`, `from_slots`: a row into the bytes of all its slots, `SlotRows`, and out of them. A frame that is
//!   filled by many slots is joined so; where few slots of a row are wanted, `one_slot`, `several` and `spread` do.
//! - `one_slot`: the bytes of one slot, taken and put.
//! - `several`, `spread`: the bytes of several slots, cycle by cycle, taken and put.
//! - `exclusive_or`: the parity of bytes, and masks.
//! - `turn`, `block`: sixteen groups of eight bytes at a time, by `std::simd`.
#![tactic(auto)]

mod block;
mod exclusive_or;
mod from_slots;
mod into_slots;
mod one_slot;
mod several;
mod slot_rows;
mod spread;
mod turn;

pub use exclusive_or::{parity, xor_mask};
pub use from_slots::{join, join8, join8_among};
pub use into_slots::{split, split8, split8_among};
pub use one_slot::{put_slot, take_slot};
pub use several::take_slots;
pub use slot_rows::SlotRows;
pub use spread::put_slots;
