// A tributary that a view is to show.

use arrayvec::ArrayString;
use otn_base::Slots;

/// The most bytes of a name.
pub const NAME_BYTES: usize = 32;

/// A tributary of a line: its name, its tributary port, from 1, its slots, and the turns in which it is shown.
#[derive(Drop)]
pub struct Shown {
    /// The name, or a mark in its place.
    pub name: ArrayString<NAME_BYTES>,
    /// The tributary port.
    pub port: u8,
    /// The slots, of a line of the view's kind.
    pub slots: Slots,
    /// How many turns of the line are past before its first.
    pub first: u32,
    /// Its last turn, from 1.
    pub stop: u32,
}
