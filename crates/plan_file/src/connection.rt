// A connection of a plan, and its two ends.
use crate::name::Name;
use crate::pace::Pace;
use maintenance_signals::Signal;
use otn_base::{Kind, Slots, Trace};

/// Where a connection comes from.
#[derive(Debug, Drop)]
pub enum FromEnd {
    /// A line input (0 to 3), the tributary port (1 to the number of the line's slots) and the slots that
    /// it has there.
    Line(u8, u8, Slots),
    /// A client input (0 to 15).
    Client(u8),
    /// A maintenance signal.
    Signal(Signal),
}

/// Where a connection goes.
#[derive(Debug, Drop)]
pub enum ToEnd {
    /// A line output (0 to 3), the tributary port (1 to the number of the line's slots) and the slots that
    /// it has there.
    Line(u8, u8, Slots),
    /// A client output (0 to 15).
    Client(u8),
}

/// A connection of a plan. Whether it keeps the rules is told by the plan's `fault`.
#[derive(Debug, Drop)]
pub struct Connection {
    /// Its name.
    pub name: Name,
    /// What it carries.
    pub kind: Kind,
    /// Where it comes from.
    pub from: FromEnd,
    /// Where it goes.
    pub to: ToEnd,
    /// The bytes of each turn, from a client or a signal.
    pub pace: Pace,
    /// Whether the client's packets get an FCS.
    pub fcs: bool,
    /// The trail trace of the client's ODU frames.
    pub trace: Trace,
    /// Its first turn.
    pub start: u32,
    /// Its last turn.
    pub stop: u32,
    /// Whether its client places are retired after its last turn.
    pub retire: bool,
}
