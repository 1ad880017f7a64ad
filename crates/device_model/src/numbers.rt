// The numbers of a settled run, as they are handed over to its report.
use crate::outcome::{FromState, Outcome};
use line_side::LineCounts;
use otn_base::limits::{CLIENTS, LINES, MOST_CONNECTIONS};

/// The numbers of a client input.
#[derive(Clone, Copy, Debug, PartialEq, Eq)]
pub struct ClientInCounts {
    /// Packets that were begun.
    pub packets: u64,
    /// Whether the client is spent.
    pub spent: bool,
    /// The number of its bad line, once that is seen.
    pub bad: Option<u64>,
}

/// The numbers of a client output.
#[derive(Clone, Copy, Debug, PartialEq, Eq)]
pub struct ClientOutCounts {
    /// Whole frames handed on.
    pub frames: u64,
    /// Packets delivered and counted.
    pub packets: u64,
}

/// The numbers of all ports of a settled node, by port number. Of ports and connections that the plan does
/// not use no clause speaks.
#[derive(Drop)]
pub struct RunNumbers {
    /// Of each line input.
    pub lines_in: [LineCounts; LINES],
    /// Whole frames of each line output.
    pub lines_out: [u64; LINES],
    /// Of each client input.
    pub clients_in: [ClientInCounts; CLIENTS],
    /// Of each client output.
    pub clients_out: [ClientOutCounts; CLIENTS],
    /// What the from end of each connection was after the last turn, by its number in the plan; None where
    /// it was not active in that.
    pub from: [Option<FromState>; MOST_CONNECTIONS],
    /// How the run ended.
    pub outcome: Outcome,
}
