// How a run ends, and what the from end of a connection is.

/// What the end that a connection comes from is, after a turn in which the connection was active.
#[derive(Clone, Copy, Debug, PartialEq, Eq)]
pub enum FromState {
    /// A client.
    Client,
    /// A maintenance signal.
    Signal,
    /// A tributary of a line, whose sink waits for its first multiframes.
    Waiting,
    /// A tributary of a line, whose sink follows it.
    Up,
    /// A tributary of a line, whose sink has lost it or never found it: it emits AIS.
    Down,
}

/// How a run ends.
#[derive(Clone, Copy, Debug, PartialEq, Eq)]
pub enum Outcome {
    /// No place that the plan uses is dead, no line that it uses has more than its turns want, and each client input
    /// that it uses is spent.
    Done,
    /// No such place is dead, and a line has more than the turns want or a client is not spent.
    Unfinished,
    /// A place that the plan uses is dead.
    Cut,
}
