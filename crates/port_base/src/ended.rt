// How a command over places ended.

/// How a command ended that takes bytes of line inputs turn by turn or frame by frame. Where several of these would do,
/// `ReportFault` goes before `Cut`, and `Cut` before `Unfinished`.
#[derive(Clone, Copy, Debug, PartialEq, Eq)]
pub enum Ended {
    /// All was done, and nothing is left over.
    Done,
    /// A line has more than the command takes of it, or bytes behind its last whole frame.
    Unfinished,
    /// A place of the command is dead.
    Cut,
    /// A write of the report failed, which ended the command at once.
    ReportFault,
    /// There was no memory, and nothing was done.
    Memory,
}
