// The numbers of a line, for its report.

/// The numbers of an input line. Each stops at 2^64-1.
#[derive(Clone, Copy, Debug, PartialEq, Eq)]
pub struct LineCounts {
    /// Whole frames used, lead-in among them.
    pub frames: u64,
    /// Frames passed over in search of a multiframe.
    pub lead_in: u64,
    /// Multiframes of which more than half of the MFAS bytes are wrong.
    pub lost: u64,
    /// Bytes after the last whole frame, where the end was seen.
    pub rest: u64,
    /// Used frames with a wrong FAS.
    pub fas: u64,
    /// Used frames with a wrong SM parity, of which the first two are not checked.
    pub sm: u64,
    /// Used frames with a wrong PM parity, of which the first two are not checked.
    pub pm: u64,
}
