// What a call tells beside the bytes.

/// What a call tells beside the bytes. C sees it as `struct otn_answer`.
#[repr(C)]
#[derive(Clone, Copy, Drop)]
pub struct Answer {
    /// The status of the command, 0 to 7.
    pub status: u32,
    /// The rule of the plan that was broken first, 1 to 15, where the status is 3; else 0.
    pub rule: u32,
    /// Where it was broken: 0 for the top of the plan, else the number of the connection, from 1. 0 where the status is
    /// not 3.
    pub place: u64,
    /// How many bytes the report has.
    pub report: usize,
    /// How many bytes all outputs have together.
    pub outputs: usize,
}
