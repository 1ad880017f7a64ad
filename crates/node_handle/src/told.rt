// What a call tells beside its answer.

/// What a call tells beside its answer. C sees it as `struct otn_told`.
#[repr(C)]
#[derive(Clone, Copy, Drop)]
pub struct Told {
    /// The rule that the plan breaks first, 1 to 15, where it is refused; else 0.
    pub rule: u32,
    /// Where the plan breaks it: 0 for the top, else the number of the connection, from 1. Of a turn that waits, the
    /// number of the input. Of what a client lacks, how many empty lines. Else 0.
    pub place: u64,
    /// How many bytes there are; of what a client lacks, the bytes of a packet. Else 0.
    pub length: usize,
}

/// Nothing.
pub(crate) fn nothing_told() -> Told {
    Told {
        rule: 0,
        place: 0,
        length: 0,
    }
}
