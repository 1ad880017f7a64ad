// Whether and how the bytes of a line have ended.

/// Whether the bytes of a line have ended: they have not, their end was seen, or their place died or was handed in
/// dead.
#[derive(Clone, Copy, Debug, PartialEq, Eq)]
pub enum Ending {
    Open,
    Seen,
    Died,
}
