// What a byte that arrives brings.

/// Nothing, a whole frame that is used, or a break: a frame with AIS, OCI or LCK, or a new search for the FAS.
#[derive(Clone, Copy, Debug, PartialEq, Eq)]
pub enum Aligned {
    Nothing,
    Whole,
    Break,
}
