// The two lines of a protected tributary, and what is chosen in a turn.

/// One of the two lines on which a protected tributary arrives.
#[derive(Clone, Copy, PartialEq, Eq, Debug)]
pub enum Side {
    /// The line that is chosen as long as nothing is known of either.
    Working,
    /// The other one.
    Protection,
}

/// Why the side was left for the other in a turn.
#[derive(Clone, Copy, PartialEq, Eq, Debug)]
pub enum SwitchCause {
    /// Its sink is not Up, and that of the other one is.
    Defect,
    /// The working line's sink was Up for as many turns as are waited for before it is chosen again.
    Restored,
}

/// What is given on in a turn: the emission of a side without its first `skip` bytes.
#[derive(Clone, Copy, PartialEq, Eq, Debug)]
pub struct Choice {
    /// The side whose emission is given on.
    pub side: Side,
    /// How many of its first bytes are left out: at most as many as it has.
    pub skip: usize,
    /// Why it is another side than in the turn before; None where it is the same one.
    pub cause: Option<SwitchCause>,
}
