// What a turn's message is heard as, and how a sink stands between two turns.

/// A message of six bytes as it was heard.
#[derive(Clone, Copy, PartialEq, Eq, Debug)]
pub enum Hearing {
    /// A check is wrong, the remainder is not below the number of slots, or the number is outside 0 to 15,232.
    Damaged,
    /// The number is said as a change, and no former number is kept or no pattern fits it.
    Lost,
    /// The number of data groups (Cm), the remainder in bytes (CnD), and whether II and DI are equal.
    Pair(u16, u16, bool),
}

/// How a sink stands after a turn.
#[derive(Clone, Copy, PartialEq, Eq, Debug)]
pub enum SinkState {
    /// No stretch began, and fewer than three turns went by.
    Waiting,
    /// A stretch goes on.
    Up,
    /// No stretch goes on.
    Down,
}

/// What a sink that is Up keeps of its stretch between two turns.
#[derive(Clone, Copy, PartialEq, Eq, Debug)]
pub struct Said {
    /// The number of data groups of the last turn.
    pub cm: u16,
    /// Its remainder, in bytes.
    pub cnd: u16,
    /// How many damaged messages in a row the stretch ends with.
    pub damaged: u8,
    /// The remainder of the turn before the last, where that is of the stretch: so many bytes of the next turn are due
    /// in it.
    pub due: Option<u16>,
}

/// A `SinkState` with what the next turn needs of it: what a sink without totals keeps of how it stands.
#[derive(Clone, Copy, PartialEq, Eq, Debug)]
pub enum Standing {
    /// So many turns went by without a stretch.
    Waiting(u8),
    /// In no stretch, and no longer waiting.
    Down,
    /// Within a stretch.
    Up(Said),
}
