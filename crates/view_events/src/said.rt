// What a view says of a turn: of the line, of the slots and of a tributary.

/// How a turn is aligned.
#[derive(Clone, Copy, Debug, PartialEq, Eq)]
pub enum Alignment {
    /// It has its multiframe.
    Whole,
    /// It lost the multiframe.
    Lost,
    /// No multiframe was found.
    Hunting,
    /// The line ended.
    Ended,
}

impl Alignment {
    ghost use Rattle.std.specs.Prelude.{◌≡◌};
    ghost use Rattle.view_events.specs.LineEvents.{is_whole, is_lost, is_hunting};

    /// Whether the turn has its multiframe.
    pub fn is_whole(self) -> bool
        ensures { result ≡ is_whole self }
    {
        self == Alignment::Whole
    }

    /// Whether it lost it.
    pub fn is_lost(self) -> bool
        ensures { result ≡ is_lost self }
    {
        self == Alignment::Lost
    }

    /// Whether none was found.
    pub fn is_hunting(self) -> bool
        ensures { result ≡ is_hunting self }
    {
        self == Alignment::Hunting
    }
}

/// What the view says of a line in a turn.
#[derive(Clone, Copy, Debug, PartialEq, Eq)]
pub struct TurnSaid {
    /// The turn, from 1.
    pub number: u64,
    /// How it is aligned.
    pub alignment: Alignment,
    /// Whole frames that were passed over.
    pub lead_in: u64,
    /// Used frames with a wrong FAS.
    pub fas: u64,
    /// Used frames with a wrong SM parity.
    pub sm: u64,
    /// Used frames with a wrong PM parity.
    pub pm: u64,
}

/// The MSI byte that came for a slot in a turn.
#[derive(Clone, Copy, Debug, PartialEq, Eq)]
pub struct MsiSaid {
    /// The turn, from 1.
    pub turn: u64,
    /// The slot, from 1.
    pub slot: u8,
    /// The byte.
    pub byte: u8,
}

/// How a sink stands after a turn.
#[derive(Clone, Copy, Debug, PartialEq, Eq)]
pub enum SinkState {
    /// No stretch began yet.
    Waiting,
    /// It emits what the messages say.
    Up,
    /// It emits AIS.
    Down,
}

impl SinkState {
    ghost use Rattle.std.specs.Prelude.{◌≡◌};
    ghost use Rattle.view_events.specs.TributaryEvents.{is_up, is_down, is_waiting};

    /// Whether it is up.
    pub fn is_up(self) -> bool
        ensures { result ≡ is_up self }
    {
        self == SinkState::Up
    }

    /// Whether it is down.
    pub fn is_down(self) -> bool
        ensures { result ≡ is_down self }
    {
        self == SinkState::Down
    }

    /// Whether it is waiting.
    pub fn is_waiting(self) -> bool
        ensures { result ≡ is_waiting self }
    {
        self == SinkState::Waiting
    }
}

/// What the view says of a tributary in a turn.
#[derive(Clone, Copy, Debug, PartialEq, Eq)]
pub struct TributarySaid {
    /// The turn, from 1.
    pub turn: u64,
    /// How its sink stands after the turn.
    pub state: SinkState,
    /// Cm of the turn, where it is up.
    pub cm: u64,
    /// CnD of the turn, where it is up.
    pub cnd: u64,
}
