// Why a text is no plan, or why a plan can't be run.
ghost use Rattle.std.specs.Prelude.{◌≡◌};

/// The fifteen rules of a plan, each named for what is broken.
#[derive(Clone, Copy, Debug, PartialEq, Eq)]
pub enum PlanError {
    /// The text is too long, or no TOML.
    NotToml,
    /// A table has a key that it can't have.
    UnknownKey,
    /// A table lacks a key that it must have.
    MissingKey,
    /// A value is not of its key's kind.
    WrongKind,
    /// The number of turns is out of range.
    Turns,
    /// There are too many connections.
    TooMany,
    /// A name, or a trace, is no such text.
    BadName,
    /// Two connections have one name.
    NameTwice,
    /// A line, a client or a port is out of range, a list of lines does not rise, or neither end is a line.
    BadPlace,
    /// A slot list is none of its line, or does not suit its connection.
    BadSlots,
    /// Two connections to one line have a slot in one turn.
    SlotTwice,
    /// Two connections to one line have a tributary port in one turn.
    PortTwice,
    /// Two connections have one client at the same side.
    ClientTwice,
    /// A pace list is too short or too long, or has a number out of range.
    BadPace,
    /// The first and the last turn are no span of the plan, or there is no client to be retired.
    BadSpan,
}

impl PlanError {
    ghost use Rattle.plan_file.specs.Code.{code_of};

    /// The number of the rule, 1 to 15.
    pub fn code(&self) -> u8
        ensures { result ≡ code_of self.now }
    {
        match self {
            PlanError::NotToml => 1,
            PlanError::UnknownKey => 2,
            PlanError::MissingKey => 3,
            PlanError::WrongKind => 4,
            PlanError::Turns => 5,
            PlanError::TooMany => 6,
            PlanError::BadName => 7,
            PlanError::NameTwice => 8,
            PlanError::BadPlace => 9,
            PlanError::BadSlots => 10,
            PlanError::SlotTwice => 11,
            PlanError::PortTwice => 12,
            PlanError::ClientTwice => 13,
            PlanError::BadPace => 14,
            PlanError::BadSpan => 15,
        }
    }
}

/// Why there is no plan.
#[derive(Clone, Copy, Debug, PartialEq, Eq)]
pub enum NoPlan {
    /// There was no memory.
    Memory,
    /// The rule that is broken first, and its place: 0 for the top, else the connection's number from 1.
    Refused(PlanError, u64),
}
