// Why a text is no network.
ghost use Rattle.std.specs.Prelude.{◌≡◌};

use crate::place::Place;
use std::fmt;

/// The fourteen rules of a network, each named for what is broken.
#[derive(Clone, Copy, Debug, PartialEq, Eq)]
pub enum NetworkError {
    /// The text is too long, or no TOML.
    NotToml,
    /// A table has a key that it can't have.
    UnknownKey,
    /// A table lacks a key that it must have.
    MissingKey,
    /// A value is not of its key's kind.
    WrongKind,
    /// There is no node, or there are too many nodes, fibres or cuts.
    TooMany,
    /// The name of a node, or its folder, is no such text.
    BadName,
    /// Two nodes have one name.
    NameTwice,
    /// An end of a fibre names no node.
    NoSuchNode,
    /// An end of a fibre is at none of the lines 0 to 3.
    NoSuchLine,
    /// Two fibres lead to one line input.
    LineTwice,
    /// The plan of a node is refused.
    PlanRefused,
    /// The ends of a fibre, each in use, are of two kinds, or one of them alone is scrambled.
    OtherForm,
    /// A cut names no fibre.
    NoSuchFibre,
    /// The turns of a cut are no such turns.
    BadTurns,
}

impl NetworkError {
    ghost use Rattle.network_file.specs.Code.{code_of, words_of};

    /// The number of the rule, 1 to 14.
    pub fn code(&self) -> u8
        ensures { result ≡ code_of self.now }
    {
        match self {
            NetworkError::NotToml => 1,
            NetworkError::UnknownKey => 2,
            NetworkError::MissingKey => 3,
            NetworkError::WrongKind => 4,
            NetworkError::TooMany => 5,
            NetworkError::BadName => 6,
            NetworkError::NameTwice => 7,
            NetworkError::NoSuchNode => 8,
            NetworkError::NoSuchLine => 9,
            NetworkError::LineTwice => 10,
            NetworkError::PlanRefused => 11,
            NetworkError::OtherForm => 12,
            NetworkError::NoSuchFibre => 13,
            NetworkError::BadTurns => 14,
        }
    }

    /// What is broken, in words.
    pub fn words(&self) -> &'static str
        ensures { result.now ≡ words_of self.now }
    {
        match self {
            NetworkError::NotToml => "no TOML",
            NetworkError::UnknownKey => "unknown key",
            NetworkError::MissingKey => "missing key",
            NetworkError::WrongKind => "wrong kind of value",
            NetworkError::TooMany => "no node, or too many nodes, fibres or cuts",
            NetworkError::BadName => "bad name or folder",
            NetworkError::NameTwice => "name twice",
            NetworkError::NoSuchNode => "no such node",
            NetworkError::NoSuchLine => "no such line",
            NetworkError::LineTwice => "line in twice",
            NetworkError::PlanRefused => "plan refused",
            NetworkError::OtherForm => "ends of two forms",
            NetworkError::NoSuchFibre => "no such fibre",
            NetworkError::BadTurns => "bad turns",
        }
    }
}

/// What is broken, in words.
impl fmt::Display for NetworkError {
    ghost use Rattle.std.specs.Prelude.{Some};
    ghost use Rattle.network_file.specs.Code.{words_of};

    ghost output = { λ error. Some (words_of error) };

    fn fmt<W: fmt::Write>(&self, f: &mut fmt::Formatter<W>) -> fmt::Result {
        let words = self.words();
        write!(f, "{words}")
    }
}

/// Why there is no network.
#[derive(Clone, Copy, Debug, PartialEq, Eq)]
pub enum NoNetwork {
    /// There was no memory.
    Memory,
    /// The rule that is broken first, and its first place.
    Refused(NetworkError, Place),
}
