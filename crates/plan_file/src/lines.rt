// Lists of lines.
ghost use Rattle.std.specs.Prelude.{◌≡◌};

use std::marker::Model;

/// A list of lines, each by its number: those of one side that are OTU3, or that are scrambled.
#[derive(Debug, Drop)]
pub struct LineList {
    list: Vec<u8>,
}

impl Model for LineList {
    ghost use Rattle.std.specs.Prelude.{List, ℕ};

    ghost Value = { List ℕ };

    ghost view = { λ lines. lines.list.items };
}

impl LineList {
    /// The lines of these numbers.
    pub fn of(list: Vec<u8>) -> LineList
        ensures { result ≡ list.items }
    {
        LineList { list }
    }

    /// The numbers of the lines, in order.
    pub fn as_slice(&self) -> &[u8]
        ensures { result.now ≡ self.now }
    {
        self.list.as_slice()
    }
}
