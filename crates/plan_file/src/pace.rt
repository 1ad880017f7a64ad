// The pace of a connection.
ghost use Rattle.std.specs.Prelude.{◌≡◌};

use std::marker::Model;

/// How many bytes a connection takes from its client, or its signal, in each turn: a list that is
/// gone through again and again, from the connection's first turn on.
#[derive(Debug, Drop)]
pub struct Pace {
    list: Vec<u32>,
}

impl Model for Pace {
    ghost use Rattle.std.specs.Prelude.{List, ℕ};

    ghost Value = { List ℕ };

    ghost view = { λ pace. pace.list.items };
}

impl Pace {
    /// The pace of these numbers of bytes.
    pub fn of(list: Vec<u32>) -> Pace
        ensures { result ≡ list.items }
    {
        Pace { list }
    }

    /// The numbers of bytes, in order.
    pub fn as_slice(&self) -> &[u32]
        ensures { result.now ≡ self.now }
    {
        self.list.as_slice()
    }
}
