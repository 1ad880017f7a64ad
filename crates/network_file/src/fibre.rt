// The fibres of a network's file.
ghost use Rattle.std.specs.Prelude.{◌≡◌};

use network_parts::FibreEnds;
use std::marker::Model;

/// The fibres of a network, in the order of its file.
#[derive(Debug, Drop)]
pub struct Fibres {
    list: Vec<FibreEnds>,
}

impl Model for Fibres {
    ghost use Rattle.std.specs.Prelude.{List};
    ghost use Rattle.network_laws.specs.Networks.{FibreEnds};

    ghost Value = { List FibreEnds };

    ghost view = { λ fibres. fibres.list.items };
}

impl Fibres {
    /// The fibres of this list, in its order.
    pub fn of(list: Vec<FibreEnds>) -> Fibres
        ensures { result ≡ list.items }
    {
        Fibres { list }
    }

    /// The fibres, in order.
    pub fn as_slice(&self) -> &[FibreEnds]
        ensures { result.now ≡ self.now }
    {
        self.list.as_slice()
    }
}
