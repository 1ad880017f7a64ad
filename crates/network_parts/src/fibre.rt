// The two ends of a fibre.
ghost use Rattle.std.specs.Prelude.{◌≡◌};

use std::marker::Model;

/// A fibre: from a line output (0 to 3) of one node to a line input (0 to 3) of one. Nodes are given by their index,
/// from 0 in the order of the file.
#[derive(Clone, Copy, Debug, PartialEq, Eq, Drop)]
pub struct FibreEnds {
    here: usize,
    out: u8,
    there: usize,
    into: u8,
}

impl Model for FibreEnds {
    ghost use Rattle.network_laws.specs.Networks.{FibreEnds};

    ghost Value = { FibreEnds };

    ghost view = { λ f. record { here = f.here; out = f.out; there = f.there; into = f.into } };

    ghost inverse = { λ f. record { here = f.here; out = f.out; there = f.there; into = f.into } };
}

impl FibreEnds {
    /// The fibre from this line output of the node with this index to this line input of that one.
    pub fn new(from_node: usize, from_line: u8, to_node: usize, to_line: u8) -> FibreEnds
        ensures { result ≡ record { here = from_node; out = from_line; there = to_node; into = to_line } }
    {
        FibreEnds {
            here: from_node,
            out: from_line,
            there: to_node,
            into: to_line,
        }
    }

    /// The index of the node that it comes from.
    pub fn from_node(&self) -> usize
        ensures { result ≡ self.now.here }
    {
        self.here
    }

    /// The line output that it comes from.
    pub fn from_line(&self) -> u8
        ensures { result ≡ self.now.out }
    {
        self.out
    }

    /// The index of the node that it leads to.
    pub fn to_node(&self) -> usize
        ensures { result ≡ self.now.there }
    {
        self.there
    }

    /// The line input that it leads to.
    pub fn to_line(&self) -> u8
        ensures { result ≡ self.now.into }
    {
        self.into
    }
}
