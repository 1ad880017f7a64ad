// The cuts of a network's file.
ghost use Rattle.std.specs.Prelude.{◌≡◌};

use std::marker::Model;

/// A cut: the fibre of this number, from 1 in the order of the file, is dark from turn `from` up to, not with, turn
/// `until`. Turns count from 1, as in a plan.
#[derive(Clone, Copy, Debug, PartialEq, Eq)]
pub struct Cut {
    pub fibre: usize,
    pub from: u32,
    pub until: u32,
}

/// The cuts of a network, in the order of its file.
#[derive(Debug, Drop)]
pub struct Cuts {
    list: Vec<Cut>,
}

impl Model for Cuts {
    ghost use Rattle.std.specs.Prelude.{List};
    ghost use Rattle.network_file.specs.declared.cut.Cut.{Cut};

    ghost Value = { List Cut };

    ghost view = { λ cuts. cuts.list.items };
}

impl Cuts {
    ghost use Rattle.network_file.specs.Cuts.{is_cut, is_dark};

    /// The cuts of this list, in its order.
    pub fn of(list: Vec<Cut>) -> Cuts
        ensures { result ≡ list.items }
    {
        Cuts { list }
    }

    /// The cuts, in order.
    pub fn as_slice(&self) -> &[Cut]
        ensures { result.now ≡ self.now }
    {
        self.list.as_slice()
    }

    /// Whether some cut is of the fibre of this number, from 1.
    pub fn is_cut(&self, number: usize) -> bool
        ensures { result ≡ is_cut self.now number }
    {
        self.list.iter().any(|cut| cut.fibre == number)
    }

    /// Whether the fibre of this number, from 1, is dark in this turn, from 1.
    pub fn is_dark(&self, number: usize, turn: u64) -> bool
        ensures { result ≡ is_dark self.now number turn }
    {
        self.list.iter().any(|cut| {
            cut.fibre == number && u64::from(cut.from) <= turn && turn < u64::from(cut.until)
        })
    }
}
