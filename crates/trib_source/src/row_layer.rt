// The groups of a row, or of one slot in a frame, which are laid out of the bytes of the data groups among them.
ghost use Rattle.std.specs.Prelude.{◌≡◌, ◌+◌, ◌≤◌, length};
ghost use Rattle.otn_base.specs.declared.limits.TheConstants.{GROUPS};
ghost use Rattle.trib_source.specs.Steps.Rows.{data_bytes, groups_laid};

use crate::lay::lay_groups;
use gmp_rule::Runner;
use odtu_columns::RowGroups;
use otn_base::limits::GROUPS;
use std::marker::Model;

// From so many data groups of a multiframe on they are laid out by runs: nine of ten, where a group has one
// byte, and three of four, where it has more.
const BY_RUNS_OF_BYTES: u32 = GROUPS as u32 * 9 / 10;

const BY_RUNS: u32 = GROUPS as u32 * 3 / 4;

/// So many groups, of `m` bytes each, behind so many of a turn with so many data groups: into the data groups go these
/// bytes, into the stuff groups bytes 0. They are seen as their bytes, one group after the other.
#[derive(Drop)]
pub(crate) struct RowLayer<'a> {
    cm: u32,
    asked: u32,
    fresh: &'a [u8],
    m: usize,
    cycles: usize,
}

impl<'a> Model for RowLayer<'a> {
    ghost use Rattle.std.specs.Prelude.{ℕ, List, length};
    ghost use Rattle.trib_source.specs.Steps.Rows.{groups_laid, CanLay};

    ghost Value = { List ℕ };

    ghost view = { λ l. groups_laid l.m l.cm l.asked l.fresh.now l.cycles };

    ghost invariant = { λ l. CanLay l.m l.cm l.asked (length l.fresh.now) l.cycles };
}

impl<'a> RowLayer<'a> {
    /// These groups.
    pub(crate) fn new(cm: u32, asked: u32, fresh: &'a [u8], m: usize, cycles: usize) -> RowLayer<'a>
        requires some { 1 ≤ m }
        requires cm { cm ≤ GROUPS }
        requires asked { asked + cycles ≤ GROUPS }
        requires fresh { length fresh.now ≡ data_bytes m cm asked cycles }
        ensures { result ≡ groups_laid m cm asked fresh.now cycles }
    {
        RowLayer {
            cm,
            asked,
            fresh,
            m,
            cycles,
        }
    }
}

impl<'a> RowGroups for RowLayer<'a> {
    ghost groups = { λ l. l };

    fn lay(&self, into: &mut [u8]) {
        let mut runner = Runner::at(self.cm, self.asked);
        let runs = goes_by_runs(self.cm, self.m);
        lay_groups(&mut runner, self.fresh, self.m, self.cycles, runs, into);
    }
}

// Whether it is best to lay out groups of `m` bytes by runs where so many are data. The frame is the same.
fn goes_by_runs(cm: u32, m: usize) -> bool {
    cm >= if m == 1 { BY_RUNS_OF_BYTES } else { BY_RUNS }
}
