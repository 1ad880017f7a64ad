// The rules of cuts: of their fibres and their turns.
ghost use Rattle.std.specs.Prelude.{◌≡◌};
ghost use Rattle.plan_file.specs.Places.{first, places};
ghost use Rattle.network_file.specs.Rules.{are_turns, breaks_turns, lacks_fibre};

use crate::lists::item;
use crate::outline::Cut;
use otn_base::limits::MOST_TURNS;
use plan_table::is_within;

/// The number of the first cut that names none of so many fibres.
#[tactic(auto, using(plan_file::proofs::Steps::singles))]
pub(crate) fn first_without_fibre(count: usize, cuts: &[Cut]) -> Option<usize>
    ensures { result ≡ first (places (lacks_fibre count) cuts.now) }
{
    for i in 0..cuts.len() {
        if lacks_fibre(count, item(cuts, i)) {
            return Some(i + 1);
        }
    }
    None
}

/// The number of the first cut whose turns are none.
#[tactic(auto, using(plan_file::proofs::Steps::singles))]
pub(crate) fn first_of_no_turns(cuts: &[Cut]) -> Option<usize>
    ensures { result ≡ first (places breaks_turns cuts.now) }
{
    for i in 0..cuts.len() {
        if breaks_turns(item(cuts, i)) {
            return Some(i + 1);
        }
    }
    None
}

fn lacks_fibre(count: usize, cut: &Cut) -> bool
    ensures { result ≡ lacks_fibre count cut.now }
{
    !is_within(cut.fibre, 1, count as u128)
}

fn breaks_turns(cut: &Cut) -> bool
    ensures { result ≡ breaks_turns cut.now }
{
    match cut.turns {
        Some((from, until)) => !are_turns(from, until),
        None => true,
    }
}

fn are_turns(from: i64, until: i64) -> bool
    ensures { result ≡ are_turns from until }
{
    is_within(from, 0, MOST_TURNS as u128)
        && is_within(until, 0, MOST_TURNS as u128)
        && from < until
}
