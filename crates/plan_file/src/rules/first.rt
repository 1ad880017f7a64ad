// Where a rule is broken first.
ghost use Rattle.std.specs.Prelude.{◌≡◌, ◌+◌, ◌≤◌, IfSome, take, length};
ghost use Rattle.std.specs.List.{list_any};
ghost use Rattle.plan_file.specs.PlanRules.{breaks_alone, clashes};
ghost use Rattle.plan_file.specs.Places.{first, places, later_places};
ghost use Rattle.plan_file.specs.Steps.Seen.{entries_in, entry_in, top_in};

use crate::error::PlanError;
use crate::outline::{Entries, Entry, Top};
use crate::rules::names::breaks_name;
use crate::rules::pace::breaks_pace;
use crate::rules::pairs::{have_one_client, have_one_name, have_one_port, have_one_slot};
use crate::rules::places::breaks_place;
use crate::rules::slots::breaks_slots;
use crate::rules::span::breaks_span;

/// The place of the first connection that breaks the rule, in a plan with this top.
#[tactic(auto, using(crate::proofs::Steps::singles))]
pub(crate) fn first_place(rule: PlanError, top: &Top, entries: &Entries) -> Option<usize>
    ensures place { result ≡ first (places (breaks_alone rule (top_in top.now)) (entries_in entries.now)) }
    ensures within { IfSome result (λ place. place ≤ length (entries_in entries.now)) }
{
    for i in 0..entries.len() {
        if breaks_alone(rule, top, &entries.at(i)) {
            return Some(i + 1);
        }
    }
    None
}

/// The place of the first connection that clashes with one before it.
#[tactic(auto, using(crate::proofs::Steps::pairs))]
pub(crate) fn first_clash(rule: PlanError, entries: &Entries) -> Option<usize>
    ensures place { result ≡ first (later_places (clashes rule) (entries_in entries.now)) }
    ensures within { IfSome result (λ place. place ≤ length (entries_in entries.now)) }
{
    for i in 0..entries.len() {
        if clashes_before(rule, entries, i, &entries.at(i)) {
            return Some(i + 1);
        }
    }
    None
}

// Whether the connection clashes with one of the first so many.
#[tactic(auto, using(crate::proofs::Steps::anys, crate::proofs::Steps::slice_get_front, crate::proofs::Steps::length_front))]
fn clashes_before(rule: PlanError, entries: &Entries, count: usize, later: &Entry) -> bool
    requires { count ≤ length (entries_in entries.now) }
    ensures { result ≡ list_any (λ earlier. clashes rule earlier (entry_in later.now))
        (take count (entries_in entries.now)) }
{
    for i in 0..count {
        if clashes(rule, &entries.at(i), later) {
            return true;
        }
    }
    false
}

fn breaks_alone(rule: PlanError, top: &Top, entry: &Entry) -> bool
    ensures { result ≡ breaks_alone rule (top_in top.now) (entry_in entry.now) }
{
    match rule {
        PlanError::BadName => breaks_name(entry),
        PlanError::BadPlace => breaks_place(top, entry),
        PlanError::BadSlots => breaks_slots(top, entry),
        PlanError::BadPace => breaks_pace(entry),
        PlanError::BadSpan => breaks_span(top.turns, entry),
        _ => false,
    }
}

fn clashes(rule: PlanError, earlier: &Entry, later: &Entry) -> bool
    ensures { result ≡ clashes rule (entry_in earlier.now) (entry_in later.now) }
{
    match rule {
        PlanError::NameTwice => have_one_name(earlier, later),
        PlanError::SlotTwice => have_one_slot(earlier, later),
        PlanError::PortTwice => have_one_port(earlier, later),
        PlanError::ClientTwice => have_one_client(earlier, later),
        _ => false,
    }
}
