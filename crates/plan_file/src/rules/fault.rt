// The first rule of a plan's values that is broken.
ghost use Rattle.std.specs.Prelude.{◌≡◌, ◌≤◌, ◌++◌, IfSome, length};
ghost use Rattle.plan_file.specs.Answer.{fault_of};
ghost use Rattle.plan_file.specs.Places.{first, first_broken, later_places, places};
ghost use Rattle.plan_file.specs.PlanRules.{breaks_alone, breaks_whole, clashes, plan_places};
ghost use Rattle.plan_file.specs.Steps.Seen.{entries_in, outline_in, top_in};

use crate::error::PlanError;
use crate::outline::{Entries, Outline, Top};
use crate::rules::first::{first_clash, first_place};
use crate::rules::places::breaks_lines;
use otn_base::limits::{MOST_CONNECTIONS, MOST_TURNS};
use plan_table::is_within;

// The rules of each connection, and of two, by number.
const CONNECTION_RULES: [PlanError; 9] = [
    PlanError::BadName,
    PlanError::NameTwice,
    PlanError::BadPlace,
    PlanError::BadSlots,
    PlanError::SlotTwice,
    PlanError::PortTwice,
    PlanError::ClientTwice,
    PlanError::BadPace,
    PlanError::BadSpan,
];

/// The first rule that the plan breaks, with its place.
pub(crate) fn fault(outline: &Outline) -> Option<(PlanError, u32)>
    ensures { result ≡ fault_of (outline_in outline.now) }
{
    if breaks_whole(PlanError::Turns, outline) {
        return Some((PlanError::Turns, 0));
    }
    if breaks_whole(PlanError::TooMany, outline) {
        return Some((PlanError::TooMany, 0));
    }
    first_of(&CONNECTION_RULES, outline)
}

// The first of the rules that is broken, with its place.
fn first_of(rules: &[PlanError], outline: &Outline) -> Option<(PlanError, u32)>
    requires { length (outline_in outline.now).entries ≤ 48 }
    ensures { result ≡ first_broken (plan_places (outline_in outline.now)) rules.now }
{
    for rule in rules {
        if let Some(place) = place_of(*rule, outline) {
            return Some((*rule, place as u32));
        }
    }
    None
}

// The first place where the rule is broken.
fn place_of(rule: PlanError, outline: &Outline) -> Option<usize>
    ensures place { result ≡ first (plan_places (outline_in outline.now) rule) }
    ensures within { IfSome result (λ place. place ≤ length (outline_in outline.now).entries) }
{
    if breaks_whole(rule, outline) {
        Some(0)
    } else {
        place_in(rule, &outline.top, &outline.entries)
    }
}

// The first place where a connection breaks the rule, alone or with one before it.
#[tactic(auto, using(crate::proofs::Places::first_of_both))]
fn place_in(rule: PlanError, top: &Top, entries: &Entries) -> Option<usize>
    ensures place { result ≡ first (places (breaks_alone rule (top_in top.now)) (entries_in entries.now)
        ++ later_places (clashes rule) (entries_in entries.now)) }
    ensures within { IfSome result (λ place. place ≤ length (entries_in entries.now)) }
{
    match first_place(rule, top, entries) {
        Some(place) => Some(place),
        None => first_clash(rule, entries),
    }
}

fn breaks_whole(rule: PlanError, outline: &Outline) -> bool
    ensures { result ≡ breaks_whole rule (outline_in outline.now) }
{
    match rule {
        PlanError::Turns => !is_within(outline.top.turns, 1, MOST_TURNS as u128),
        PlanError::TooMany => outline.entries.len() > MOST_CONNECTIONS,
        PlanError::BadPlace => breaks_lines(&outline.top),
        _ => false,
    }
}
