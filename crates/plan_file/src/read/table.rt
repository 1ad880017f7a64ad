// The rules of a table, tried one after another.
ghost use Rattle.std.specs.Prelude.{◌≡◌, map};
ghost use Rattle.toml.specs.View.{table_view, view};
ghost use Rattle.plan_file.specs.TableRules.{breaks_top, breaks_in_table, table_places, table_rules};
ghost use Rattle.plan_file.specs.Places.{first, first_broken, places};

use crate::error::PlanError;
use plan_table::{
    connections, has_kinds, has_top_kinds, has_unknown_key, has_unknown_top_key, item, lacks_key,
    lacks_turns,
};
use toml::{Table, Value};

// The rules of keys and kinds, by number.
const TABLE_RULES: [PlanError; 3] = [
    PlanError::UnknownKey,
    PlanError::MissingKey,
    PlanError::WrongKind,
];

/// The first rule of keys and kinds that the table breaks, with its place.
pub(crate) fn table_fault(top: &Table) -> Option<(PlanError, usize)>
    ensures { result ≡ first_broken (table_places (table_view top.now)) table_rules }
{
    first_of(&TABLE_RULES, top)
}

// The first of the rules that is broken, with its place.
fn first_of(rules: &[PlanError], top: &Table) -> Option<(PlanError, usize)>
    ensures { result ≡ first_broken (table_places (table_view top.now)) rules.now }
{
    for rule in rules {
        if let Some(place) = place_of(*rule, top) {
            return Some((*rule, place));
        }
    }
    None
}

// The first place where the rule is broken.
fn place_of(rule: PlanError, top: &Table) -> Option<usize>
    ensures { result ≡ first (table_places (table_view top.now) rule) }
{
    if breaks_top(rule, top) {
        Some(0)
    } else {
        first_place(rule, connections(top))
    }
}

#[tactic(auto, using(crate::proofs::Steps::singles, crate::proofs::Lists::slice_get_known))]
fn first_place(rule: PlanError, connections: &[Value]) -> Option<usize>
    ensures { result ≡ first (places (breaks_in_table rule) (map view connections.now)) }
{
    for i in 0..connections.len() {
        if breaks_in_table(rule, item(connections, i)) {
            return Some(i + 1);
        }
    }
    None
}

fn breaks_top(rule: PlanError, top: &Table) -> bool
    ensures { result ≡ breaks_top rule (table_view top.now) }
{
    match rule {
        PlanError::UnknownKey => has_unknown_top_key(top),
        PlanError::MissingKey => lacks_turns(top),
        PlanError::WrongKind => !has_top_kinds(top),
        _ => false,
    }
}

fn breaks_in_table(rule: PlanError, connection: &Value) -> bool
    ensures { result ≡ breaks_in_table rule (view connection.now) }
{
    match rule {
        PlanError::UnknownKey => has_unknown_key(connection),
        PlanError::MissingKey => lacks_key(connection),
        PlanError::WrongKind => !has_kinds(connection),
        _ => false,
    }
}
