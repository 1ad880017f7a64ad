// The rules of keys and kinds, tried one after another.
ghost use Rattle.std.specs.Prelude.{◌≡◌, map};
ghost use Rattle.toml.specs.View.{table_view, view};
ghost use Rattle.plan_file.specs.Places.{first, places};
ghost use Rattle.std.specs.Option.{option_or};
ghost use Rattle.network_file.specs.Places.{at_cuts, at_fibres, first_broken};
ghost use Rattle.network_file.specs.Table.{cuts_at, fibres_at};
ghost use Rattle.network_file.specs.Refusal.{breaks_cut, breaks_fibre, breaks_node, breaks_top, table_place, table_rules};

use crate::error::NetworkError;
use crate::place::{Place, at_cut};
use crate::table::{
    cuts_at, fibres_at, has_cut_kinds, has_fibre_kinds, has_node_kinds, has_top_kinds,
    has_unknown_cut_key, has_unknown_fibre_key, has_unknown_node_key, has_unknown_top_key,
    lacks_cut_key, lacks_fibre_key, lacks_node_key, lacks_nodes, nodes_at,
};
use plan_table::item;
use toml::{Table, Value};

// The rules of keys and kinds, by number.
const TABLE_RULES: [NetworkError; 3] = [
    NetworkError::UnknownKey,
    NetworkError::MissingKey,
    NetworkError::WrongKind,
];

/// The first rule of keys and kinds that the table breaks, with its first place.
pub(crate) fn table_fault(top: &Table) -> Option<(NetworkError, Place)>
    ensures { result ≡ first_broken (table_place (table_view top.now)) table_rules }
{
    first_of(&TABLE_RULES, top)
}

// The first of these rules that is broken, with its first place.
fn first_of(rules: &[NetworkError], top: &Table) -> Option<(NetworkError, Place)>
    ensures { result ≡ first_broken (table_place (table_view top.now)) rules.now }
{
    for rule in rules {
        if let Some(place) = table_place(*rule, top) {
            return Some((*rule, place));
        }
    }
    None
}

// The first place where the rule is broken.
fn table_place(rule: NetworkError, top: &Table) -> Option<Place>
    ensures { result ≡ table_place (table_view top.now) rule }
{
    if breaks_top(rule, top) {
        return Some(Place::Top);
    }
    match first_node(rule, nodes_at(top)) {
        Some(number) => Some(Place::Node(number)),
        None => fibre_or_cut(rule, top),
    }
}

// The first fibre, or else the first cut, that breaks the rule.
fn fibre_or_cut(rule: NetworkError, top: &Table) -> Option<Place>
    ensures { result ≡ option_or (at_fibres (places (breaks_fibre rule) (fibres_at (table_view top.now))))
        (at_cuts (places (breaks_cut rule) (cuts_at (table_view top.now)))) }
{
    match first_fibre(rule, fibres_at(top)) {
        Some(number) => Some(Place::Fibre(number)),
        None => at_cut(first_cut(rule, cuts_at(top))),
    }
}

// The number of the first node that breaks the rule.
#[tactic(auto, using(plan_file::proofs::Steps::singles, plan_file::proofs::Lists::slice_get_known))]
fn first_node(rule: NetworkError, nodes: &[Value]) -> Option<usize>
    ensures { result ≡ first (places (breaks_node rule) (map view nodes.now)) }
{
    for i in 0..nodes.len() {
        if breaks_node(rule, item(nodes, i)) {
            return Some(i + 1);
        }
    }
    None
}

// The number of the first fibre that breaks the rule.
#[tactic(auto, using(plan_file::proofs::Steps::singles, plan_file::proofs::Lists::slice_get_known))]
fn first_fibre(rule: NetworkError, fibres: &[Value]) -> Option<usize>
    ensures { result ≡ first (places (breaks_fibre rule) (map view fibres.now)) }
{
    for i in 0..fibres.len() {
        if breaks_fibre(rule, item(fibres, i)) {
            return Some(i + 1);
        }
    }
    None
}

// The number of the first cut that breaks the rule.
#[tactic(auto, using(plan_file::proofs::Steps::singles, plan_file::proofs::Lists::slice_get_known))]
fn first_cut(rule: NetworkError, cuts: &[Value]) -> Option<usize>
    ensures { result ≡ first (places (breaks_cut rule) (map view cuts.now)) }
{
    for i in 0..cuts.len() {
        if breaks_cut(rule, item(cuts, i)) {
            return Some(i + 1);
        }
    }
    None
}

fn breaks_top(rule: NetworkError, top: &Table) -> bool
    ensures { result ≡ breaks_top rule (table_view top.now) }
{
    match rule {
        NetworkError::UnknownKey => has_unknown_top_key(top),
        NetworkError::MissingKey => lacks_nodes(top),
        NetworkError::WrongKind => !has_top_kinds(top),
        _ => false,
    }
}

fn breaks_node(rule: NetworkError, node: &Value) -> bool
    ensures { result ≡ breaks_node rule (view node.now) }
{
    match rule {
        NetworkError::UnknownKey => has_unknown_node_key(node),
        NetworkError::MissingKey => lacks_node_key(node),
        NetworkError::WrongKind => !has_node_kinds(node),
        _ => false,
    }
}

fn breaks_fibre(rule: NetworkError, fibre: &Value) -> bool
    ensures { result ≡ breaks_fibre rule (view fibre.now) }
{
    match rule {
        NetworkError::UnknownKey => has_unknown_fibre_key(fibre),
        NetworkError::MissingKey => lacks_fibre_key(fibre),
        NetworkError::WrongKind => !has_fibre_kinds(fibre),
        _ => false,
    }
}

fn breaks_cut(rule: NetworkError, cut: &Value) -> bool
    ensures { result ≡ breaks_cut rule (view cut.now) }
{
    match rule {
        NetworkError::UnknownKey => has_unknown_cut_key(cut),
        NetworkError::MissingKey => lacks_cut_key(cut),
        NetworkError::WrongKind => !has_cut_kinds(cut),
        _ => false,
    }
}
