// The first rule of a network's values that is broken.
ghost use Rattle.std.specs.Prelude.{◌≡◌};
ghost use Rattle.network_file.specs.Places.{first_broken};
ghost use Rattle.network_file.specs.Refusal.{value_place, value_refusal};
ghost use Rattle.network_file.specs.Rules.{has_too_many};

use crate::error::NetworkError;
use crate::limits::{MOST_CUTS, MOST_FIBRES, MOST_NODES};
use crate::outline::Outline;
use crate::place::{Place, at_cut, at_fibre, at_node, at_top};
use crate::rules::cuts::{first_of_no_turns, first_without_fibre};
use crate::rules::fibres::{first_line_twice, first_without_line, first_without_node};
use crate::rules::names::{first_bad_name, first_name_twice};

// The rules, in their order.
const VALUE_RULES: [NetworkError; 8] = [
    NetworkError::TooMany,
    NetworkError::BadName,
    NetworkError::NameTwice,
    NetworkError::NoSuchNode,
    NetworkError::NoSuchLine,
    NetworkError::LineTwice,
    NetworkError::NoSuchFibre,
    NetworkError::BadTurns,
];

/// The first of the rules that the outline breaks, with its first place.
pub(crate) fn fault(outline: &Outline) -> Option<(NetworkError, Place)>
    ensures { result ≡ value_refusal outline.now }
{
    first_of(&VALUE_RULES, outline)
}

// The first of these rules that is broken, with its first place.
fn first_of(rules: &[NetworkError], outline: &Outline) -> Option<(NetworkError, Place)>
    ensures { result ≡ first_broken (value_place outline.now) rules.now }
{
    for rule in rules {
        if let Some(place) = value_place(*rule, outline) {
            return Some((*rule, place));
        }
    }
    None
}

// The first place where the rule is broken.
fn value_place(rule: NetworkError, outline: &Outline) -> Option<Place>
    ensures { result ≡ value_place outline.now rule }
{
    match rule {
        NetworkError::TooMany => at_top(has_too_many(outline)),
        NetworkError::BadName => at_node(first_bad_name(&outline.nodes)),
        NetworkError::NameTwice => at_node(first_name_twice(&outline.nodes)),
        NetworkError::NoSuchNode => {
            at_fibre(first_without_node(&outline.nodes, &outline.fibres))
        }
        NetworkError::NoSuchLine => at_fibre(first_without_line(&outline.fibres)),
        NetworkError::LineTwice => at_fibre(first_line_twice(&outline.fibres)),
        NetworkError::NoSuchFibre => {
            at_cut(first_without_fibre(outline.fibres.len(), &outline.cuts))
        }
        NetworkError::BadTurns => at_cut(first_of_no_turns(&outline.cuts)),
        _ => None,
    }
}

fn has_too_many(outline: &Outline) -> bool
    ensures { result ≡ has_too_many outline.now }
{
    outline.nodes.len() == 0
        || outline.nodes.len() > MOST_NODES
        || outline.fibres.len() > MOST_FIBRES
        || outline.cuts.len() > MOST_CUTS
}
