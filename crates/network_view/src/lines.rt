// The lines of the text.
ghost use Rattle.std.specs.Prelude.{◌≡◌, ◌+◌, ◌-◌, ◌*◌, IfOk, length, string_bytes};
ghost use Rattle.network_laws.specs.Routes.{last_leg};
ghost use Rattle.network_view.specs.NetworkText.{begin_at, end_at, ends_text, entry_text, fibre_ends, fibre_line, fibre_text, form_text, leg_line, line_at, numbered, round_line, slots_use, trouble_line, unmet_line, untaken_line, way_head, way_load, way_turns};
ghost use Rattle.network_view.specs.Slots.{line_slots};
ghost use Rattle.network_view.specs.Steps.Traced.{way_lines_of};
ghost use Rattle.network_view.specs.Ways.{is_in_step};

use crate::named::{Leg, NamedNetwork};
use crate::slots::{free_slots, kind_out};
use crate::trouble::{is_round, is_unmet, is_untaken, why};
use crate::words::{
    text_of_begin, text_of_end, text_of_from, text_of_numbers, text_of_to, text_of_turns,
    word_of_kind, word_of_line_kind, word_of_mask, word_of_step, word_of_why,
};
use network_parts::FibreEnds;
use otn_base::Memory;
use plan_file::{Connection, Plan};
use std::alloc::{AllocError, Global};
use turn_pieces::has_number;

/// The line of fibre `number`; none where it begins at no node.
pub(crate) fn line_of_fibre(
    alloc: Global,
    named: &NamedNetwork,
    number: usize,
    f: &FibreEnds,
) -> Result<String, Memory>
    ensures { IfOk result (λ text. string_bytes text ≡ fibre_line named.now number f.now) }
{
    match named.plans().get(f.from_node()) {
        Some(plan) => text_of_fibre(alloc, named, number, f, plan),
        None => Ok(String::new(alloc)),
    }
}

#[tactic(auto, unfolding(crate::specs::NetworkText::fibre_text))]
fn text_of_fibre(
    alloc: Global,
    named: &NamedNetwork,
    number: usize,
    f: &FibreEnds,
    plan: &Plan,
) -> Result<String, Memory>
    ensures { IfOk result (λ text. string_bytes text ≡ fibre_text named.now number f.now plan.now) }
{
    let ends = text_of_ends(alloc, named, f)?;
    let form = text_of_form(alloc, plan, f.from_line())?;
    let slots = text_of_slots(alloc, plan, f.from_line())?;
    Ok(format!(in alloc; "fibre {number} {ends} {form} {slots}\n")?)
}

// The ends of a fibre.
#[tactic(auto, unfolding(crate::specs::NetworkText::fibre_ends))]
fn text_of_ends(alloc: Global, named: &NamedNetwork, f: &FibreEnds) -> Result<String, Memory>
    ensures { IfOk result (λ text. string_bytes text ≡ fibre_ends named.now f.now) }
{
    let from = text_of_line_at(alloc, named, f.from_node(), f.from_line())?;
    let to = text_of_line_at(alloc, named, f.to_node(), f.to_line())?;
    Ok(format!(in alloc; "{from} {to}")?)
}

// A line of a node.
#[tactic(auto, unfolding(crate::specs::NetworkText::line_at))]
fn text_of_line_at(
    alloc: Global,
    named: &NamedNetwork,
    node: usize,
    line: u8,
) -> Result<String, Memory>
    ensures { IfOk result (λ text. string_bytes text ≡ line_at named.now node line) }
{
    let name = named.name(node);
    Ok(format!(in alloc; "{name} {line}")?)
}

// The form of a line output of the plan.
#[tactic(auto, unfolding(crate::specs::NetworkText::form_text))]
fn text_of_form(alloc: Global, plan: &Plan, line: u8) -> Result<String, Memory>
    ensures { IfOk result (λ text. string_bytes text ≡ form_text plan.now line) }
{
    let kind = word_of_line_kind(kind_out(plan, line));
    let mask = word_of_mask(has_number(plan.scrambled_out.as_slice(), line));
    Ok(format!(in alloc; "{kind} {mask}")?)
}

// How many of its slots some connection has, and those that none has.
#[tactic(auto, unfolding(crate::specs::NetworkText::slots_use))]
fn text_of_slots(alloc: Global, plan: &Plan, line: u8) -> Result<String, Memory>
    ensures { IfOk result (λ text. string_bytes text ≡ slots_use plan.now line) }
{
    let free = free_slots(alloc, plan, line)?;
    let used = used_of(plan, line, free.as_slice());
    let slots = text_of_numbers(alloc, free.as_slice())?;
    Ok(format!(in alloc; "used {used} free {slots}")?)
}

/// How many slots of line output `line` of the plan are left beside these.
pub fn used_of(plan: &Plan, line: u8, free: &[u8]) -> usize
    ensures { result ≡ line_slots plan.now line - length free.now }
{
    (kind_out(plan, line).slots() as usize).saturating_sub(free.len())
}

/// The lines of way `number`, that goes by these entries.
pub(crate) fn lines_of_way(
    alloc: Global,
    named: &NamedNetwork,
    number: usize,
    way: &[Leg],
) -> Result<String, Memory>
    ensures { IfOk result (λ text. string_bytes text ≡ way_lines_of named.now number way.now) }
{
    let [first, rest @ ..] = way else {
        return Ok(String::new(alloc));
    };
    let head = line_of_way(alloc, named, number, first, rest)?;
    let legs = lines_of_legs(alloc, named, number, way)?;
    Ok(format!(in alloc; "{head}{legs}")?)
}

#[tactic(auto, unfolding(crate::specs::NetworkText::way_text))]
fn line_of_way(
    alloc: Global,
    named: &NamedNetwork,
    number: usize,
    first: &Leg,
    rest: &[Leg],
) -> Result<String, Memory>
    ensures { IfOk result (λ text. string_bytes text
        ≡ way_head named.now number (record { first = first.now; rest = rest.now })) }
{
    let last = last_of(first, rest);
    let begin = text_of_begin_at(alloc, named, first)?;
    let end = text_of_end_at(alloc, named, last)?;
    let load = text_of_load(alloc, first, last, rest)?;
    Ok(format!(in alloc; "way {number} {begin} {end} kind {load}\n")?)
}

// Where a way begins.
#[tactic(auto, unfolding(crate::specs::NetworkText::begin_at))]
fn text_of_begin_at(alloc: Global, named: &NamedNetwork, first: &Leg) -> Result<String, Memory>
    ensures { IfOk result (λ text. string_bytes text ≡ begin_at named.now first.now) }
{
    let node = named.name(first.node());
    let begin = text_of_begin(alloc, &first.entry().from)?;
    Ok(format!(in alloc; "{node} {begin}")?)
}

// Where a way ends.
#[tactic(auto, unfolding(crate::specs::NetworkText::end_at))]
fn text_of_end_at(alloc: Global, named: &NamedNetwork, last: &Leg) -> Result<String, Memory>
    ensures { IfOk result (λ text. string_bytes text ≡ end_at named.now last.now) }
{
    let node = named.name(last.node());
    let end = text_of_end(alloc, &last.entry().to)?;
    Ok(format!(in alloc; "{node} {end}")?)
}

// What a way carries, its turns, and whether it is in step.
#[tactic(auto, unfolding(crate::specs::NetworkText::way_load))]
fn text_of_load(alloc: Global, first: &Leg, last: &Leg, rest: &[Leg]) -> Result<String, Memory>
    ensures { IfOk result (λ text. string_bytes text ≡ way_load first.now last.now rest.now) }
{
    let kind = word_of_kind(first.entry().kind);
    let turns = text_of_way_turns(alloc, first, last, rest.len())?;
    let step = word_of_step(is_in_step(first, rest));
    Ok(format!(in alloc; "{kind} {turns} {step}")?)
}

// The nodes and turns of a way with so many nodes behind its first.
#[tactic(auto, unfolding(crate::specs::NetworkText::way_turns))]
fn text_of_way_turns(
    alloc: Global,
    first: &Leg,
    last: &Leg,
    behind: usize,
) -> Result<String, Memory>
    ensures { IfOk result (λ text. string_bytes text ≡ way_turns first.now last.now behind) }
{
    let nodes = way_nodes(behind);
    let later = turns_later(behind);
    let turns = text_of_turns(alloc, first.entry(), last.entry(), behind)?;
    Ok(format!(in alloc; "nodes {nodes} later {later} turns {turns}")?)
}

/// The nodes of a way with so many after its first.
pub fn way_nodes(behind: usize) -> u128
    ensures { result ≡ 1 + behind }
{
    1 + behind as u128
}

/// How many turns later what a client sends is at the end of a way of so many nodes after its first.
pub fn turns_later(behind: usize) -> u128
    ensures { result ≡ 1 + 3 * behind }
{
    1 + 3 * behind as u128
}

/// The last entry of a way.
pub fn last_of<'b, 'a>(first: &'b Leg<'a>, rest: &'b [Leg<'a>]) -> &'b Leg<'a>
    ensures { result.now ≡ last_leg first.now rest.now }
{
    if rest.is_empty() {
        return first;
    }
    &rest[rest.len() - 1]
}

/// Whether all entries of a way begin with the same turn.
pub fn is_in_step(first: &Leg, rest: &[Leg]) -> bool
    ensures { result ≡ is_in_step first.now rest.now }
{
    let start = first.entry().start;
    rest.iter().all(|leg| leg.entry().start == start)
}

// The lines of these entries of a way.
fn lines_of_legs(
    alloc: Global,
    named: &NamedNetwork,
    way: usize,
    legs: &[Leg],
) -> Result<String, Memory>
    ensures { IfOk result (λ text. string_bytes text ≡ numbered (leg_line named.now way) 1 legs.now) }
{
    let mut text = String::new(alloc);
    for i in 0..legs.len() {
        let line = line_of_leg(alloc, named, way, i + 1, &legs[i])?;
        text.push_str(&line)?;
    }
    Ok(text)
}

#[tactic(auto, unfolding(crate::specs::NetworkText::leg_line))]
fn line_of_leg(
    alloc: Global,
    named: &NamedNetwork,
    way: usize,
    number: usize,
    leg: &Leg,
) -> Result<String, Memory>
    ensures { IfOk result (λ text. string_bytes text ≡ leg_line named.now way number leg.now) }
{
    let entry = text_of_entry(alloc, named, leg)?;
    Ok(format!(in alloc; "leg {way} {number} {entry}\n")?)
}

// An entry: its node, its name and its ends.
#[tactic(auto, unfolding(crate::specs::NetworkText::entry_text))]
fn text_of_entry(alloc: Global, named: &NamedNetwork, leg: &Leg) -> Result<String, Memory>
    ensures { IfOk result (λ text. string_bytes text ≡ entry_text named.now leg.now) }
{
    let node = named.name(leg.node());
    let name = leg.entry().name.as_str();
    let ends = text_of_entry_ends(alloc, leg.entry())?;
    Ok(format!(in alloc; "{node} {name} {ends}")?)
}

// The ends of an entry.
#[tactic(auto, unfolding(crate::specs::NetworkText::ends_text))]
fn text_of_entry_ends(alloc: Global, x: &Connection) -> Result<String, Memory>
    ensures { IfOk result (λ text. string_bytes text ≡ ends_text x.now) }
{
    let from = text_of_from(alloc, &x.from)?;
    let to = text_of_to(alloc, &x.to)?;
    Ok(format!(in alloc; "{from} {to}")?)
}

/// What is amiss with an entry of a network.
#[derive(Clone, Copy, Debug, PartialEq, Eq)]
pub enum Trouble {
    /// None goes on in it, where a fibre leads to its line.
    Unmet,
    /// It goes on in none, where a fibre begins at its line.
    Untaken,
    /// The way to it has no beginning.
    Round,
}

/// The line that says that this is amiss with an entry; none where it is not.
pub(crate) fn line_of_trouble(
    alloc: Global,
    named: &NamedNetwork,
    most: usize,
    trouble: Trouble,
    leg: &Leg,
) -> Result<String, Memory>
    ensures { IfOk result (λ text. string_bytes text ≡ trouble_line named.now most trouble leg.now) }
{
    match trouble {
        Trouble::Unmet => line_of_unmet(alloc, named, leg),
        Trouble::Untaken => line_of_untaken(alloc, named, leg),
        Trouble::Round => line_of_round(alloc, named, most, leg),
    }
}

#[tactic(auto, unfolding(crate::specs::NetworkText::unmet_line))]
fn line_of_unmet(alloc: Global, named: &NamedNetwork, leg: &Leg) -> Result<String, Memory>
    ensures { IfOk result (λ text. string_bytes text ≡ unmet_line named.now leg.now) }
{
    if !is_unmet(named, leg) {
        return Ok(String::new(alloc));
    }
    let node = named.name(leg.node());
    let name = leg.entry().name.as_str();
    let word = word_of_why(why(named, leg));
    Ok(format!(in alloc; "unmet {node} {name} {word}\n")?)
}

#[tactic(auto, unfolding(crate::specs::NetworkText::untaken_line))]
fn line_of_untaken(alloc: Global, named: &NamedNetwork, leg: &Leg) -> Result<String, Memory>
    ensures { IfOk result (λ text. string_bytes text ≡ untaken_line named.now leg.now) }
{
    if !is_untaken(named, leg) {
        return Ok(String::new(alloc));
    }
    let node = named.name(leg.node());
    let name = leg.entry().name.as_str();
    Ok(format!(in alloc; "untaken {node} {name}\n")?)
}

#[tactic(auto, unfolding(crate::specs::NetworkText::round_line))]
fn line_of_round(
    alloc: Global,
    named: &NamedNetwork,
    most: usize,
    leg: &Leg,
) -> Result<String, Memory>
    ensures { IfOk result (λ text. string_bytes text ≡ round_line named.now most leg.now) }
{
    if !is_round(alloc, named, most, leg)? {
        return Ok(String::new(alloc));
    }
    let node = named.name(leg.node());
    let name = leg.entry().name.as_str();
    Ok(format!(in alloc; "round {node} {name}\n")?)
}
