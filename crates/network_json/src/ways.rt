// The ways of a network.
ghost use Rattle.std.specs.Prelude.{◌≡◌, ◌∷◌, ◌++◌, IfOk, flat_map, length, map};
ghost use Rattle.serde_json.specs.Data.{number, unsigned};
ghost use Rattle.serde_json.specs.View.{view};
ghost use Rattle.network_laws.specs.Routes.{last_leg};
ghost use Rattle.network_view.specs.Ways.{way_at};
ghost use Rattle.network_json.specs.NetworkJson.{leg_data, list_data, turns_data, way_by, way_data};
ghost use Rattle.network_json.specs.Steps.Entries.{ways_of_entries};

use crate::ends::{value_of_begin, value_of_end};
use crate::entries::value_of_legs;
use crate::lists::add;
use network_view::{
    Leg, NamedNetwork, is_in_step, is_taken, last_of, turns_later, turns_left, way_nodes, way_to,
    word_of_kind,
};
use otn_base::Memory;
use plan_file::{Connection, ToEnd};
use serde_json::{Map, Value, put};
use std::alloc::Global;

/// The ways that end at these entries, of which the network has no more.
pub(crate) fn value_of_ways(
    alloc: Global,
    named: &NamedNetwork,
    legs: &[Leg],
) -> Result<Value, Memory>
    ensures { IfOk result (λ value. view value
        ≡ list_data (map (way_data named.now) (flat_map (way_at named.now.network (length legs.now)) legs.now))) }
{
    let mut list = Vec::new(alloc);
    for end in legs {
        add_way(alloc, named, legs.len(), end, &mut list)?;
    }
    Ok(Value::from(list))
}

// Appends the way that ends at this entry, if one does.
fn add_way(
    alloc: Global,
    named: &NamedNetwork,
    most: usize,
    end: &Leg,
    list: &mut Vec<Value>,
) -> Result<(), Memory>
    ensures { IfOk result (λ _. map view list.new.items
        ≡ map view list.old.items ++ map (way_data named.now) (way_at named.now.network most end.now)) }
{
    if is_taken(named, end) {
        return Ok(());
    }
    let Some(way) = way_to(alloc, named, most, end)? else {
        return Ok(());
    };
    add_entries(alloc, named, way.as_slice(), list)?;
    Ok(())
}

// Appends the way of these entries; nothing where there are none.
#[tactic(auto, using(crate::proofs::Added::none_after))]
fn add_entries(
    alloc: Global,
    named: &NamedNetwork,
    way: &[Leg],
    list: &mut Vec<Value>,
) -> Result<(), Memory>
    ensures { IfOk result (λ _. map view list.new.items
        ≡ map view list.old.items ++ ways_of_entries named.now way.now) }
{
    let [first, rest @ ..] = way else {
        return Ok(());
    };
    let legs = value_of_legs(alloc, named, way)?;
    let value = value_of_way(alloc, named, first, rest, legs)?;
    add(list, value)?;
    Ok(())
}

// A way of these entries, with the list of them.
#[tactic(auto, unfolding(crate::specs::NetworkJson::way_by))]
fn value_of_way(
    alloc: Global,
    named: &NamedNetwork,
    first: &Leg,
    rest: &[Leg],
    legs: Value,
) -> Result<Value, Memory>
    requires { view legs ≡ list_data (map (leg_data named.now) (first.now ∷ rest.now)) }
    ensures { IfOk result (λ value. view value
        ≡ way_by named.now first.now (last_leg first.now rest.now) rest.now) }
{
    let last = last_of(first, rest);
    let (x, y) = (first.entry(), last.entry());
    let begin = value_of_begin(alloc, named, first.node(), &x.from)?;
    let end = value_of_end(alloc, named, last.node(), &y.to)?;
    let kind = Value::try_from_str(alloc, word_of_kind(x.kind))?;
    let in_step = is_in_step(first, rest);
    let later = number_of(turns_later(rest.len()))?;
    let nodes = number_of(way_nodes(rest.len()))?;
    let turns = value_of_turns(x, y, rest.len())?;
    let mut map = Map::new(alloc);
    put(&mut map, alloc, "begin", begin)?;
    put(&mut map, alloc, "end", end)?;
    put(&mut map, alloc, "in_step", Value::from(in_step))?;
    put(&mut map, alloc, "kind", kind)?;
    put(&mut map, alloc, "later", Value::from(later))?;
    put(&mut map, alloc, "legs", legs)?;
    put(&mut map, alloc, "nodes", Value::from(nodes))?;
    put(&mut map, alloc, "turns", turns)?;
    Ok(Value::from(map))
}

// In how many turns what a client sends comes in time, of a way of so many nodes after its first.
fn value_of_turns(first: &Connection, last: &Connection, behind: usize) -> Result<Value, Memory>
    ensures { IfOk result (λ value. view value ≡ turns_data first.now.start last.now.stop behind last.now.to) }
{
    match last.to {
        ToEnd::Line(..) => Ok(Value::Null),
        ToEnd::Client(_) => value_of_count(turns_left(first.start, last.stop, behind)),
    }
}

fn value_of_count(count: u128) -> Result<Value, Memory>
    ensures { IfOk result (λ value. view value ≡ number (unsigned count)) }
{
    Ok(Value::from(number_of(count)?))
}

// A count of at most 64 bits. A way of more entries than that does not fit the memory.
fn number_of(count: u128) -> Result<u64, Memory>
    ensures { IfOk result (λ number. number ≡ count) }
{
    match u64::try_from(count) {
        Ok(number) => Ok(number),
        Err(_) => Err(Memory),
    }
}
