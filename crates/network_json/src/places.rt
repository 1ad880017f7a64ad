// Nodes and fibres.
ghost use Rattle.std.specs.Prelude.{◌≡◌, ◌∷◌, ◌++◌, ◌-◌, [], IfOk, flat_map, length, map};
ghost use Rattle.serde_json.specs.Data.{boolean, string};
ghost use Rattle.serde_json.specs.View.{view};
ghost use Rattle.device_model.specs.Entries.{form_out};
ghost use Rattle.network_view.specs.Slots.{free_slots, line_slots};
ghost use Rattle.network_view.specs.Words.{line_kind_word};
ghost use Rattle.network_json.specs.NetworkJson.{count, fibre_at, fibre_data, list_data, name_data, node_data, nodes_from};

use crate::ends::{value_of_line, value_of_numbers};
use crate::lists::add;
use network_view::{FibreEnds, NamedNetwork, free_slots, kind_out, used_of, word_of_line_kind};
use otn_base::Memory;
use plan_file::{Connection, Plan};
use serde_json::{Map, Value, put};
use std::alloc::Global;
use turn_pieces::has_number;

/// The nodes of a network.
pub(crate) fn value_of_nodes(alloc: Global, named: &NamedNetwork) -> Result<Value, Memory>
    ensures { IfOk result (λ value. view value ≡ list_data (nodes_from named.now 0 named.now.network.plans)) }
{
    let plans = named.plans();
    let mut list = Vec::new(alloc);
    for node in 0..plans.len() {
        let value = value_of_node(alloc, named, node, &plans[node])?;
        list.push(value)?;
    }
    Ok(Value::from(list))
}

// A node: the names of its entries, its name, and how many turns it runs.
#[tactic(auto, unfolding(crate::specs::NetworkJson::node_data))]
fn value_of_node(
    alloc: Global,
    named: &NamedNetwork,
    node: usize,
    plan: &Plan,
) -> Result<Value, Memory>
    ensures { IfOk result (λ value. view value ≡ node_data named.now node plan.now) }
{
    let names = value_of_names(alloc, plan.connections.as_slice())?;
    let name = Value::try_from_str(alloc, named.name(node))?;
    let mut map = Map::new(alloc);
    put(&mut map, alloc, "connections", names)?;
    put(&mut map, alloc, "name", name)?;
    put(&mut map, alloc, "turns", Value::from(plan.turns))?;
    Ok(Value::from(map))
}

// The names of these entries.
fn value_of_names(alloc: Global, entries: &[Connection]) -> Result<Value, Memory>
    ensures { IfOk result (λ value. view value ≡ list_data (map name_data entries.now)) }
{
    let mut list = Vec::new(alloc);
    for x in entries {
        list.push(Value::try_from_str(alloc, x.name.as_str())?)?;
    }
    Ok(Value::from(list))
}

/// The fibres of a network.
pub(crate) fn value_of_fibres(alloc: Global, named: &NamedNetwork) -> Result<Value, Memory>
    ensures { IfOk result (λ value. view value
        ≡ list_data (flat_map (fibre_at named.now) named.now.network.fibres)) }
{
    let fibres = named.fibres();
    let mut list = Vec::new(alloc);
    for f in fibres {
        add_fibre(alloc, named, f, &mut list)?;
    }
    Ok(Value::from(list))
}

// Appends what is told of a fibre; nothing where it begins at no node.
#[tactic(auto, using(crate::proofs::Added::none_after))]
fn add_fibre(
    alloc: Global,
    named: &NamedNetwork,
    f: &FibreEnds,
    list: &mut Vec<Value>,
) -> Result<(), Memory>
    ensures { IfOk result (λ _. map view list.new.items ≡ map view list.old.items ++ fibre_at named.now f.now) }
{
    match named.plans().get(f.from_node()) {
        Some(plan) => add_of_plan(alloc, named, f, plan, list),
        None => Ok(()),
    }
}

// Appends what is told of a fibre whose line output is one of this plan.
fn add_of_plan(
    alloc: Global,
    named: &NamedNetwork,
    f: &FibreEnds,
    plan: &Plan,
    list: &mut Vec<Value>,
) -> Result<(), Memory>
    ensures { IfOk result (λ _. map view list.new.items
        ≡ map view list.old.items ++ fibre_data named.now f.now plan.now ∷ []) }
{
    let value = value_of_fibre(alloc, named, f, plan)?;
    add(list, value)?;
    Ok(())
}

#[tactic(auto, unfolding(crate::specs::NetworkJson::fibre_data))]
fn value_of_fibre(
    alloc: Global,
    named: &NamedNetwork,
    f: &FibreEnds,
    plan: &Plan,
) -> Result<Value, Memory>
    ensures { IfOk result (λ value. view value ≡ fibre_data named.now f.now plan.now) }
{
    let line = f.from_line();
    let free = value_of_free(alloc, plan, line)?;
    let from = value_of_line(alloc, named, f.from_node(), line)?;
    let kind = value_of_kind(alloc, plan, line)?;
    let to = value_of_line(alloc, named, f.to_node(), f.to_line())?;
    let used = value_of_used(alloc, plan, line)?;
    let mut map = Map::new(alloc);
    put(&mut map, alloc, "free", free)?;
    put(&mut map, alloc, "from", from)?;
    put(&mut map, alloc, "kind", kind)?;
    put(&mut map, alloc, "scrambled", value_of_mask(plan, line))?;
    put(&mut map, alloc, "slots", value_of_slots(plan, line))?;
    put(&mut map, alloc, "to", to)?;
    put(&mut map, alloc, "used", used)?;
    Ok(Value::from(map))
}

// The slots of a line that no connection has.
fn value_of_free(alloc: Global, plan: &Plan, line: u8) -> Result<Value, Memory>
    ensures { IfOk result (λ value. view value ≡ list_data (map count (free_slots plan.now line))) }
{
    let free = free_slots(alloc, plan, line)?;
    value_of_numbers(alloc, free.as_slice())
}

// The kind of a line (G.709 clause 19.1).
fn value_of_kind(alloc: Global, plan: &Plan, line: u8) -> Result<Value, Memory>
    ensures { IfOk result (λ value. view value ≡ string (line_kind_word (form_out plan.now line).kind)) }
{
    Ok(Value::try_from_str(alloc, word_of_line_kind(kind_out(plan, line)))?)
}

// Whether a line is scrambled (G.709 clause 11.2).
fn value_of_mask(plan: &Plan, line: u8) -> Value
    ensures { view result ≡ boolean (form_out plan.now line).scrambled }
{
    Value::from(has_number(plan.scrambled_out.as_slice(), line))
}

// How many slots a line has.
fn value_of_slots(plan: &Plan, line: u8) -> Value
    ensures { view result ≡ count (line_slots plan.now line) }
{
    Value::from(kind_out(plan, line).slots())
}

// How many of them some connection has.
fn value_of_used(alloc: Global, plan: &Plan, line: u8) -> Result<Value, Memory>
    ensures { IfOk result (λ value. view value
        ≡ count (line_slots plan.now line - length (free_slots plan.now line))) }
{
    let free = free_slots(alloc, plan, line)?;
    Ok(Value::from(used_of(plan, line, free.as_slice())))
}
