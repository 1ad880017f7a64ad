// Lines, clients and signals.
ghost use Rattle.std.specs.Prelude.{◌≡◌, IfOk, map};
ghost use Rattle.serde_json.specs.View.{view};
ghost use Rattle.network_view.specs.Words.{signal_word};
ghost use Rattle.network_json.specs.NetworkJson.{begin_data, client_data, count, end_data, from_data, line_data, list_data, made_data, port_data, signal_data, to_data, tributary_data};

use network_view::{NamedNetwork, word_of_line_kind, word_of_signal};
use otn_base::{Memory, Slots};
use plan_file::{FromEnd, ToEnd};
use serde_json::{Map, Value, json, put};
use std::alloc::Global;

/// The numbers as a list.
pub(crate) fn value_of_numbers(alloc: Global, numbers: &[u8]) -> Result<Value, Memory>
    ensures { IfOk result (λ value. view value ≡ list_data (map count numbers.now)) }
{
    let mut list = Vec::new(alloc);
    for number in numbers {
        list.push(Value::from(*number))?;
    }
    Ok(Value::from(list))
}

/// A line of a node.
#[tactic(auto, unfolding(crate::specs::NetworkJson::line_data))]
pub(crate) fn value_of_line(
    alloc: Global,
    named: &NamedNetwork,
    node: usize,
    line: u8,
) -> Result<Value, Memory>
    ensures { IfOk result (λ value. view value ≡ line_data named.now node line) }
{
    let name = named.name(node);
    Ok(json!(in alloc; {"line": line, "node": name})?)
}

// A client of a node.
#[tactic(auto, unfolding(crate::specs::NetworkJson::client_data))]
fn value_of_client(
    alloc: Global,
    named: &NamedNetwork,
    node: usize,
    client: u8,
) -> Result<Value, Memory>
    ensures { IfOk result (λ value. view value ≡ client_data named.now node client) }
{
    let name = named.name(node);
    Ok(json!(in alloc; {"client": client, "node": name})?)
}

// A signal that a node makes.
#[tactic(auto, unfolding(crate::specs::NetworkJson::signal_data))]
fn value_of_signal(
    alloc: Global,
    named: &NamedNetwork,
    node: usize,
    word: &str,
) -> Result<Value, Memory>
    ensures { IfOk result (λ value. view value ≡ signal_data named.now node word.now) }
{
    let name = named.name(node);
    Ok(json!(in alloc; {"node": name, "signal": word})?)
}

/// Where a way begins.
pub(crate) fn value_of_begin(
    alloc: Global,
    named: &NamedNetwork,
    node: usize,
    from: &FromEnd,
) -> Result<Value, Memory>
    ensures { IfOk result (λ value. view value ≡ begin_data named.now node from.now) }
{
    match from {
        FromEnd::Line(line, _, _) => value_of_line(alloc, named, node, *line),
        FromEnd::Client(client) => value_of_client(alloc, named, node, *client),
        FromEnd::Signal(signal) => value_of_signal(alloc, named, node, word_of_signal(*signal)),
    }
}

/// Where a way ends.
pub(crate) fn value_of_end(
    alloc: Global,
    named: &NamedNetwork,
    node: usize,
    to: &ToEnd,
) -> Result<Value, Memory>
    ensures { IfOk result (λ value. view value ≡ end_data named.now node to.now) }
{
    match to {
        ToEnd::Line(line, _, _) => value_of_line(alloc, named, node, *line),
        ToEnd::Client(client) => value_of_client(alloc, named, node, *client),
    }
}

// A tributary on a line.
#[tactic(auto, unfolding(crate::specs::NetworkJson::tributary_data))]
fn value_of_tributary(alloc: Global, line: u8, port: u8, slots: &Slots) -> Result<Value, Memory>
    ensures { IfOk result (λ value. view value ≡ tributary_data line port slots.now) }
{
    let kind = Value::try_from_str(alloc, word_of_line_kind(slots.kind()))?;
    let slots = value_of_numbers(alloc, slots.as_slice())?;
    let mut map = Map::new(alloc);
    put(&mut map, alloc, "kind", kind)?;
    put(&mut map, alloc, "line", Value::from(line))?;
    put(&mut map, alloc, "port", Value::from(port))?;
    put(&mut map, alloc, "slots", slots)?;
    Ok(Value::from(map))
}

#[tactic(auto, unfolding(crate::specs::NetworkJson::port_data))]
fn value_of_port(alloc: Global, client: u8) -> Result<Value, Memory>
    ensures { IfOk result (λ value. view value ≡ port_data client) }
{
    Ok(json!(in alloc; {"client": client})?)
}

#[tactic(auto, unfolding(crate::specs::NetworkJson::made_data))]
fn value_of_made(alloc: Global, word: &str) -> Result<Value, Memory>
    ensures { IfOk result (λ value. view value ≡ made_data word.now) }
{
    Ok(json!(in alloc; {"signal": word})?)
}

/// Where an entry comes from.
pub(crate) fn value_of_from(alloc: Global, from: &FromEnd) -> Result<Value, Memory>
    ensures { IfOk result (λ value. view value ≡ from_data from.now) }
{
    match from {
        FromEnd::Line(line, port, slots) => value_of_tributary(alloc, *line, *port, slots),
        FromEnd::Client(client) => value_of_port(alloc, *client),
        FromEnd::Signal(signal) => value_of_made(alloc, word_of_signal(*signal)),
    }
}

/// Where an entry goes.
pub(crate) fn value_of_to(alloc: Global, to: &ToEnd) -> Result<Value, Memory>
    ensures { IfOk result (λ value. view value ≡ to_data to.now) }
{
    match to {
        ToEnd::Line(line, port, slots) => value_of_tributary(alloc, *line, *port, slots),
        ToEnd::Client(client) => value_of_port(alloc, *client),
    }
}
