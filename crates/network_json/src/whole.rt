// The whole value of a network, and how it is written.
ghost use Rattle.std.specs.Prelude.{◌≡◌, ◌==◌, ◌++◌, IfErr, IfOk, codes, false, flat_map, length, map, string_bytes};
ghost use Rattle.port_base.specs.PortViews.{sink_view};
ghost use Rattle.serde_json.specs.View.{view};
ghost use Rattle.serde_json.specs.Written.{compact_text, has_float};
ghost use Rattle.network_view.specs.NetworkText.{is_met};
ghost use Rattle.network_view.specs.Ways.{way_at};
ghost use Rattle.network_json.specs.NetworkJson.{TellsJson, network_by, network_data, troubles_in};

use crate::places::{value_of_fibres, value_of_nodes};
use crate::troubles::troubles_of;
use crate::ways::value_of_ways;
use network_view::{Leg, NamedNetwork, Told, answer_of, legs_of, word_of_status};
use otn_base::Memory;
use port_base::{Sink, Written, write_whole};
use serde_json::{Map, Value, put};
use std::alloc::Global;

/// What is told of a network as a value of JSON, and whether all meets: an object of `nodes`, `fibres`, `ways`,
/// `troubles`, `status` and the number of `connections`.
pub fn network_value(alloc: Global, named: &NamedNetwork) -> Result<(Value, bool), Memory>
    ensures value { IfOk result (λ told. view told.0 ≡ network_data named.now) }
    ensures met { IfOk result (λ told. told.1 ≡ is_met named.now) }
{
    let legs = legs_of(alloc, named)?;
    let troubles = troubles_of(alloc, named, legs.as_slice())?;
    let met = has_none(troubles.as_slice());
    let value = value_of_whole(alloc, named, legs.as_slice(), troubles, met)?;
    Ok((value, met))
}

// Whether the list is empty.
fn has_none(list: &[Value]) -> bool
    ensures { result ≡ (length list.now == 0) }
{
    list.is_empty()
}

// The value of a network with these entries, with which this is amiss.
#[tactic(auto, unfolding(crate::specs::NetworkJson::network_by))]
fn value_of_whole(
    alloc: Global,
    named: &NamedNetwork,
    legs: &[Leg],
    troubles: Vec<Value>,
    met: bool,
) -> Result<Value, Memory>
    requires troubles { map view troubles.items ≡ troubles_in named.now legs.now }
    requires met { met ≡ is_met named.now }
    ensures { IfOk result (λ value. view value
        ≡ network_by named.now legs.now (flat_map (way_at named.now.network (length legs.now)) legs.now)) }
{
    let fibres = value_of_fibres(alloc, named)?;
    let nodes = value_of_nodes(alloc, named)?;
    let status = Value::try_from_str(alloc, word_of_status(met))?;
    let ways = value_of_ways(alloc, named, legs)?;
    let mut map = Map::new(alloc);
    put(&mut map, alloc, "connections", Value::from(legs.len()))?;
    put(&mut map, alloc, "fibres", fibres)?;
    put(&mut map, alloc, "nodes", nodes)?;
    put(&mut map, alloc, "status", status)?;
    put(&mut map, alloc, "troubles", Value::from(troubles))?;
    put(&mut map, alloc, "ways", ways)?;
    Ok(Value::from(map))
}

/// Writes what is told of a network as one line of JSON. The line is made before the first write: for want of memory
/// nothing is written.
pub fn write_network_json<K: Sink>(
    alloc: Global,
    named: &NamedNetwork,
    report: &mut K,
) -> Result<Told, Memory>
    ensures memory { IfErr result (λ _. report.new ≡ report.old) }
    ensures told { IfOk result (λ told. TellsJson named.now told (sink_view K.Sink report.old)
        (sink_view K.Sink report.new)) }
{
    let told = network_value(alloc, named)?;
    let text = line_of(alloc, &told.0)?;
    match write_whole(report, text.as_bytes()) {
        Written::Lost => Ok(Told::ReportFault),
        Written::Whole => Ok(answer_of(told.1)),
    }
}

// A value that has no float as a line.
fn line_of(alloc: Global, value: &Value) -> Result<String, Memory>
    requires { has_float (view value.now) ≡ false }
    ensures { IfOk result (λ text. string_bytes text ≡ compact_text (view value.now) ++ codes "\n") }
{
    let json = value.to_string(alloc)?;
    Ok(format!(in alloc; "{json}\n")?)
}
