// Entries of plans.
ghost use Rattle.std.specs.Prelude.{◌≡◌, IfOk, map};
ghost use Rattle.serde_json.specs.View.{view};
ghost use Rattle.network_json.specs.NetworkJson.{leg_data, list_data};

use crate::ends::{value_of_from, value_of_to};
use network_view::{Leg, NamedNetwork, word_of_kind};
use otn_base::Memory;
use serde_json::{Map, Value, put};
use std::alloc::Global;

/// An entry: its node, its name, what it carries, its ends, and its first and last turn.
#[tactic(auto, unfolding(crate::specs::NetworkJson::leg_data))]
pub(crate) fn value_of_leg(alloc: Global, named: &NamedNetwork, leg: &Leg) -> Result<Value, Memory>
    ensures { IfOk result (λ value. view value ≡ leg_data named.now leg.now) }
{
    let x = leg.entry();
    let name = Value::try_from_str(alloc, x.name.as_str())?;
    let from = value_of_from(alloc, &x.from)?;
    let kind = Value::try_from_str(alloc, word_of_kind(x.kind))?;
    let node = Value::try_from_str(alloc, named.name(leg.node()))?;
    let to = value_of_to(alloc, &x.to)?;
    let mut map = Map::new(alloc);
    put(&mut map, alloc, "connection", name)?;
    put(&mut map, alloc, "from", from)?;
    put(&mut map, alloc, "kind", kind)?;
    put(&mut map, alloc, "node", node)?;
    put(&mut map, alloc, "start", Value::from(x.start))?;
    put(&mut map, alloc, "stop", Value::from(x.stop))?;
    put(&mut map, alloc, "to", to)?;
    Ok(Value::from(map))
}

/// These entries as a list.
pub(crate) fn value_of_legs(
    alloc: Global,
    named: &NamedNetwork,
    legs: &[Leg],
) -> Result<Value, Memory>
    ensures { IfOk result (λ value. view value ≡ list_data (map (leg_data named.now) legs.now)) }
{
    let mut list = Vec::new(alloc);
    for leg in legs {
        let value = value_of_leg(alloc, named, leg)?;
        list.push(value)?;
    }
    Ok(Value::from(list))
}
