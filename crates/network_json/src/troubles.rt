// What is amiss with entries.
ghost use Rattle.std.specs.Prelude.{◌≡◌, ◌++◌, IfOk, flat_map, length, map};
ghost use Rattle.serde_json.specs.View.{view};
ghost use Rattle.network_view.specs.Troubles.{is_round, is_unmet, is_untaken};
ghost use Rattle.network_json.specs.NetworkJson.{only_if, round_data, trouble_at, troubles_in, unmet_data, untaken_data};

use crate::entries::value_of_leg;
use crate::lists::add;
use network_view::{Leg, NamedNetwork, Trouble, is_round, is_unmet, is_untaken, why, word_of_why};
use otn_base::Memory;
use serde_json::{Map, Value, put};
use std::alloc::Global;

/// All that is amiss with these entries.
pub(crate) fn troubles_of(
    alloc: Global,
    named: &NamedNetwork,
    legs: &[Leg],
) -> Result<Vec<Value>, Memory>
    ensures { IfOk result (λ list. map view list.items ≡ troubles_in named.now legs.now) }
{
    let mut list = Vec::new(alloc);
    add_troubles(alloc, named, Trouble::Unmet, legs, &mut list)?;
    add_troubles(alloc, named, Trouble::Untaken, legs, &mut list)?;
    add_troubles(alloc, named, Trouble::Round, legs, &mut list)?;
    Ok(list)
}

// Appends the entries with which this is amiss.
fn add_troubles(
    alloc: Global,
    named: &NamedNetwork,
    trouble: Trouble,
    legs: &[Leg],
    list: &mut Vec<Value>,
) -> Result<(), Memory>
    ensures { IfOk result (λ _. map view list.new.items ≡ map view list.old.items
        ++ flat_map (trouble_at named.now (length legs.now) trouble) legs.now) }
{
    for leg in legs {
        add_trouble(alloc, named, legs.len(), trouble, leg, list)?;
    }
    Ok(())
}

// Appends the entry where this is amiss with it.
fn add_trouble(
    alloc: Global,
    named: &NamedNetwork,
    most: usize,
    trouble: Trouble,
    leg: &Leg,
    list: &mut Vec<Value>,
) -> Result<(), Memory>
    ensures { IfOk result (λ _. map view list.new.items ≡ map view list.old.items
        ++ trouble_at named.now most trouble leg.now) }
{
    match trouble {
        Trouble::Unmet => add_unmet(alloc, named, leg, list),
        Trouble::Untaken => add_untaken(alloc, named, leg, list),
        Trouble::Round => add_round(alloc, named, most, leg, list),
    }
}

#[tactic(auto, using(crate::proofs::Added::none_if))]
fn add_unmet(
    alloc: Global,
    named: &NamedNetwork,
    leg: &Leg,
    list: &mut Vec<Value>,
) -> Result<(), Memory>
    ensures { IfOk result (λ _. map view list.new.items ≡ map view list.old.items
        ++ only_if (is_unmet named.now.network leg.now) (unmet_data named.now leg.now)) }
{
    if !is_unmet(named, leg) {
        return Ok(());
    }
    let value = value_of_unmet(alloc, named, leg)?;
    add(list, value)?;
    Ok(())
}

#[tactic(auto, unfolding(crate::specs::NetworkJson::unmet_data))]
fn value_of_unmet(alloc: Global, named: &NamedNetwork, leg: &Leg) -> Result<Value, Memory>
    ensures { IfOk result (λ value. view value ≡ unmet_data named.now leg.now) }
{
    let entry = value_of_leg(alloc, named, leg)?;
    let trouble = Value::try_from_str(alloc, "unmet")?;
    let why = Value::try_from_str(alloc, word_of_why(why(named, leg)))?;
    let mut map = Map::new(alloc);
    put(&mut map, alloc, "leg", entry)?;
    put(&mut map, alloc, "trouble", trouble)?;
    put(&mut map, alloc, "why", why)?;
    Ok(Value::from(map))
}

#[tactic(auto, using(crate::proofs::Added::none_if))]
fn add_untaken(
    alloc: Global,
    named: &NamedNetwork,
    leg: &Leg,
    list: &mut Vec<Value>,
) -> Result<(), Memory>
    ensures { IfOk result (λ _. map view list.new.items ≡ map view list.old.items
        ++ only_if (is_untaken named.now.network leg.now) (untaken_data named.now leg.now)) }
{
    if !is_untaken(named, leg) {
        return Ok(());
    }
    let value = value_of_untaken(alloc, named, leg)?;
    add(list, value)?;
    Ok(())
}

#[tactic(auto, unfolding(crate::specs::NetworkJson::untaken_data))]
fn value_of_untaken(alloc: Global, named: &NamedNetwork, leg: &Leg) -> Result<Value, Memory>
    ensures { IfOk result (λ value. view value ≡ untaken_data named.now leg.now) }
{
    let entry = value_of_leg(alloc, named, leg)?;
    let trouble = Value::try_from_str(alloc, "untaken")?;
    let mut map = Map::new(alloc);
    put(&mut map, alloc, "leg", entry)?;
    put(&mut map, alloc, "trouble", trouble)?;
    Ok(Value::from(map))
}

#[tactic(auto, using(crate::proofs::Added::none_if))]
fn add_round(
    alloc: Global,
    named: &NamedNetwork,
    most: usize,
    leg: &Leg,
    list: &mut Vec<Value>,
) -> Result<(), Memory>
    ensures { IfOk result (λ _. map view list.new.items ≡ map view list.old.items
        ++ only_if (is_round named.now.network most leg.now) (round_data named.now leg.now)) }
{
    if !is_round(alloc, named, most, leg)? {
        return Ok(());
    }
    let value = value_of_round(alloc, named, leg)?;
    add(list, value)?;
    Ok(())
}

#[tactic(auto, unfolding(crate::specs::NetworkJson::round_data))]
fn value_of_round(alloc: Global, named: &NamedNetwork, leg: &Leg) -> Result<Value, Memory>
    ensures { IfOk result (λ value. view value ≡ round_data named.now leg.now) }
{
    let entry = value_of_leg(alloc, named, leg)?;
    let trouble = Value::try_from_str(alloc, "round")?;
    let mut map = Map::new(alloc);
    put(&mut map, alloc, "leg", entry)?;
    put(&mut map, alloc, "trouble", trouble)?;
    Ok(Value::from(map))
}
