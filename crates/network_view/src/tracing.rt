// The entry before one, and the way to an end.
ghost use Rattle.std.specs.Prelude.{◌≡◌, ◌∷◌, [], IfOk, Some, option_map, reverse, slice_get};
ghost use Rattle.network_ways.specs.Tracing.{before, by_fibre, entry_of, first_entry, goes_on, trace};
ghost use Rattle.network_view.specs.Steps.Traced.{entries_of};

use crate::meeting::goes_on;
use crate::named::{Leg, NamedNetwork};
use network_parts::FibreEnds;
use otn_base::Memory;
use plan_file::{Connection, Plan};
use std::alloc::Global;

/// The entry that goes on in this one; none where none does.
#[tactic(auto, using(crate::proofs::Ways::befores))]
pub fn before<'a>(named: &NamedNetwork<'a>, next: &Leg<'a>) -> Option<Leg<'a>>
    ensures { result ≡ before named.now.network next.now }
{
    let fibres = named.fibres();
    for f in fibres {
        if let Some(here) = by_fibre(named, next, f) {
            return Some(here);
        }
    }
    None
}

// The entry that goes on in it by this fibre.
fn by_fibre<'a>(named: &NamedNetwork<'a>, next: &Leg<'a>, f: &FibreEnds) -> Option<Leg<'a>>
    ensures { result ≡ by_fibre named.now.network next.now f.now }
{
    if f.to_node() != next.node() {
        return None;
    }
    let x = entry_of(named.plans(), f, next.entry())?;
    Some(Leg::new(f.from_node(), x))
}

// The entry of the node at the beginning of the fibre that goes on in this one.
fn entry_of<'a>(plans: &'a [Plan], f: &FibreEnds, y: &Connection) -> Option<&'a Connection>
    ensures { option_map (λ x. x.now) result ≡ entry_of (slice_get plans.now f.now.here)
        (λ x. goes_on x y.now f.now.out f.now.into) }
{
    let plan = plans.get(f.from_node())?;
    first_entry(plan.connections.as_slice(), y, f.from_line(), f.to_line())
}

// The first of these entries that goes on in this one.
#[tactic(auto, using(crate::proofs::Ways::firsts))]
fn first_entry<'a>(
    entries: &'a [Connection],
    y: &Connection,
    out: u8,
    into: u8,
) -> Option<&'a Connection>
    ensures { option_map (λ x. x.now) result ≡ first_entry (λ x. goes_on x y.now out into) entries.now }
{
    for x in entries {
        if goes_on(x, y, out, into) {
            return Some(x);
        }
    }
    None
}

/// The way to an entry, from its first entry on, in at most so many steps back. None where it has no beginning by then.
#[tactic(auto, using(crate::proofs::Ways::backs))]
pub fn way_to<'a>(
    alloc: Global,
    named: &NamedNetwork<'a>,
    most: usize,
    end: &Leg<'a>,
) -> Result<Option<Vec<Leg<'a>>>, Memory>
    ensures { IfOk result (λ way. option_map (λ legs. legs.items) way
        ≡ option_map entries_of (trace named.now.network most end.now [])) }
{
    let mut back = Vec::new(alloc);
    let mut leg = end.again();
    for _ in 0..most {
        let Some(here) = before(named, &leg) else {
            return begun(back, leg);
        };
        back.push(leg)?;
        leg = here;
    }
    Ok(None)
}

// The way whose entries behind its first are these, the last first.
#[tactic(auto, using(crate::proofs::Ways::turned))]
fn begun<'a>(mut back: Vec<Leg<'a>>, first: Leg<'a>) -> Result<Option<Vec<Leg<'a>>>, Memory>
    ensures { IfOk result (λ way. option_map (λ legs. legs.items) way ≡ Some (first.entry ∷ reverse back.entry.items)) }
{
    back.push(first)?;
    back.as_mut_slice().reverse();
    Ok(Some(back))
}
