// Which entries have none before them, none after them, or no beginning.
ghost use Rattle.std.specs.Prelude.{◌≡◌, [], IfOk, is_none, slice_get};
ghost use Rattle.std.specs.List.{list_any};
ghost use Rattle.network_ways.specs.Tracing.{goes_on, trace};
ghost use Rattle.network_view.specs.Troubles.{any_in, comes_over, feeds, goes_over, is_like, is_taken, is_unmet, is_untaken, likely_before, likely_by, starts_fibre, takes_by, why};

use crate::meeting::{Likeness, goes_on, is_like};
use crate::named::{Leg, NamedNetwork};
use crate::tracing::{before, way_to};
use network_parts::FibreEnds;
use otn_base::Memory;
use plan_file::{Connection, FromEnd, ToEnd};
use std::alloc::Global;

// ---- the entry after one

/// Whether an entry goes on in another one.
pub fn is_taken(named: &NamedNetwork, here: &Leg) -> bool
    ensures { result ≡ is_taken named.now.network here.now }
{
    named.fibres().iter().any(|f| takes_by(named, here, f))
}

// Whether it goes on in one by this fibre.
fn takes_by(named: &NamedNetwork, here: &Leg, f: &FibreEnds) -> bool
    ensures { result ≡ takes_by named.now.network here.now f.now }
{
    f.from_node() == here.node() && is_taken_in(named, here.entry(), f)
}

fn is_taken_in(named: &NamedNetwork, x: &Connection, f: &FibreEnds) -> bool
    ensures { result ≡ any_in (slice_get named.now.network.plans f.now.there)
        (λ y. goes_on x.now y f.now.out f.now.into) }
{
    match named.plans().get(f.to_node()) {
        Some(plan) => goes_on_in(x, plan.connections.as_slice(), f),
        None => false,
    }
}

fn goes_on_in(x: &Connection, entries: &[Connection], f: &FibreEnds) -> bool
    ensures { result ≡ list_any (λ y. goes_on x.now y f.now.out f.now.into) entries.now }
{
    entries
        .iter()
        .any(|y| goes_on(x, y, f.from_line(), f.to_line()))
}

/// Whether an entry goes to a line at which a fibre begins, and goes on in none.
pub fn is_untaken(named: &NamedNetwork, here: &Leg) -> bool
    ensures { result ≡ is_untaken named.now.network here.now }
{
    goes_over(named, here) && !is_taken(named, here)
}

fn goes_over(named: &NamedNetwork, here: &Leg) -> bool
    ensures { result ≡ goes_over named.now.network here.now }
{
    named.fibres().iter().any(|f| starts_fibre(here, f))
}

fn starts_fibre(here: &Leg, f: &FibreEnds) -> bool
    ensures { result ≡ starts_fibre here.now f.now }
{
    match &here.entry().to {
        ToEnd::Line(line, _, _) => f.from_node() == here.node() && f.from_line() == *line,
        ToEnd::Client(_) => false,
    }
}

// ---- the entry before one

/// Whether an entry comes from a line to which a fibre leads, and none goes on in it.
pub fn is_unmet(named: &NamedNetwork, next: &Leg) -> bool
    ensures { result ≡ is_unmet named.now.network next.now }
{
    comes_over(named, next) && before(named, next).is_none()
}

fn comes_over(named: &NamedNetwork, next: &Leg) -> bool
    ensures { result ≡ comes_over named.now.network next.now }
{
    named.fibres().iter().any(|f| feeds(next, f))
}

fn feeds(next: &Leg, f: &FibreEnds) -> bool
    ensures { result ≡ feeds next.now f.now }
{
    match &next.entry().from {
        FromEnd::Line(line, _, _) => f.to_node() == next.node() && f.to_line() == *line,
        _ => false,
    }
}

/// How near the entries come to go on in it, that may be before it.
pub fn why(named: &NamedNetwork, next: &Leg) -> Likeness
    ensures { result ≡ why named.now.network next.now }
{
    if likely_before(named, Likeness::Turns, next) {
        return Likeness::Turns;
    }
    if likely_before(named, Likeness::Port, next) {
        return Likeness::Port;
    }
    if likely_before(named, Likeness::Slots, next) {
        return Likeness::Slots;
    }
    Likeness::Nothing
}

fn likely_before(named: &NamedNetwork, like: Likeness, next: &Leg) -> bool
    ensures { result ≡ likely_before named.now.network like next.now }
{
    named
        .fibres()
        .iter()
        .any(|f| likely_by(named, like, next, f))
}

fn likely_by(named: &NamedNetwork, like: Likeness, next: &Leg, f: &FibreEnds) -> bool
    ensures { result ≡ likely_by named.now.network like next.now f.now }
{
    f.to_node() == next.node() && is_likely_in(named, like, next.entry(), f)
}

fn is_likely_in(named: &NamedNetwork, like: Likeness, y: &Connection, f: &FibreEnds) -> bool
    ensures { result ≡ any_in (slice_get named.now.network.plans f.now.here)
        (λ x. is_like like x y.now f.now.out f.now.into) }
{
    match named.plans().get(f.from_node()) {
        Some(plan) => is_like_one(like, plan.connections.as_slice(), y, f),
        None => false,
    }
}

fn is_like_one(like: Likeness, entries: &[Connection], y: &Connection, f: &FibreEnds) -> bool
    ensures { result ≡ list_any (λ x. is_like like x y.now f.now.out f.now.into) entries.now }
{
    entries
        .iter()
        .any(|x| is_like(like, x, y, f.from_line(), f.to_line()))
}

// ---- no beginning

/// Whether the way to an entry has no beginning, in at most so many steps back.
pub fn is_round(alloc: Global, named: &NamedNetwork, most: usize, end: &Leg) -> Result<bool, Memory>
    ensures { IfOk result (λ round. round ≡ is_none (trace named.now.network most end.now [])) }
{
    Ok(way_to(alloc, named, most, end)?.is_none())
}
