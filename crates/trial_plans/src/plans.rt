// The plans of the trial, as values.
ghost use Rattle.std.specs.Prelude.{◌≡◌, ◌≤◌, ◌<◌, ◌+◌, [], ◌∷◌, None, IfOk, string_bytes};
ghost use Rattle.plan_file.specs.Answer.{fault_in};
ghost use Rattle.otn_base.specs.declared.limits.TheConstants.{OTU2_SLOTS};
ghost use Rattle.trial_plans.specs.TrialPlans.{comes_from, goes_to, one_slot, trial_clients, trial_connection, trial_plan};

use otn_base::limits::{NOMINAL, OTU2_SLOTS};
use otn_base::{Kind, LineKind, Memory, Slots, Trace};
use plan_file::{Connection, Connections, FromEnd, LineList, Name, Pace, Plan, ToEnd};
use std::alloc::Global;

/// Clients of the trial: one for each slot of an OTU2.
pub const CLIENTS: u8 = OTU2_SLOTS as u8;

// Turns of each run.
const TURNS: u32 = 16;

/// The plan of a run, from 0. It breaks no rule.
#[tactic(auto, using(crate::proofs::TrialPlans::each_accepted))]
pub fn plan_of_run(alloc: Global, run: u8) -> Result<Plan, Memory>
    requires { run < 4 }
    ensures plan { IfOk result (λ plan. plan ≡ trial_plan run) }
    ensures accepted { IfOk result (λ plan. fault_in plan ≡ None) }
{
    let mut list = Vec::new(alloc);
    for c in 0..CLIENTS {
        list.push(connection(alloc, run, c)?)?;
    }
    Ok(Plan {
        turns: TURNS,
        connections: Connections::of(list),
        otu3_in: no_lines(alloc),
        otu3_out: no_lines(alloc),
        scrambled_in: no_lines(alloc),
        scrambled_out: no_lines(alloc),
    })
}

fn no_lines(alloc: Global) -> LineList
    ensures { result ≡ [] }
{
    LineList::of(Vec::new(alloc))
}

// The connection of a client, from 0, in a run.
fn connection(alloc: Global, run: u8, c: u8) -> Result<Connection, Memory>
    requires run { run < 4 }
    requires client { c < trial_clients }
    ensures { IfOk result (λ x. x ≡ trial_connection run c) }
{
    let name = name_of(alloc, c)?;
    let pace = vec![in alloc; NOMINAL as u32; 1]?;
    Ok(Connection {
        name: Name::of(name),
        kind: Kind::Odu0,
        from: from_end(run, c),
        to: to_end(run, c),
        pace: Pace::of(pace),
        fcs: true,
        trace: no_trace(),
        start: 1,
        stop: TURNS,
        retire: false,
    })
}

// A letter, a to h.
fn name_of(alloc: Global, c: u8) -> Result<String, Memory>
    requires { c < trial_clients }
    ensures { IfOk result (λ name. string_bytes name ≡ (97 + c) ∷ []) }
{
    let mut name = String::new(alloc);
    name.push((b'a' + c) as char)?;
    Ok(name)
}

fn no_trace() -> Trace
    ensures { result ≡ [] }
{
    match Trace::new(&[]) {
        Some(trace) => trace,
        None => unreachable!(),
    }
}

fn from_end(run: u8, c: u8) -> FromEnd
    requires run { run < 4 }
    requires client { c < trial_clients }
    ensures { result ≡ comes_from run c }
{
    match run {
        0 => FromEnd::Client(c),
        1 => FromEnd::Line(0, c + 1, slot(c + 1)),
        2 => FromEnd::Line(0, c + 1, slot(CLIENTS - c)),
        _ => FromEnd::Line(0, c + 1, slot(c + 1)),
    }
}

fn to_end(run: u8, c: u8) -> ToEnd
    requires run { run < 4 }
    requires client { c < trial_clients }
    ensures { result ≡ goes_to run c }
{
    match run {
        0 => ToEnd::Line(0, c + 1, slot(c + 1)),
        1 => ToEnd::Line(1, c + 1, slot(CLIENTS - c)),
        2 => ToEnd::Line(2, c + 1, slot(c + 1)),
        _ => ToEnd::Client(c),
    }
}

// One slot of an OTU2.
fn slot(slot: u8) -> Slots
    requires low { 1 ≤ slot }
    requires high { slot ≤ OTU2_SLOTS }
    ensures { result ≡ one_slot slot }
{
    match Slots::new(&[slot], LineKind::Otu2) {
        Some(slots) => slots,
        None => unreachable!(),
    }
}
