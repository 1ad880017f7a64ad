// The plan that a table says, or the first rule that it breaks.
ghost use Rattle.std.specs.Prelude.{◌≡◌, ◌≢◌, Err, IfOk, Ok, map};
ghost use Rattle.toml.specs.View.{table_view};
ghost use Rattle.plan_file.specs.Answer.{accepted_or};
ghost use Rattle.plan_file.specs.Entry.{connection_of, plan_of};
ghost use Rattle.plan_file.specs.Refusal.{fault_of, table_refusal};
ghost use Rattle.plan_file.specs.Steps.Seen.{entries_in, outline_in, top_in};
ghost use Rattle.plan_file.specs.Steps.Sound.{AreSound, IsSoundOutline, IsSoundTop};
ghost use Rattle.plan_file.specs.Table.{outline_at};

use crate::connection::Connection;
use crate::connections::Connections;
use crate::error::NoPlan;
use crate::outline::{Entries, Outline, Top};
use crate::plan::Plan;
use crate::read::connection::connection;
use crate::read::number::{lines, word};
use crate::read::table::table_fault;
use crate::rules;
use otn_base::Memory;
use std::alloc::Global;
use toml::Table;

/// The plan that the table says, or the first rule that it breaks.
pub(crate) fn plan(alloc: Global, top: &Table) -> Result<Plan, NoPlan>
    ensures { result ≢ Err NoPlan.Memory → result
        ≡ accepted_or (plan_of (outline_at (table_view top.now))) (table_refusal (table_view top.now)) }
{
    match table_fault(top) {
        Some((rule, place)) => Err(NoPlan::Refused(rule, place as u64)),
        None => plan_of_values(alloc, top),
    }
}

// The plan that the values of the table say, or the first rule that they break.
fn plan_of_values(alloc: Global, top: &Table) -> Result<Plan, NoPlan>
    ensures { result ≢ Err NoPlan.Memory → result
        ≡ accepted_or (plan_of (outline_at (table_view top.now))) (fault_of (outline_at (table_view top.now))) }
{
    let outline = Outline::of_table(top);
    match rules::fault(&outline) {
        Some((rule, place)) => Err(NoPlan::Refused(rule, u64::from(place))),
        None => sound_plan(alloc, &outline),
    }
}

// The plan that the outline says.
fn sound_plan(alloc: Global, outline: &Outline) -> Result<Plan, NoPlan>
    requires { IsSoundOutline (outline_in outline.now) }
    ensures { result ≢ Err NoPlan.Memory → result ≡ Ok (plan_of (outline_in outline.now)) }
{
    match made_plan(alloc, &outline.top, &outline.entries) {
        Ok(plan) => Ok(plan),
        Err(Memory) => Err(NoPlan::Memory),
    }
}

// The plan with this top and these connections.
fn made_plan(alloc: Global, top: &Top, entries: &Entries) -> Result<Plan, Memory>
    requires top { IsSoundTop (top_in top.now) }
    requires entries { AreSound (entries_in entries.now) }
    ensures { IfOk result (λ plan. plan ≡ plan_of (record { top = top_in top.now; entries = entries_in entries.now })) }
{
    let connections = Connections::of(list(alloc, entries)?);
    let otu3_in = lines(alloc, &top.otu3_in)?;
    let otu3_out = lines(alloc, &top.otu3_out)?;
    let scrambled_in = lines(alloc, &top.scrambled_in)?;
    let scrambled_out = lines(alloc, &top.scrambled_out)?;
    Ok(Plan {
        turns: word(top.turns),
        connections,
        otu3_in,
        otu3_out,
        scrambled_in,
        scrambled_out,
    })
}

#[tactic(auto, using(crate::proofs::Filled::filled_more, crate::proofs::Filled::filled_all))]
fn list(alloc: Global, entries: &Entries) -> Result<Vec<Connection>, Memory>
    requires { AreSound (entries_in entries.now) }
    ensures { IfOk result (λ list. list.items ≡ map connection_of (entries_in entries.now)) }
{
    let mut list = Vec::new(alloc);
    for i in 0..entries.len() {
        list.push(connection(alloc, &entries.at(i))?)?;
    }
    Ok(list)
}
