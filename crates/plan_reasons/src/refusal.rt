// The rule that a text breaks first, its place, and the reason.
ghost use Rattle.std.specs.Prelude.{◌≡◌, IfOk};
ghost use Rattle.plan_file.specs.Answer.{plan_of_text};
ghost use Rattle.plan_reasons.specs.Refusals.{IsToldOf};

use crate::{ends, keys, kinds, names, no_toml, paces, pairs, slots, spans, top};
use otn_base::Memory;
use plan_file::{NoPlan, Plan, PlanError};
use plan_table::{connections, text_or_empty};
use std::alloc::Global;
use std::str;
use toml::{Table, Value};

/// Why a text is no plan.
#[derive(Drop)]
pub struct Refusal {
    /// The rule that it breaks first.
    pub rule: PlanError,
    /// Its place: 0 for the top, else the number of the connection, from 1.
    pub place: u64,
    /// The place in words, as `connection 2 (south)`.
    pub at: String,
    /// What is wrong there, and what would do.
    pub reason: String,
}

/// Why the text is no plan. None where it is one.
pub fn refusal_of(alloc: Global, text: &[u8]) -> Result<Option<Refusal>, Memory>
    ensures { IfOk result (IsToldOf (plan_of_text text.now)) }
{
    match Plan::read(alloc, text) {
        Ok(_) => Ok(None),
        Err(NoPlan::Refused(rule, place)) => Ok(Some(told(alloc, text, rule, place)?)),
        Err(NoPlan::Memory) => Err(Memory),
    }
}

// What is told of a text that breaks this rule at this place.
fn told(alloc: Global, text: &[u8], rule: PlanError, place: u64) -> Result<Refusal, Memory>
    ensures rule { IfOk result (λ refusal. refusal.rule ≡ rule) }
    ensures place { IfOk result (λ refusal. refusal.place ≡ place) }
{
    let (at, reason) = match table_of(alloc, text)? {
        Ok(table) => (
            place_text(alloc, &table, place)?,
            reason(alloc, &table, rule, place)?,
        ),
        Err(reason) => (String::from_str(alloc, "the text")?, reason),
    };
    Ok(Refusal {
        rule,
        place,
        at,
        reason,
    })
}

// The table of the text, or why it is no TOML.
fn table_of(alloc: Global, text: &[u8]) -> Result<Result<Table, String>, Memory> {
    match str::from_utf8(text) {
        Ok(text) => match toml::table_from_str(alloc, text) {
            Ok(table) => Ok(Ok(table)),
            Err(error) => Ok(Err(no_toml::reason(alloc, text, &error)?)),
        },
        Err(error) => Ok(Err(no_toml::no_utf8(alloc, text, error.valid_up_to())?)),
    }
}

// The place in words.
fn place_text(alloc: Global, top: &Table, place: u64) -> Result<String, Memory> {
    match connection_at(top, place) {
        Some(connection) => name_text(alloc, connection, place),
        None => Ok(String::from_str(alloc, "the top")?),
    }
}

/// The connection of this number, with its name where it has one.
pub(crate) fn name_text(alloc: Global, connection: &Value, place: u64) -> Result<String, Memory> {
    match text_or_empty(connection.get("name")) {
        "" => Ok(format!(in alloc; "connection {place}")?),
        name => {
            let name = crate::text::short(alloc, name)?;
            Ok(format!(in alloc; "connection {place} ({name})")?)
        }
    }
}

// The connection at this place. None for the top.
fn connection_at(top: &Table, place: u64) -> Option<&Value> {
    let index = usize::try_from(place.checked_sub(1)?).ok()?;
    connections(top).get(index)
}

// What breaks the rule at the place.
fn reason(alloc: Global, top: &Table, rule: PlanError, place: u64) -> Result<String, Memory> {
    match connection_at(top, place) {
        Some(connection) => reason_in(alloc, top, connection, rule),
        None => reason_at_top(alloc, top, rule),
    }
}

fn reason_at_top(alloc: Global, top: &Table, rule: PlanError) -> Result<String, Memory> {
    match rule {
        PlanError::UnknownKey => keys::unknown_at_top(alloc, top),
        PlanError::MissingKey => keys::missing_at_top(alloc),
        PlanError::WrongKind => kinds::wrong_at_top(alloc, top),
        PlanError::Turns => top::turns(alloc, top),
        PlanError::TooMany => top::too_many(alloc, top),
        PlanError::NotToml => top::too_long(alloc),
        _ => top::lines(alloc, top),
    }
}

fn reason_in(
    alloc: Global,
    top: &Table,
    connection: &Value,
    rule: PlanError,
) -> Result<String, Memory> {
    match rule {
        PlanError::UnknownKey => keys::unknown(alloc, connection),
        PlanError::MissingKey => keys::missing(alloc, connection),
        PlanError::WrongKind => kinds::wrong(alloc, connection),
        PlanError::BadName => names::bad(alloc, connection),
        PlanError::BadPlace => ends::bad_place(alloc, top, connection),
        PlanError::BadSlots => slots::bad(alloc, top, connection),
        PlanError::BadPace => paces::bad(alloc, connection),
        PlanError::BadSpan => spans::bad(alloc, top, connection),
        _ => pairs::clash(alloc, top, connection, rule),
    }
}
