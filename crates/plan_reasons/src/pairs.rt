// Two connections that can't both be.
use crate::refusal::name_text;
use crate::slots::slots_at;
use crate::spans::span_of;
use crate::text::{common_slots, member};
use otn_base::Memory;
use plan_file::PlanError;
use plan_table::{Form, Side, connections, end_at, have_common, number_or, text_or_empty};
use std::alloc::Global;
use toml::{Table, Value};

/// The connection clashes with one before it: both, and what they share.
pub(crate) fn clash(
    alloc: Global,
    top: &Table,
    later: &Value,
    rule: PlanError,
) -> Result<String, Memory> {
    let mut place = 0u64;
    for earlier in connections(top) {
        place = place.saturating_add(1);
        if clashes(top, earlier, later, rule) {
            let name = name_text(alloc, earlier, place)?;
            return shared(alloc, top, earlier, later, rule, name.as_str());
        }
    }
    Ok(String::new(alloc))
}

// Whether two connections break the rule.
fn clashes(top: &Table, earlier: &Value, later: &Value, rule: PlanError) -> bool {
    match rule {
        PlanError::NameTwice => name_of(earlier) == name_of(later),
        PlanError::SlotTwice => share_line(earlier, later)
            && share_slot(earlier, later)
            && meet(top, earlier, later),
        PlanError::PortTwice => share_line(earlier, later)
            && share_port(earlier, later)
            && meet(top, earlier, later),
        PlanError::ClientTwice => share_client(earlier, later, Side::From)
            || share_client(earlier, later, Side::To),
        _ => false,
    }
}

fn name_of(connection: &Value) -> &str {
    text_or_empty(connection.get("name"))
}

fn share_slot(earlier: &Value, later: &Value) -> bool {
    have_common(&slots_at(earlier, Side::To), &slots_at(later, Side::To))
}

// Whether both have the same number at this key of `to`.
fn share_line(earlier: &Value, later: &Value) -> bool {
    same(
        number_at(earlier, Side::To, "line"),
        number_at(later, Side::To, "line"),
    )
}

fn share_port(earlier: &Value, later: &Value) -> bool {
    same(
        number_at(earlier, Side::To, "port"),
        number_at(later, Side::To, "port"),
    )
}

fn share_client(earlier: &Value, later: &Value, side: Side) -> bool {
    same(
        number_at(earlier, side, "client"),
        number_at(later, side, "client"),
    )
}

fn same(number: Option<i64>, other: Option<i64>) -> bool {
    number.is_some() && number == other
}

// The number at a key of an end.
fn number_at(connection: &Value, side: Side, key: &str) -> Option<i64> {
    end_at(connection, side)?.value.get(key)?.as_integer()
}

// The turns in which both are active: none where the first is above the last.
fn turns_of(top: &Table, earlier: &Value, later: &Value) -> (i64, i64) {
    let (start, stop) = span_of(top, earlier);
    let (begin, end) = span_of(top, later);
    (start.max(begin), stop.min(end))
}

fn meet(top: &Table, earlier: &Value, later: &Value) -> bool {
    let (first, last) = turns_of(top, earlier, later);
    first <= last
}

// What two connections share, of which the earlier one has this name.
fn shared(
    alloc: Global,
    top: &Table,
    earlier: &Value,
    later: &Value,
    rule: PlanError,
    name: &str,
) -> Result<String, Memory> {
    let (first, last) = turns_of(top, earlier, later);
    let line = number_at(later, Side::To, "line").unwrap_or(0);
    match rule {
        PlanError::SlotTwice => {
            let slots = common_slots(
                alloc,
                &slots_at(earlier, Side::To),
                &slots_at(later, Side::To),
            )?;
            Ok(format!(in alloc;
                "slot {slots} of line output {line} is also of {name}, in turns {first} to {last}"
            )?)
        }
        PlanError::PortTwice => {
            let port = number_at(later, Side::To, "port").unwrap_or(0);
            Ok(format!(in alloc;
                "port {port} of line output {line} is also of {name}, in turns {first} to {last}"
            )?)
        }
        PlanError::ClientTwice => client_text(alloc, earlier, later, name),
        _ => {
            let own = member(alloc, "name", later.get("name"))?;
            Ok(format!(in alloc; "{own} is also that of {name}")?)
        }
    }
}

fn client_text(
    alloc: Global,
    earlier: &Value,
    later: &Value,
    name: &str,
) -> Result<String, Memory> {
    if share_client(earlier, later, Side::From) {
        let client = number_at(later, Side::From, "client").unwrap_or(0);
        return Ok(format!(in alloc; "from: client {client} is also the from of {name}")?);
    }
    let client = number_at(later, Side::To, "client").unwrap_or(0);
    Ok(format!(in alloc; "to: client {client} is also the to of {name}")?)
}
