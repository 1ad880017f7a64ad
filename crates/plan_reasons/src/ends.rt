// Numbers of lines, clients and ports.
use crate::text::member;
use otn_base::limits::{CLIENTS, LINES};
use otn_base::{LineKind, Memory};
use plan_table::{Form, Numbers, Side, TableEnd, end_at, is_within, number_or, numbers_at};
use std::alloc::Global;
use toml::{Table, Value};

/// A line, a client or a port of the connection is out of range, or neither end is a line.
pub(crate) fn bad_place(alloc: Global, top: &Table, connection: &Value) -> Result<String, Memory> {
    let from = bad_end(alloc, top, connection, Side::From, "from")?;
    if !from.is_empty() {
        return Ok(from);
    }
    let to = bad_end(alloc, top, connection, Side::To, "to")?;
    if !to.is_empty() {
        return Ok(to);
    }
    Ok(String::from_str(
        alloc,
        "neither from nor to is a line: one of them has line, port and slots",
    )?)
}

// What is wrong with the end at this side. The empty text where nothing is.
fn bad_end(
    alloc: Global,
    top: &Table,
    connection: &Value,
    side: Side,
    name: &str,
) -> Result<String, Memory> {
    let Some(end) = end_at(connection, side) else {
        return Ok(String::new(alloc));
    };
    match end.form {
        Form::Client => outside(alloc, name, &end, "client", 0, CLIENTS as u64 - 1),
        Form::Signal => Ok(String::new(alloc)),
        Form::Line => bad_line(alloc, top, side, name, &end),
    }
}

fn bad_line(
    alloc: Global,
    top: &Table,
    side: Side,
    name: &str,
    end: &TableEnd,
) -> Result<String, Memory> {
    let line = outside(alloc, name, end, "line", 0, LINES as u64 - 1)?;
    if !line.is_empty() {
        return Ok(line);
    }
    let most = u64::from(kind_at(top, side, end).slots());
    outside(alloc, name, end, "port", 1, most)
}

// What is said of the number at the key, where it is not from the one bound to the other. The empty text where it is.
fn outside(
    alloc: Global,
    name: &str,
    end: &TableEnd,
    key: &str,
    least: u64,
    most: u64,
) -> Result<String, Memory> {
    let value = end.value.get(key);
    if is_within(number_or(value, 0), least, u128::from(most)) {
        return Ok(String::new(alloc));
    }
    let shown = member(alloc, key, value)?;
    Ok(format!(in alloc; "{name}: {shown} is not {least} to {most}")?)
}

/// The kind of the line of an end at this side.
pub(crate) fn kind_at(top: &Table, side: Side, end: &TableEnd) -> LineKind {
    lists_of(top, side).line_kind(number_or(end.value.get("line"), 0))
}

// The lines of this side that are OTU3.
fn lists_of(top: &Table, side: Side) -> Numbers<'_> {
    match side {
        Side::From => numbers_at(top, "otu3-in"),
        Side::To => numbers_at(top, "otu3-out"),
    }
}
