// First and last turns, and clients that are retired.
use otn_base::Memory;
use plan_table::{number_or, top_value};
use std::alloc::Global;
use toml::{Table, Value};

/// The first and the last turn of the connection.
pub(crate) fn span_of(top: &Table, connection: &Value) -> (i64, i64) {
    let turns = number_or(top_value(top, "turns"), 0);
    (
        number_or(connection.get("start"), 1),
        number_or(connection.get("stop"), turns),
    )
}

/// The first and the last turn are no span of the plan, or there is no client to be retired.
pub(crate) fn bad(alloc: Global, top: &Table, connection: &Value) -> Result<String, Memory> {
    let turns = number_or(top_value(top, "turns"), 0);
    let (start, stop) = span_of(top, connection);
    if start < 1 {
        return Ok(format!(in alloc; "start = {start} is below 1; turns count from 1")?);
    }
    if stop > turns {
        return Ok(format!(in alloc; "stop = {stop} is above turns = {turns}")?);
    }
    if start > stop {
        return Ok(format!(in alloc; "start = {start} is above stop = {stop}")?);
    }
    Ok(String::from_str(
        alloc,
        "retire = true is for a connection with a client, and both ends are lines, or one is a signal",
    )?)
}
