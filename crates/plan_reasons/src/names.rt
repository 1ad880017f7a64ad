// Names of connections, and traces.
use crate::text::member;
use otn_base::Memory;
use plan_table::{is_name, text_or_empty};
use std::alloc::Global;
use toml::Value;

/// The connection's name or its trace is none.
pub(crate) fn bad(alloc: Global, connection: &Value) -> Result<String, Memory> {
    let name = text_or_empty(connection.get("name"));
    if is_name(name) {
        bad_trace(alloc, connection)
    } else {
        bad_name(alloc, connection, name)
    }
}

fn bad_name(alloc: Global, connection: &Value, name: &str) -> Result<String, Memory> {
    let shown = member(alloc, "name", connection.get("name"))?;
    let better = better_name(alloc, name)?;
    if is_name(better.as_str()) {
        return Ok(format!(in alloc;
            "{shown} is not 1 to 32 of a to z, 0 to 9 and -; write \"{better}\""
        )?);
    }
    Ok(format!(in alloc; "{shown} is not 1 to 32 of a to z, 0 to 9 and -")?)
}

// The name in lower case, with - for each character that can't stand in a name.
fn better_name(alloc: Global, name: &str) -> Result<String, Memory> {
    let mut better = String::new(alloc);
    for letter in name.chars() {
        better.push(better_letter(letter))?;
    }
    Ok(better)
}

fn better_letter(letter: char) -> char {
    let letter = letter.to_ascii_lowercase();
    if matches!(letter, 'a'..='z' | '0'..='9') {
        letter
    } else {
        '-'
    }
}

fn bad_trace(alloc: Global, connection: &Value) -> Result<String, Memory> {
    let trace = member(alloc, "trace", connection.get("trace"))?;
    Ok(format!(in alloc; "{trace} is not at most 15 characters of printable ASCII")?)
}
