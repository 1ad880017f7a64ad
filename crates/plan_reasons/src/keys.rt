// Keys that can't stand where they do, and keys that are missing.
use crate::text::{listed, short};
use otn_base::Memory;
use plan_table::{Form, Side, end_at, number_or, top_value};
use std::alloc::Global;
use strsim::levenshtein;
use toml::{Table, Value};

const TOP: [&str; 3] = ["version", "turns", "connection"];

const LINES: [&str; 4] = ["otu3-in", "otu3-out", "scrambled-in", "scrambled-out"];

const CONNECTION: [&str; 7] = ["name", "kind", "from", "to", "start", "stop", "retire"];

const OF_CLIENT: [&str; 3] = ["pace", "fcs", "trace"];

const OF_SIGNAL: [&str; 1] = ["pace"];

const NEEDED: [&str; 4] = ["name", "kind", "from", "to"];

const LINE_END: [&str; 3] = ["line", "port", "slots"];

const CLIENT_END: [&str; 1] = ["client"];

const SIGNAL_END: [&str; 1] = ["signal"];

/// What stands for each key that can be missing.
const EXAMPLES: [(&str, &str); 7] = [
    ("name", "name = \"north\""),
    ("kind", "kind = \"odu0\""),
    ("from", "from = { client = 0 }"),
    ("to", "to = { line = 0, port = 1, slots = [1] }"),
    ("line", "line = 0"),
    ("port", "port = 1"),
    ("slots", "slots = [1]"),
];

/// The top has a key that it can't have.
pub(crate) fn unknown_at_top(alloc: Global, top: &Table) -> Result<String, Memory> {
    if number_or(top_value(top, "version"), 1) == 2 {
        unknown_in(alloc, "at the top", top, &TOP, &LINES)
    } else {
        unknown_in(alloc, "at the top", top, &TOP, &[])
    }
}

/// The connection, its `from` or its `to` has a key that it can't have.
pub(crate) fn unknown(alloc: Global, connection: &Value) -> Result<String, Memory> {
    match connection.as_table() {
        Some(table) if has_other(table, &CONNECTION, more_keys(connection)) => {
            unknown_in(alloc, "here", table, &CONNECTION, more_keys(connection))
        }
        _ => unknown_in_ends(alloc, connection),
    }
}

fn unknown_in_ends(alloc: Global, connection: &Value) -> Result<String, Memory> {
    let from = unknown_in_end(alloc, connection, Side::From, "in from")?;
    match from.as_str() {
        "" => unknown_in_end(alloc, connection, Side::To, "in to"),
        _ => Ok(from),
    }
}

fn unknown_in_end(
    alloc: Global,
    connection: &Value,
    side: Side,
    there: &str,
) -> Result<String, Memory> {
    let Some(end) = end_at(connection, side) else {
        return Ok(String::new(alloc));
    };
    match end.value.as_table() {
        Some(table) => unknown_in(alloc, there, table, end_keys(end.form), &[]),
        None => Ok(String::new(alloc)),
    }
}

// The keys that an end of this form has.
fn end_keys(form: Form) -> &'static [&'static str] {
    match form {
        Form::Client => &CLIENT_END,
        Form::Signal => &SIGNAL_END,
        Form::Line => &LINE_END,
    }
}

// The keys that a connection may have besides, by its `from`.
fn more_keys(connection: &Value) -> &'static [&'static str] {
    match end_at(connection, Side::From) {
        Some(end) if end.value.is_table() => keys_from(end.form),
        _ => &OF_CLIENT,
    }
}

fn keys_from(form: Form) -> &'static [&'static str] {
    match form {
        Form::Client => &OF_CLIENT,
        Form::Signal => &OF_SIGNAL,
        Form::Line => &[],
    }
}

fn has_other(table: &Table, known: &[&'static str], more: &[&'static str]) -> bool {
    first_other(table, known, more).is_some()
}

// The first key of the table, by the alphabet, that is in neither list.
fn first_other<'a>(
    table: &'a Table,
    known: &[&'static str],
    more: &[&'static str],
) -> Option<&'a str> {
    for (key, _) in table {
        let key = key.as_str();
        if !is_among(known, key) && !is_among(more, key) {
            return Some(key);
        }
    }
    None
}

fn is_among(words: &[&'static str], key: &str) -> bool {
    words.iter().any(|&word| word == key)
}

// What is said of the first key that is in neither list. The empty text where there is none.
fn unknown_in(
    alloc: Global,
    there: &str,
    table: &Table,
    known: &[&'static str],
    more: &[&'static str],
) -> Result<String, Memory> {
    let Some(key) = first_other(table, known, more) else {
        return Ok(String::new(alloc));
    };
    let guess = guess_for(alloc, key, known, more)?;
    let may = listed(alloc, known, more)?;
    let key = short(alloc, key)?;
    Ok(format!(in alloc; "the key {key} can't stand {there}{guess}; what can: {may}")?)
}

// What may have been meant by a key that is in neither list.
fn guess_for(
    alloc: Global,
    key: &str,
    known: &[&'static str],
    more: &[&'static str],
) -> Result<String, Memory> {
    if is_among(&LINES, key) {
        return Ok(String::from_str(alloc, " without version = 2")?);
    }
    if is_among(&OF_CLIENT, key) {
        return Ok(String::from_str(alloc, ", but with from = { client = .. }")?);
    }
    let near = match nearest(alloc, key, known)? {
        Some(near) => Some(near),
        None => nearest(alloc, key, more)?,
    };
    match near {
        Some(near) => Ok(format!(in alloc; "; {near} is meant?")?),
        None => Ok(String::new(alloc)),
    }
}

// A word of the list that is two edits from the key at most, the first of those.
fn nearest(
    alloc: Global,
    key: &str,
    words: &[&'static str],
) -> Result<Option<&'static str>, Memory> {
    if key.len() > 20 {
        return Ok(None);
    }
    for &word in words {
        if levenshtein(alloc, key, word)? <= 2 {
            return Ok(Some(word));
        }
    }
    Ok(None)
}

/// The top has no `turns`.
pub(crate) fn missing_at_top(alloc: Global) -> Result<String, Memory> {
    Ok(String::from_str(alloc, "the key turns is missing; write turns = 16")?)
}

/// The connection, its `from` or its `to` lacks a key.
pub(crate) fn missing(alloc: Global, connection: &Value) -> Result<String, Memory> {
    match first_missing(connection, &NEEDED) {
        Some(key) => missing_key(alloc, "here", key),
        None => missing_in_ends(alloc, connection),
    }
}

fn missing_in_ends(alloc: Global, connection: &Value) -> Result<String, Memory> {
    match missing_in_end(connection, Side::From) {
        Some(key) => missing_key(alloc, "in from", key),
        None => missing_key(
            alloc,
            "in to",
            missing_in_end(connection, Side::To).unwrap_or("line"),
        ),
    }
}

fn missing_in_end(connection: &Value, side: Side) -> Option<&'static str> {
    let end = end_at(connection, side)?;
    match end.form {
        Form::Line => first_missing(end.value, &LINE_END),
        _ => None,
    }
}

// The first of these keys that the value, where it is a table, does not have.
fn first_missing(value: &Value, keys: &[&'static str]) -> Option<&'static str> {
    let table = value.as_table()?;
    for &key in keys {
        if top_value(table, key).is_none() {
            return Some(key);
        }
    }
    None
}

fn missing_key(alloc: Global, there: &str, key: &'static str) -> Result<String, Memory> {
    let example = example_of(key, &EXAMPLES);
    Ok(format!(in alloc; "the key {key} is missing {there}; write {example}")?)
}

fn example_of(key: &str, examples: &[(&'static str, &'static str)]) -> &'static str {
    for &(one, example) in examples {
        if one == key {
            return example;
        }
    }
    ""
}
