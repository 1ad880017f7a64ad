// Values of the wrong type.
use crate::text::member;
use otn_base::Memory;
use plan_table::{Form, Side, TableEnd, end_at, top_value};
use std::alloc::Global;
use toml::{Table, Value};

/// What a key asks for.
#[derive(Clone, Copy)]
enum Wanted {
    Number,
    Numbers,
    Truth,
    Text,
    Tables,
    Version,
    Kind,
    Signal,
}

const TOP: [(&str, Wanted); 7] = [
    ("version", Wanted::Version),
    ("turns", Wanted::Number),
    ("connection", Wanted::Tables),
    ("otu3-in", Wanted::Numbers),
    ("otu3-out", Wanted::Numbers),
    ("scrambled-in", Wanted::Numbers),
    ("scrambled-out", Wanted::Numbers),
];

const CONNECTION: [(&str, Wanted); 8] = [
    ("name", Wanted::Text),
    ("kind", Wanted::Kind),
    ("pace", Wanted::Numbers),
    ("fcs", Wanted::Truth),
    ("trace", Wanted::Text),
    ("start", Wanted::Number),
    ("stop", Wanted::Number),
    ("retire", Wanted::Truth),
];

const LINE_END: [(&str, Wanted); 3] = [
    ("line", Wanted::Number),
    ("port", Wanted::Number),
    ("slots", Wanted::Numbers),
];

const CLIENT_END: [(&str, Wanted); 1] = [("client", Wanted::Number)];

const SIGNAL_END: [(&str, Wanted); 1] = [("signal", Wanted::Signal)];

impl Wanted {
    // What is wanted, in words.
    fn words(self) -> &'static str {
        match self {
            Wanted::Number => "a whole number, without quotes",
            Wanted::Numbers => "a list of whole numbers, as [1]",
            Wanted::Truth => "true or false",
            Wanted::Text => "a text in quotes",
            Wanted::Tables => "tables, each begun by [[connection]]",
            Wanted::Version => "the number 1 or 2",
            Wanted::Kind => "\"odu0\" or \"flex\"",
            Wanted::Signal => "\"oci\" or \"lck\"",
        }
    }

    // Whether the value is what is wanted.
    fn is_met_by(self, value: &Value) -> bool {
        match self {
            Wanted::Number => value.is_integer(),
            Wanted::Numbers => are_integers(value),
            Wanted::Truth => value.is_bool(),
            Wanted::Text => value.is_str(),
            Wanted::Tables => are_tables(value),
            Wanted::Version => matches!(value.as_integer(), Some(1 | 2)),
            Wanted::Kind => matches!(value.as_str(), Some("odu0" | "flex")),
            Wanted::Signal => matches!(value.as_str(), Some("oci" | "lck")),
        }
    }
}

// Whether the value is a list of whole numbers.
fn are_integers(value: &Value) -> bool {
    match value.as_array() {
        Some(values) => values.iter().all(|value| value.is_integer()),
        None => false,
    }
}

// Whether the value is a list of tables.
fn are_tables(value: &Value) -> bool {
    match value.as_array() {
        Some(values) => values.iter().all(|value| value.is_table()),
        None => false,
    }
}

/// A value of the top is of the wrong type.
pub(crate) fn wrong_at_top(alloc: Global, top: &Table) -> Result<String, Memory> {
    wrong_in(alloc, "", top, &TOP)
}

/// A value of the connection, of its `from` or its `to` is of the wrong type.
pub(crate) fn wrong(alloc: Global, connection: &Value) -> Result<String, Memory> {
    let own = match connection.as_table() {
        Some(table) => wrong_in(alloc, "", table, &CONNECTION)?,
        None => String::new(alloc),
    };
    if !own.is_empty() {
        return Ok(own);
    }
    let from = wrong_end(alloc, connection, Side::From, "from")?;
    if !from.is_empty() {
        return Ok(from);
    }
    wrong_end(alloc, connection, Side::To, "to")
}

// What is wrong with the end at this side. The empty text where nothing is.
fn wrong_end(alloc: Global, connection: &Value, side: Side, name: &str) -> Result<String, Memory> {
    match end_at(connection, side) {
        Some(end) => wrong_table(alloc, &end, name),
        None => Ok(String::new(alloc)),
    }
}

fn wrong_table(alloc: Global, end: &TableEnd, name: &str) -> Result<String, Memory> {
    match end.value.as_table() {
        Some(table) => wrong_in(alloc, name, table, wants(end.form)),
        None => {
            let shown = member(alloc, name, Some(end.value))?;
            Ok(format!(in alloc; "{shown}: a table is wanted, as {{ client = 0 }}")?)
        }
    }
}

fn wants(form: Form) -> &'static [(&'static str, Wanted)] {
    match form {
        Form::Client => &CLIENT_END,
        Form::Signal => &SIGNAL_END,
        Form::Line => &LINE_END,
    }
}

// What is said of the first of these keys whose value is not what is wanted. The empty text where there is none.
fn wrong_in(
    alloc: Global,
    name: &str,
    table: &Table,
    wants: &[(&'static str, Wanted)],
) -> Result<String, Memory> {
    for &(key, wanted) in wants {
        if let Some(value) = top_value(table, key) {
            if !wanted.is_met_by(value) {
                return wrong_text(alloc, name, key, value, wanted);
            }
        }
    }
    Ok(String::new(alloc))
}

fn wrong_text(
    alloc: Global,
    name: &str,
    key: &str,
    value: &Value,
    wanted: Wanted,
) -> Result<String, Memory> {
    let shown = member(alloc, key, Some(value))?;
    let words = wanted.words();
    let colon = if name.is_empty() { "" } else { ": " };
    Ok(format!(in alloc; "{name}{colon}{shown}: {words} is wanted")?)
}
