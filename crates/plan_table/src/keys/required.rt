// Whether a table lacks a key that it must have.
ghost use Rattle.std.specs.Prelude.{◌≡◌, false, codes, is_none};
ghost use Rattle.std.specs.Option.{option_map_or};
ghost use Rattle.toml.specs.Data.{get_member};
ghost use Rattle.toml.specs.View.{table_view, view};
ghost use Rattle.plan_table.specs.Ends.{end_at};
ghost use Rattle.plan_table.specs.Keys.{lacks, lacks_line_key, form_lacks_key, end_lacks_key, lacks_own_key, lacks_key};

use crate::ends::{Form, Side, end_at, has, is_table};
use crate::keys::value::top_value;
use toml::{Table, Value};

/// Whether the top lacks the number of turns.
pub fn lacks_turns(top: &Table) -> bool
    ensures { result ≡ is_none (get_member (codes "turns") (table_view top.now)) }
{
    match top_value(top, "turns") {
        Some(_) => false,
        None => true,
    }
}

/// Whether the connection, its `from` or its `to` is a table and lacks a key.
pub fn lacks_key(connection: &Value) -> bool
    ensures { result ≡ lacks_key (view connection.now) }
{
    lacks_own_key(connection)
        || end_lacks_key(connection, Side::From)
        || end_lacks_key(connection, Side::To)
}

fn lacks(value: &Value, key: &str) -> bool
    ensures { result ≡ lacks key.now (view value.now) }
{
    is_table(value) && !has(value, key)
}

fn lacks_own_key(connection: &Value) -> bool
    ensures { result ≡ lacks_own_key (view connection.now) }
{
    lacks(connection, "name")
        || lacks(connection, "kind")
        || lacks(connection, "from")
        || lacks(connection, "to")
}

fn end_lacks_key(connection: &Value, side: Side) -> bool
    ensures { result ≡ option_map_or end_lacks_key (end_at side (view connection.now)) false }
{
    match end_at(connection, side) {
        Some(end) => form_lacks_key(end.form, end.value),
        None => false,
    }
}

fn form_lacks_key(form: Form, end: &Value) -> bool
    ensures { result ≡ form_lacks_key form (view end.now) }
{
    match form {
        Form::Line => lacks_line_key(end),
        _ => false,
    }
}

fn lacks_line_key(end: &Value) -> bool
    ensures { result ≡ lacks_line_key (view end.now) }
{
    lacks(end, "line") || lacks(end, "port") || lacks(end, "slots")
}
