// Whether a table has a key that is not in its list.
ghost use Rattle.std.specs.Prelude.{◌≡◌, false};
ghost use Rattle.std.specs.Option.{option_map_or};
ghost use Rattle.toml.specs.View.{table_view, view};
ghost use Rattle.plan_table.specs.Ends.{end_at};
ghost use Rattle.plan_table.specs.Keys.{top_keys, end_keys, form_keys, keys_from, keys_of_connection, is_second_version, has_unknown_top_key, end_has_other, has_unknown_key};
ghost use Rattle.plan_table.specs.Steps.KeyList.{keys_in};
ghost use Rattle.plan_table.specs.Seen.{table_end_in};

use crate::ends::{Form, Side, TableEnd, end_at, is_table};
use crate::keys::list::KeyList;
use crate::keys::value::{is_this_number, top_value};
use toml::{Table, Value};

/// Whether the top has a key that is not in its list.
pub fn has_unknown_top_key(top: &Table) -> bool
    ensures { result ≡ has_unknown_top_key (table_view top.now) }
{
    !top_list(top).knows_all(top)
}

// The list of the top, by its version.
fn top_list(top: &Table) -> KeyList
    ensures { keys_in result ≡ top_keys (is_second_version (table_view top.now)) }
{
    if is_second_version(top) {
        KeyList::TopOfSecond
    } else {
        KeyList::Top
    }
}

fn is_second_version(top: &Table) -> bool
    ensures { result ≡ is_second_version (table_view top.now) }
{
    match top_value(top, "version") {
        Some(version) => is_this_number(version, 2),
        None => false,
    }
}

/// Whether the connection, its `from` or its `to` is a table with a key that is not in its list.
pub fn has_unknown_key(connection: &Value) -> bool
    ensures { result ≡ has_unknown_key (view connection.now) }
{
    connection_list(connection).lacks_a_key_of(connection)
        || end_has_other(connection, Side::From)
        || end_has_other(connection, Side::To)
}

// The list of a connection, by its `from`.
fn connection_list(connection: &Value) -> KeyList
    ensures { keys_in result ≡ keys_of_connection (view connection.now) }
{
    match end_at(connection, Side::From) {
        Some(from) => list_from(&from),
        None => KeyList::FromClient,
    }
}

// The list of a connection with this `from`.
fn list_from(from: &TableEnd) -> KeyList
    ensures { keys_in result ≡ keys_from (table_end_in from.now) }
{
    if is_table(from.value) {
        form_list(from.form)
    } else {
        KeyList::FromClient
    }
}

fn form_list(form: Form) -> KeyList
    ensures { keys_in result ≡ form_keys form }
{
    match form {
        Form::Client => KeyList::FromClient,
        Form::Signal => KeyList::FromSignal,
        Form::Line => KeyList::FromLine,
    }
}

fn end_has_other(connection: &Value, side: Side) -> bool
    ensures { result ≡ option_map_or end_has_other (end_at side (view connection.now)) false }
{
    match end_at(connection, side) {
        Some(end) => end_list(end.form).lacks_a_key_of(end.value),
        None => false,
    }
}

fn end_list(form: Form) -> KeyList
    ensures { keys_in result ≡ end_keys form }
{
    match form {
        Form::Client => KeyList::Client,
        Form::Signal => KeyList::Signal,
        Form::Line => KeyList::Line,
    }
}
