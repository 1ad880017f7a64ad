// Whether the value of `from`, or of `to`, is one of the forms of an end.
ghost use Rattle.std.specs.Prelude.{◌≡◌, true};
ghost use Rattle.std.specs.Option.{option_map_or};
ghost use Rattle.toml.specs.View.{view};
ghost use Rattle.plan_table.specs.Ends.{end_at};
ghost use Rattle.plan_table.specs.Kinds.{has_form, is_end, is_line_end};
ghost use Rattle.plan_table.specs.Seen.{table_end_in};

use crate::ends::{Form, Side, TableEnd, end_at, is_table};
use crate::kinds::value::{Wanted, has};
use toml::Value;

/// Whether the connection's end at the side, if it has one, is of one of the forms.
pub(crate) fn has_end(connection: &Value, side: Side) -> bool
    ensures { result ≡ option_map_or is_end (end_at side (view connection.now)) true }
{
    match end_at(connection, side) {
        Some(end) => is_end(&end),
        None => true,
    }
}

fn is_end(end: &TableEnd) -> bool
    ensures { result ≡ is_end (table_end_in end.now) }
{
    is_table(end.value) && has_form(end.form, end.value)
}

fn has_form(form: Form, end: &Value) -> bool
    ensures { result ≡ has_form form (view end.now) }
{
    match form {
        Form::Client => has(end, "client", Wanted::Number),
        Form::Signal => has(end, "signal", Wanted::Signal),
        Form::Line => is_line_end(end),
    }
}

fn is_line_end(end: &Value) -> bool
    ensures { result ≡ is_line_end (view end.now) }
{
    has(end, "line", Wanted::Number)
        && has(end, "port", Wanted::Number)
        && has(end, "slots", Wanted::Numbers)
}
