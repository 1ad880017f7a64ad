// The ends of a connection in a table: the values of `from` and `to`, and the form that each takes.
ghost use Rattle.std.specs.Prelude.{◌≡◌, option_map};
ghost use Rattle.toml.specs.View.{view};
ghost use Rattle.plan_table.specs.Ends.{can_be_signal, end_at, form_of, has, is_table, side_key};
ghost use Rattle.plan_table.specs.Seen.{table_end_in};

use toml::Value;

/// A side of a connection.
#[derive(Clone, Copy)]
pub enum Side {
    From,
    To,
}

/// What an end is.
#[derive(Clone, Copy)]
pub enum Form {
    Client,
    Signal,
    Line,
}

/// A value of `from` or `to`, and the form that its keys say.
#[derive(Clone, Copy)]
pub struct TableEnd<'a> {
    pub form: Form,
    pub value: &'a Value,
}

/// What the connection has as its end at the side.
pub fn end_at<'a>(connection: &'a Value, side: Side) -> Option<TableEnd<'a>>
    ensures { option_map table_end_in result ≡ end_at side (view connection.now) }
{
    match connection.get(key(side)) {
        Some(value) => Some(TableEnd {
            form: form_of(side, value),
            value,
        }),
        None => None,
    }
}

fn key(side: Side) -> &'static str
    ensures { result.now ≡ side_key side }
{
    match side {
        Side::From => "from",
        Side::To => "to",
    }
}

fn form_of(side: Side, value: &Value) -> Form
    ensures { result ≡ form_of side (view value.now) }
{
    if has(value, "client") {
        Form::Client
    } else if can_be_signal(side) && has(value, "signal") {
        Form::Signal
    } else {
        Form::Line
    }
}

fn can_be_signal(side: Side) -> bool
    ensures { result ≡ can_be_signal side }
{
    match side {
        Side::From => true,
        Side::To => false,
    }
}

/// Whether the value is a table with the key.
pub(crate) fn has(value: &Value, key: &str) -> bool
    ensures { result ≡ has key.now (view value.now) }
{
    match value.get(key) {
        Some(_) => true,
        None => false,
    }
}

/// Whether the value is a table.
pub(crate) fn is_table(value: &Value) -> bool
    ensures { result ≡ is_table (view value.now) }
{
    value.is_table()
}
