// An end of a connection.
ghost use Rattle.std.specs.Prelude.{◌≡◌};
ghost use Rattle.toml.specs.View.{view};
ghost use Rattle.plan_file.specs.Entry.{from_seen, to_seen};
ghost use Rattle.plan_file.specs.Table.{line_at, client_at, form_at};
ghost use Rattle.plan_file.specs.Seen.{numbers_in};
ghost use Rattle.plan_file.specs.Steps.Seen.{end_in};

use crate::connection::{FromEnd, ToEnd};
use maintenance_signals::Signal;
use otn_base::LineKind;
use plan_table::{Form, Numbers, list_or_empty, number_or, signal_at};
use toml::Value;

/// An end of a connection: a line with its tributary port, the kind of lines that the slots are for, and
/// the slots; a client; or a signal.
#[derive(Clone, Copy)]
pub(crate) enum End<'a> {
    Line(i64, i64, LineKind, Numbers<'a>),
    Client(i64),
    Signal(Signal),
}

impl<'a> End<'a> {
    /// The end of the form that the value says, where these lines of its side are OTU3.
    pub(crate) fn of_table(form: Form, end: &'a Value, otu3: &Numbers) -> End<'a>
        ensures { end_in result ≡ form_at (numbers_in otu3.now) form (view end.now) }
    {
        match form {
            Form::Client => End::of_client(end),
            Form::Signal => End::Signal(signal_at(end)),
            Form::Line => End::of_line(end, otu3),
        }
    }

    fn of_client(end: &'a Value) -> End<'a>
        ensures { end_in result ≡ client_at (view end.now) }
    {
        End::Client(number_or(end.get("client"), 0))
    }

    fn of_line(end: &'a Value, otu3: &Numbers) -> End<'a>
        ensures { end_in result ≡ line_at (numbers_in otu3.now) (view end.now) }
    {
        let slots = list_or_empty(end.get("slots"));
        let line = number_or(end.get("line"), 0);
        End::Line(
            line,
            number_or(end.get("port"), 0),
            otu3.line_kind(line),
            Numbers::Values(slots),
        )
    }

    /// The end that a plan's connection comes from.
    pub(crate) fn from_plan(from: &'a FromEnd) -> End<'a>
        ensures { end_in result ≡ from_seen from.now }
    {
        match from {
            FromEnd::Line(line, port, slots) => {
                End::Line(
                    i64::from(*line),
                    i64::from(*port),
                    slots.kind(),
                    Numbers::Bytes(slots.as_slice()),
                )
            }
            FromEnd::Client(client) => End::Client(i64::from(*client)),
            FromEnd::Signal(signal) => End::Signal(*signal),
        }
    }

    /// The end that a plan's connection goes to.
    pub(crate) fn to_plan(to: &'a ToEnd) -> End<'a>
        ensures { end_in result ≡ to_seen to.now }
    {
        match to {
            ToEnd::Line(line, port, slots) => {
                End::Line(
                    i64::from(*line),
                    i64::from(*port),
                    slots.kind(),
                    Numbers::Bytes(slots.as_slice()),
                )
            }
            ToEnd::Client(client) => End::Client(i64::from(*client)),
        }
    }
}
