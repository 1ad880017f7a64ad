// A connection as the rules see it.
ghost use Rattle.std.specs.Prelude.{◌≡◌, codes};
ghost use Rattle.toml.specs.Data.{get};
ghost use Rattle.toml.specs.View.{view};
ghost use Rattle.plan_table.specs.Ends.{end_at};
ghost use Rattle.plan_file.specs.Entry.{slots_between};
ghost use Rattle.plan_file.specs.Table.{number_or, end_of};
ghost use Rattle.plan_file.specs.Seen.{numbers_in, pace_in};
ghost use Rattle.plan_file.specs.Steps.Seen.{end_in, entry_in, top_in};

use crate::connection::Connection;
use crate::outline::end::End;
use crate::outline::top::Top;
use otn_base::{Kind, LineKind};
use plan_table::{Numbers, Side, end_at, kind_at, number_or, pace_at, text_or_empty, truth_or};
use toml::Value;

/// A connection: that of a table in a plan with this top, or that of a plan.
#[derive(Clone, Copy)]
pub(crate) enum Entry<'a> {
    Read(&'a Value, Top<'a>),
    Planned(&'a Connection),
}

impl<'a> Entry<'a> {
    pub(crate) fn name(&self) -> &'a str
        ensures { result.now ≡ (entry_in self.now).name }
    {
        match *self {
            Entry::Read(table, _) => text_or_empty(table.get("name")),
            Entry::Planned(connection) => connection.name.as_str(),
        }
    }

    pub(crate) fn kind(&self) -> Kind
        ensures { result ≡ (entry_in self.now).kind }
    {
        match *self {
            Entry::Read(table, _) => kind_at(table),
            Entry::Planned(connection) => connection.kind,
        }
    }

    pub(crate) fn from(&self) -> End<'a>
        ensures { end_in result ≡ (entry_in self.now).from }
    {
        match *self {
            Entry::Read(table, top) => end_of(table, Side::From, &top.otu3_in),
            Entry::Planned(connection) => End::from_plan(&connection.from),
        }
    }

    pub(crate) fn to(&self) -> End<'a>
        ensures { end_in result ≡ (entry_in self.now).to }
    {
        match *self {
            Entry::Read(table, top) => end_of(table, Side::To, &top.otu3_out),
            Entry::Planned(connection) => End::to_plan(&connection.to),
        }
    }

    /// The pace. None where it is the nominal one.
    pub(crate) fn pace(&self) -> Option<Numbers<'a>>
        ensures { pace_in result (slots_between (entry_in self.now).from (entry_in self.now).to)
            ≡ (entry_in self.now).pace }
    {
        match *self {
            Entry::Read(table, _) => pace_at(table),
            Entry::Planned(connection) => Some(Numbers::Words(connection.pace.as_slice())),
        }
    }

    pub(crate) fn fcs(&self) -> bool
        ensures { result ≡ (entry_in self.now).fcs }
    {
        match *self {
            Entry::Read(table, _) => truth_or(table.get("fcs"), true),
            Entry::Planned(connection) => connection.fcs,
        }
    }

    /// The bytes of the SAPI.
    pub(crate) fn trace(&self) -> &'a [u8]
        ensures { result.now ≡ (entry_in self.now).trace }
    {
        match *self {
            Entry::Read(table, _) => text_or_empty(table.get("trace")).as_bytes(),
            Entry::Planned(connection) => connection.trace.as_slice(),
        }
    }

    pub(crate) fn start(&self) -> i64
        ensures { result ≡ (entry_in self.now).start }
    {
        match *self {
            Entry::Read(table, _) => number_or(table.get("start"), 1),
            Entry::Planned(connection) => i64::from(connection.start),
        }
    }

    pub(crate) fn stop(&self) -> i64
        ensures { result ≡ (entry_in self.now).stop }
    {
        match *self {
            Entry::Read(table, top) => stop_at(table, &top),
            Entry::Planned(connection) => i64::from(connection.stop),
        }
    }

    pub(crate) fn retire(&self) -> bool
        ensures { result ≡ (entry_in self.now).retire }
    {
        match *self {
            Entry::Read(table, _) => truth_or(table.get("retire"), false),
            Entry::Planned(connection) => connection.retire,
        }
    }
}

fn end_of<'a>(connection: &'a Value, side: Side, otu3: &Numbers) -> End<'a>
    ensures { end_in result ≡ end_of (numbers_in otu3.now) (end_at side (view connection.now)) }
{
    match end_at(connection, side) {
        Some(end) => End::of_table(end.form, end.value, otu3),
        None => End::Line(0, 0, LineKind::Otu2, Numbers::Bytes(&[])),
    }
}

fn stop_at(table: &Value, top: &Top) -> i64
    ensures { result ≡ number_or (top_in top.now).turns (get (codes "stop") (view table.now)) }
{
    number_or(table.get("stop"), top.turns)
}
