// What a value of a table says, or what stands for it where there is none.
ghost use Rattle.std.specs.Prelude.{◌≡◌, ◌<◌, ℕ, Some, codes, length, map, option_map, slice_get};
ghost use Rattle.toml.specs.Data.{get};
ghost use Rattle.toml.specs.View.{table_view, view};
ghost use Rattle.plan_table.specs.Seen.{numbers_in, pace_in};
ghost use Rattle.plan_table.specs.Values.{connections_at, kind_of, list_of, number_or, numbers_at, pace_at, signal_of, text_of, truth_or};

use crate::keys::top_value;
use crate::numbers::Numbers;
use maintenance_signals::Signal;
use otn_base::Kind;
use toml::{Table, Value};

/// The number, or another one.
pub fn number_or(value: Option<&Value>, otherwise: i64) -> i64
    ensures { result ≡ number_or otherwise (option_map (λ v. view v.now) value.entry) }
{
    match value {
        Some(value) => match value.as_integer() {
            Some(number) => number,
            None => otherwise,
        },
        None => otherwise,
    }
}

/// The truth value, or another one.
pub fn truth_or(value: Option<&Value>, otherwise: bool) -> bool
    ensures { result ≡ truth_or otherwise (option_map (λ v. view v.now) value.entry) }
{
    match value {
        Some(value) => match value.as_bool() {
            Some(truth) => truth,
            None => otherwise,
        },
        None => otherwise,
    }
}

/// The text, or the empty one.
pub fn text_or_empty(value: Option<&Value>) -> &str
    ensures { result.now ≡ text_of (option_map (λ v. view v.now) value.entry) }
{
    match value {
        Some(value) => match value.as_str() {
            Some(text) => text,
            None => "",
        },
        None => "",
    }
}

/// The list, or the empty one.
#[tactic(auto, using(crate::proofs::Lists::listed_view))]
pub fn list_or_empty(value: Option<&Value>) -> &[Value]
    ensures { map view result.now ≡ list_of (option_map (λ v. view v.now) value.entry) }
{
    match value {
        Some(value) => match value.as_array() {
            Some(values) => values.as_slice(),
            None => &[],
        },
        None => &[],
    }
}

/// The value at the index.
pub fn item(values: &[Value], index: usize) -> &Value
    requires { index < length values.now }
    ensures { slice_get values.now index ≡ Some result.now }
{
    &values[index]
}

/// The maintenance signal of an end that is one.
pub fn signal_at(from: &Value) -> Signal
    ensures { result ≡ signal_of (get (codes "signal") (view from.now)) }
{
    if text_or_empty(from.get("signal")) == "oci" {
        Signal::Oci
    } else {
        Signal::Lck
    }
}

/// The kind of a connection.
pub fn kind_at(table: &Value) -> Kind
    ensures { result ≡ kind_of (get (codes "kind") (view table.now)) }
{
    if text_or_empty(table.get("kind")) == "odu0" {
        Kind::Odu0
    } else {
        Kind::Flex
    }
}

/// The pace of a connection. None where it is the nominal one.
pub fn pace_at<'a>(table: &'a Value) -> Option<Numbers<'a>>
    ensures { (m : ℕ) → pace_in result m ≡ pace_at m (get (codes "pace") (view table.now)) }
{
    match table.get("pace") {
        Some(pace) => Some(Numbers::Values(list_or_empty(Some(pace)))),
        None => None,
    }
}

/// The numbers that the table has at the key.
pub fn numbers_at<'a>(top: &'a Table, key: &str) -> Numbers<'a>
    ensures { numbers_in result ≡ numbers_at key.now (table_view top.now) }
{
    Numbers::Values(list_or_empty(top_value(top, key)))
}

/// The connections that the table has, in order.
pub fn connections(table: &Table) -> &[Value]
    ensures { map view result.now ≡ connections_at (table_view table.now) }
{
    list_or_empty(top_value(table, "connection"))
}
