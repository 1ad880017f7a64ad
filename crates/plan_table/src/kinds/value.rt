// Whether a value is what its key asks for.
ghost use Rattle.std.specs.Prelude.{◌≡◌};
ghost use Rattle.toml.specs.View.{items_view, table_view, view};
ghost use Rattle.plan_table.specs.Ends.{is_table};
ghost use Rattle.plan_table.specs.Kinds.{is_number, is_number_list, is_table_list, is_either, is_version, each_item, each_at, top_each_at};
ghost use Rattle.plan_table.specs.Steps.Kinds.{is_wanted};

use crate::keys::{is_this_number, top_value};
use toml::{Table, Value};

/// What a key asks for.
#[derive(Clone, Copy)]
pub(crate) enum Wanted {
    Number,
    Numbers,
    Truth,
    Text,
    /// A list of tables.
    Tables,
    /// The number of a version.
    Version,
    /// `odu0` or `flex`.
    Kind,
    /// `oci` or `lck`.
    Signal,
}

/// Whether what the value has at the key, if anything, is what is wanted.
pub(crate) fn has(value: &Value, key: &str, wanted: Wanted) -> bool
    ensures { result ≡ each_at key.now (is_wanted wanted) (view value.now) }
{
    match value.get(key) {
        Some(found) => is_wanted(found, wanted),
        None => true,
    }
}

/// Whether what the top has at the key, if anything, is what is wanted.
pub(crate) fn top_has(top: &Table, key: &str, wanted: Wanted) -> bool
    ensures { result ≡ top_each_at key.now (is_wanted wanted) (table_view top.now) }
{
    match top_value(top, key) {
        Some(found) => is_wanted(found, wanted),
        None => true,
    }
}

fn is_wanted(value: &Value, wanted: Wanted) -> bool
    ensures { result ≡ is_wanted wanted (view value.now) }
{
    match wanted {
        Wanted::Number => value.is_integer(),
        Wanted::Numbers => is_number_list(value),
        Wanted::Truth => value.is_bool(),
        Wanted::Text => value.is_str(),
        Wanted::Tables => is_table_list(value),
        Wanted::Version => is_version(value),
        Wanted::Kind => is_either(value, "odu0", "flex"),
        Wanted::Signal => is_either(value, "oci", "lck"),
    }
}

fn is_number_list(value: &Value) -> bool
    ensures { result ≡ is_number_list (view value.now) }
{
    match value.as_array() {
        Some(values) => all_numbers(values.as_slice()),
        None => false,
    }
}

fn all_numbers(values: &[Value]) -> bool
    ensures { result ≡ each_item is_number (items_view values.now) }
{
    for value in values {
        if !value.is_integer() {
            return false;
        }
    }
    true
}

fn is_table_list(value: &Value) -> bool
    ensures { result ≡ is_table_list (view value.now) }
{
    match value.as_array() {
        Some(values) => all_tables(values.as_slice()),
        None => false,
    }
}

fn all_tables(values: &[Value]) -> bool
    ensures { result ≡ each_item is_table (items_view values.now) }
{
    for value in values {
        if !value.is_table() {
            return false;
        }
    }
    true
}

fn is_version(value: &Value) -> bool
    ensures { result ≡ is_version (view value.now) }
{
    is_this_number(value, 1) || is_this_number(value, 2)
}

// Whether the value is one of two texts.
fn is_either(value: &Value, one: &str, other: &str) -> bool
    ensures { result ≡ is_either one.now other.now (view value.now) }
{
    match value.as_str() {
        Some(text) => text == one || text == other,
        None => false,
    }
}
