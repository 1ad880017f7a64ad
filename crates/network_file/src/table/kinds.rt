// Whether each value of a table of a network's file is of its key's kind.
ghost use Rattle.std.specs.Prelude.{◌≡◌, codes};
ghost use Rattle.toml.specs.View.{items_view, table_view, view};
ghost use Rattle.plan_table.specs.Ends.{is_table};
ghost use Rattle.plan_table.specs.Kinds.{each_at, each_item, is_number, is_number_list, is_table_list, is_text, top_each_at};
ghost use Rattle.network_file.specs.Kinds.{has_cut_kinds, has_fibre_kinds, has_node_kinds, has_top_kinds, is_end};

use crate::table::values::is_table;
use plan_table::top_value;
use toml::{Table, Value};

/// Whether each value of the top is of its key's kind.
pub(crate) fn has_top_kinds(top: &Table) -> bool
    ensures { result ≡ has_top_kinds (table_view top.now) }
{
    has_tables(top, "node") && has_tables(top, "fibre") && has_tables(top, "cut")
}

/// Whether each value of the node is of its key's kind.
pub(crate) fn has_node_kinds(node: &Value) -> bool
    ensures { result ≡ has_node_kinds (view node.now) }
{
    has_text(node, "name") && has_text(node, "folder")
}

/// Whether each value of the fibre is of its key's kind.
pub(crate) fn has_fibre_kinds(fibre: &Value) -> bool
    ensures { result ≡ has_fibre_kinds (view fibre.now) }
{
    has_end(fibre, "from") && has_end(fibre, "to")
}

/// Whether each value of the cut is of its key's kind.
pub(crate) fn has_cut_kinds(cut: &Value) -> bool
    ensures { result ≡ has_cut_kinds (view cut.now) }
{
    has_number(cut, "fibre") && has_turns(cut)
}

fn has_tables(top: &Table, key: &str) -> bool
    ensures { result ≡ top_each_at key.now is_table_list (table_view top.now) }
{
    match top_value(top, key) {
        Some(value) => is_table_list(value),
        None => true,
    }
}

fn is_table_list(value: &Value) -> bool
    ensures { result ≡ is_table_list (view value.now) }
{
    match value.as_array() {
        Some(values) => all_tables(values.as_slice()),
        None => false,
    }
}

fn all_tables(values: &[Value]) -> bool
    ensures { result ≡ each_item is_table (items_view values.now) }
{
    for value in values {
        if !value.is_table() {
            return false;
        }
    }
    true
}

fn has_text(value: &Value, key: &str) -> bool
    ensures { result ≡ each_at key.now is_text (view value.now) }
{
    match value.get(key) {
        Some(found) => found.is_str(),
        None => true,
    }
}

fn has_end(fibre: &Value, side: &str) -> bool
    ensures { result ≡ each_at side.now is_end (view fibre.now) }
{
    match fibre.get(side) {
        Some(end) => is_end(end),
        None => true,
    }
}

fn is_end(end: &Value) -> bool
    ensures { result ≡ is_end (view end.now) }
{
    is_table(end) && has_text(end, "node") && has_number(end, "line")
}

fn has_number(value: &Value, key: &str) -> bool
    ensures { result ≡ each_at key.now is_number (view value.now) }
{
    match value.get(key) {
        Some(found) => found.is_integer(),
        None => true,
    }
}

fn has_turns(cut: &Value) -> bool
    ensures { result ≡ each_at (codes "turns") is_number_list (view cut.now) }
{
    match cut.get("turns") {
        Some(turns) => is_number_list(turns),
        None => true,
    }
}

fn is_number_list(value: &Value) -> bool
    ensures { result ≡ is_number_list (view value.now) }
{
    match value.as_array() {
        Some(values) => all_numbers(values.as_slice()),
        None => false,
    }
}

fn all_numbers(values: &[Value]) -> bool
    ensures { result ≡ each_item is_number (items_view values.now) }
{
    for value in values {
        if !value.is_integer() {
            return false;
        }
    }
    true
}
