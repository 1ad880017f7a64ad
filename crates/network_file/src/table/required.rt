// Whether a table of a network's file lacks a key that it must have.
ghost use Rattle.std.specs.Prelude.{◌≡◌};
ghost use Rattle.toml.specs.View.{table_view, view};
ghost use Rattle.plan_table.specs.Keys.{lacks};
ghost use Rattle.network_file.specs.Keys.{lacks_cut_key, lacks_end_key, lacks_fibre_key, lacks_key_of_end, lacks_node_key, lacks_nodes};

use crate::table::values::{has, is_table};
use plan_table::top_value;
use toml::{Table, Value};

/// Whether the top lacks its nodes.
pub(crate) fn lacks_nodes(top: &Table) -> bool
    ensures { result ≡ lacks_nodes (table_view top.now) }
{
    match top_value(top, "node") {
        Some(_) => false,
        None => true,
    }
}

/// Whether the node is a table and lacks its name.
pub(crate) fn lacks_node_key(node: &Value) -> bool
    ensures { result ≡ lacks_node_key (view node.now) }
{
    lacks(node, "name")
}

/// Whether the fibre, its `from` or its `to` is a table and lacks a key.
pub(crate) fn lacks_fibre_key(fibre: &Value) -> bool
    ensures { result ≡ lacks_fibre_key (view fibre.now) }
{
    lacks(fibre, "from")
        || lacks(fibre, "to")
        || lacks_end_key(fibre, "from")
        || lacks_end_key(fibre, "to")
}

fn lacks_end_key(fibre: &Value, side: &str) -> bool
    ensures { result ≡ lacks_end_key side.now (view fibre.now) }
{
    match fibre.get(side) {
        Some(end) => lacks_key_of_end(end),
        None => false,
    }
}

fn lacks_key_of_end(end: &Value) -> bool
    ensures { result ≡ lacks_key_of_end (view end.now) }
{
    lacks(end, "node") || lacks(end, "line")
}

/// Whether the cut is a table and lacks a key.
pub(crate) fn lacks_cut_key(cut: &Value) -> bool
    ensures { result ≡ lacks_cut_key (view cut.now) }
{
    lacks(cut, "fibre") || lacks(cut, "turns")
}

fn lacks(value: &Value, key: &str) -> bool
    ensures { result ≡ lacks key.now (view value.now) }
{
    is_table(value) && !has(value, key)
}
