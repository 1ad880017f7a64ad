// The values of the nodes, the fibres and the cuts, and what a value has at a key.
ghost use Rattle.std.specs.Prelude.{◌≡◌, map};
ghost use Rattle.toml.specs.View.{table_view, view};
ghost use Rattle.plan_table.specs.Ends.{has, is_table};
ghost use Rattle.network_file.specs.Table.{cuts_at, fibres_at, nodes_at};

use plan_table::{list_or_empty, top_value};
use toml::{Table, Value};

/// The values of the nodes, in order.
pub(crate) fn nodes_at(top: &Table) -> &[Value]
    ensures { map view result.now ≡ nodes_at (table_view top.now) }
{
    list_or_empty(top_value(top, "node"))
}

/// The values of the fibres, in order.
pub(crate) fn fibres_at(top: &Table) -> &[Value]
    ensures { map view result.now ≡ fibres_at (table_view top.now) }
{
    list_or_empty(top_value(top, "fibre"))
}

/// The values of the cuts, in order.
pub(crate) fn cuts_at(top: &Table) -> &[Value]
    ensures { map view result.now ≡ cuts_at (table_view top.now) }
{
    list_or_empty(top_value(top, "cut"))
}

/// Whether the value is a table with the key.
pub(crate) fn has(value: &Value, key: &str) -> bool
    ensures { result ≡ has key.now (view value.now) }
{
    match value.get(key) {
        Some(_) => true,
        None => false,
    }
}

/// Whether the value is a table.
pub(crate) fn is_table(value: &Value) -> bool
    ensures { result ≡ is_table (view value.now) }
{
    value.is_table()
}
