// Whether a table of a network's file has a key that is not in its list.
ghost use Rattle.std.specs.Prelude.{◌≡◌};
ghost use Rattle.toml.specs.View.{table_view, view};
ghost use Rattle.plan_table.specs.Keys.{has_other, knows_all, lists};
ghost use Rattle.network_file.specs.Keys.{has_unknown_cut_key, has_unknown_end_key, has_unknown_fibre_key, has_unknown_node_key, has_unknown_top_key};
ghost use Rattle.network_file.specs.Steps.KeyList.{keys_in};

use toml::{Table, Value};

/// A list of the keys that a table may have.
#[derive(Clone, Copy)]
pub(crate) enum KeyList {
    /// The top.
    Top,
    /// A node.
    Node,
    /// A fibre.
    Fibre,
    /// An end of a fibre.
    End,
    /// A cut.
    Cut,
}

impl KeyList {
    // Whether the list has the key.
    fn lists(self, key: &str) -> bool
        ensures { result ≡ lists (keys_in self) key.now }
    {
        match self {
            KeyList::Top => matches!(key, "node" | "fibre" | "cut"),
            KeyList::Node => matches!(key, "name" | "folder"),
            KeyList::Fibre => matches!(key, "from" | "to"),
            KeyList::End => matches!(key, "node" | "line"),
            KeyList::Cut => matches!(key, "fibre" | "turns"),
        }
    }

    // Whether each key of the table is in the list.
    fn knows_all(self, table: &Table) -> bool
        ensures { result ≡ knows_all (keys_in self) (table_view table.now) }
    {
        for (key, _) in table {
            if !self.lists(key.as_str()) {
                return false;
            }
        }
        true
    }

    // Whether the value is a table with a key that is not in the list.
    fn lacks_a_key_of(self, value: &Value) -> bool
        ensures { result ≡ has_other (keys_in self) (view value.now) }
    {
        match value.as_table() {
            Some(table) => !self.knows_all(table),
            None => false,
        }
    }
}

/// Whether the top has a key that is not in its list.
pub(crate) fn has_unknown_top_key(top: &Table) -> bool
    ensures { result ≡ has_unknown_top_key (table_view top.now) }
{
    !KeyList::Top.knows_all(top)
}

/// Whether the node is a table with a key that is not in its list.
pub(crate) fn has_unknown_node_key(node: &Value) -> bool
    ensures { result ≡ has_unknown_node_key (view node.now) }
{
    KeyList::Node.lacks_a_key_of(node)
}

/// Whether the fibre, its `from` or its `to` is a table with a key that is not in its list.
pub(crate) fn has_unknown_fibre_key(fibre: &Value) -> bool
    ensures { result ≡ has_unknown_fibre_key (view fibre.now) }
{
    KeyList::Fibre.lacks_a_key_of(fibre)
        || has_unknown_end_key(fibre, "from")
        || has_unknown_end_key(fibre, "to")
}

fn has_unknown_end_key(fibre: &Value, side: &str) -> bool
    ensures { result ≡ has_unknown_end_key side.now (view fibre.now) }
{
    match fibre.get(side) {
        Some(end) => KeyList::End.lacks_a_key_of(end),
        None => false,
    }
}

/// Whether the cut is a table with a key that is not in its list.
pub(crate) fn has_unknown_cut_key(cut: &Value) -> bool
    ensures { result ≡ has_unknown_cut_key (view cut.now) }
{
    KeyList::Cut.lacks_a_key_of(cut)
}
