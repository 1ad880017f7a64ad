// The lists of the keys that a table may have.
ghost use Rattle.std.specs.Prelude.{◌≡◌, false};
ghost use Rattle.toml.specs.View.{table_view, view};
ghost use Rattle.plan_table.specs.Keys.{lists, knows_all, has_other, top_keys, line_list_keys, connection_keys};
ghost use Rattle.plan_table.specs.Steps.KeyList.{keys_in};

use toml::{Table, Value};

/// A list of the keys that a table may have.
#[derive(Clone, Copy)]
pub(crate) enum KeyList {
    /// The top, but in version 2.
    Top,
    /// The top in version 2.
    TopOfSecond,
    /// A connection from a client, or one whose `from` is no table.
    FromClient,
    /// A connection from a signal.
    FromSignal,
    /// A connection from a line.
    FromLine,
    /// An end at a client.
    Client,
    /// An end that is a signal.
    Signal,
    /// An end at a line.
    Line,
}

// A key of the top in each version.
fn is_plain_top_key(key: &str) -> bool
    ensures { result ≡ lists (top_keys false) key.now }
{
    matches!(key, "version" | "turns" | "connection")
}

// A key of the top in version 2 alone.
fn is_line_list_key(key: &str) -> bool
    ensures { result ≡ lists line_list_keys key.now }
{
    matches!(
        key,
        "otu3-in" | "otu3-out" | "scrambled-in" | "scrambled-out"
    )
}

// A key of each connection.
fn is_plain_key(key: &str) -> bool
    ensures { result ≡ lists (connection_keys false false) key.now }
{
    matches!(
        key,
        "name" | "kind" | "from" | "to" | "start" | "stop" | "retire"
    )
}

impl KeyList {
    // Whether the list has the key.
    fn lists(self, key: &str) -> bool
        ensures { result ≡ lists (keys_in self) key.now }
    {
        match self {
            KeyList::Top => is_plain_top_key(key),
            KeyList::TopOfSecond => is_plain_top_key(key) || is_line_list_key(key),
            KeyList::FromClient => is_plain_key(key) || matches!(key, "pace" | "fcs" | "trace"),
            KeyList::FromSignal => is_plain_key(key) || key == "pace",
            KeyList::FromLine => is_plain_key(key),
            KeyList::Client => key == "client",
            KeyList::Signal => key == "signal",
            KeyList::Line => matches!(key, "line" | "port" | "slots"),
        }
    }

    /// Whether each key of the table is in the list.
    pub(crate) fn knows_all(self, table: &Table) -> bool
        ensures { result ≡ knows_all (keys_in self) (table_view table.now) }
    {
        for (key, _) in table {
            if !self.lists(key.as_str()) {
                return false;
            }
        }
        true
    }

    /// Whether the value is a table with a key that is not in the list.
    pub(crate) fn lacks_a_key_of(self, value: &Value) -> bool
        ensures { result ≡ has_other (keys_in self) (view value.now) }
    {
        match value.as_table() {
            Some(table) => !self.knows_all(table),
            None => false,
        }
    }
}
