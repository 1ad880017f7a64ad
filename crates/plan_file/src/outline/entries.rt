// The connections as the rules see them.
ghost use Rattle.std.specs.Prelude.{◌≡◌, ◌<◌, Some, length, slice_get};
ghost use Rattle.plan_file.specs.Steps.Seen.{entries_in, entry_in};

use crate::connection::Connection;
use crate::outline::entry::Entry;
use crate::outline::top::Top;
use plan_table::item;
use toml::Value;

/// The connections in order: those of a list of tables in a plan with this top, or those of a plan.
#[derive(Clone, Copy)]
pub(crate) enum Entries<'a> {
    Read(&'a [Value], Top<'a>),
    Planned(&'a [Connection]),
}

impl<'a> Entries<'a> {
    /// How many connections there are.
    pub(crate) fn len(&self) -> usize
        ensures { result ≡ length (entries_in self.now) }
    {
        match *self {
            Entries::Read(tables, _) => tables.len(),
            Entries::Planned(connections) => connections.len(),
        }
    }

    /// The connection at the index.
    #[tactic(auto, using(crate::proofs::Lists::slice_get_known))]
    pub(crate) fn at(&self, index: usize) -> Entry<'a>
        requires { index < length (entries_in self.now) }
        ensures { slice_get (entries_in self.now) index ≡ Some (entry_in result) }
    {
        match *self {
            Entries::Read(tables, top) => Entry::Read(item(tables, index), top),
            Entries::Planned(connections) => Entry::Planned(connection_at(connections, index)),
        }
    }
}

fn connection_at(connections: &[Connection], index: usize) -> &Connection
    requires { index < length connections.now }
    ensures { slice_get connections.now index ≡ Some result.now }
{
    &connections[index]
}
