// A plan as its rules see it.
ghost use Rattle.std.specs.Prelude.{◌≡◌};
ghost use Rattle.toml.specs.View.{table_view};
ghost use Rattle.plan_file.specs.Entry.{outline};
ghost use Rattle.plan_file.specs.Table.{outline_at};
ghost use Rattle.plan_file.specs.Steps.Seen.{outline_in};

use crate::outline::entries::Entries;
use crate::outline::top::Top;
use crate::plan::Plan;
use plan_table::connections;
use toml::Table;

/// A plan: what its top says, and its connections in order.
#[derive(Clone, Copy)]
pub(crate) struct Outline<'a> {
    pub(crate) top: Top<'a>,
    pub(crate) entries: Entries<'a>,
}

impl<'a> Outline<'a> {
    /// The plan that the table says.
    pub(crate) fn of_table(table: &'a Table) -> Outline<'a>
        ensures { outline_in result ≡ outline_at (table_view table.now) }
    {
        let top = Top::of_table(table);
        Outline {
            top,
            entries: Entries::Read(connections(table), top),
        }
    }

    /// A plan that stands.
    pub(crate) fn of_plan(plan: &'a Plan) -> Outline<'a>
        ensures { outline_in result ≡ outline plan.now }
    {
        Outline {
            top: Top::of_plan(plan),
            entries: Entries::Planned(plan.connections.as_slice()),
        }
    }
}
