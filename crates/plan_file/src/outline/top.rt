// The top of a plan.
ghost use Rattle.std.specs.Prelude.{◌≡◌};
ghost use Rattle.toml.specs.View.{table_view};
ghost use Rattle.plan_file.specs.Entry.{top_seen};
ghost use Rattle.plan_file.specs.Table.{top_at};
ghost use Rattle.plan_file.specs.Steps.Seen.{top_in};

use crate::plan::Plan;
use plan_table::{Numbers, number_or, numbers_at, top_value};
use toml::Table;

/// What a plan says beside its connections: the number of turns, and which lines are OTU3 or scrambled.
#[derive(Clone, Copy)]
pub(crate) struct Top<'a> {
    pub(crate) turns: i64,
    pub(crate) otu3_in: Numbers<'a>,
    pub(crate) otu3_out: Numbers<'a>,
    pub(crate) scrambled_in: Numbers<'a>,
    pub(crate) scrambled_out: Numbers<'a>,
}

impl<'a> Top<'a> {
    /// The top that the table says.
    pub(crate) fn of_table(top: &'a Table) -> Top<'a>
        ensures { top_in result ≡ top_at (table_view top.now) }
    {
        Top {
            turns: number_or(top_value(top, "turns"), 0),
            otu3_in: numbers_at(top, "otu3-in"),
            otu3_out: numbers_at(top, "otu3-out"),
            scrambled_in: numbers_at(top, "scrambled-in"),
            scrambled_out: numbers_at(top, "scrambled-out"),
        }
    }

    /// The top of a plan.
    pub(crate) fn of_plan(plan: &'a Plan) -> Top<'a>
        ensures { top_in result ≡ top_seen plan.now }
    {
        Top {
            turns: i64::from(plan.turns),
            otu3_in: Numbers::Bytes(plan.otu3_in.as_slice()),
            otu3_out: Numbers::Bytes(plan.otu3_out.as_slice()),
            scrambled_in: Numbers::Bytes(plan.scrambled_in.as_slice()),
            scrambled_out: Numbers::Bytes(plan.scrambled_out.as_slice()),
        }
    }
}
