// A cut, as the text has it.
ghost use Rattle.std.specs.Prelude.{◌≡◌, Some, map, pos};
ghost use Rattle.toml.specs.View.{view};
ghost use Rattle.plan_table.specs.Values.{number_or};
ghost use Rattle.network_file.specs.Table.{cut_at, turns_in};

use plan_table::{item, list_or_empty, number_or};
use std::marker::Model;
use toml::Value;

/// A cut: of the fibre of this number, in these turns, where they are two numbers.
#[derive(Drop)]
pub(crate) struct Cut {
    pub(crate) fibre: i64,
    pub(crate) turns: Option<(i64, i64)>,
}

impl Model for Cut {
    ghost use Rattle.network_file.specs.Outline.{Cut};

    ghost Value = { Cut };

    ghost view = { λ c. record { fibre = c.fibre; turns = c.turns } };
}

impl Cut {
    /// The cut that the value says.
    pub(crate) fn of_table(cut: &Value) -> Cut
        ensures { result ≡ cut_at (view cut.now) }
    {
        Cut {
            fibre: number_or(cut.get("fibre"), 0),
            turns: turns_in(list_or_empty(cut.get("turns"))),
        }
    }
}

// Two numbers, or none.
#[tactic(auto, using(crate::proofs::Pairs::pairs))]
fn turns_in(values: &[Value]) -> Option<(i64, i64)>
    ensures { result ≡ turns_in (map view values.now) }
{
    if values.len() != 2 {
        return None;
    }
    Some(pair_of(item(values, 0), item(values, 1)))
}

fn pair_of(one: &Value, other: &Value) -> (i64, i64)
    ensures { result ≡ (number_or (pos 0) (Some (view one.now)), number_or (pos 0) (Some (view other.now))) }
{
    (number_or(Some(one), 0), number_or(Some(other), 0))
}
