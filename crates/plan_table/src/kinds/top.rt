// Whether each value of the top is what its key asks for.
ghost use Rattle.std.specs.Prelude.{◌≡◌};
ghost use Rattle.toml.specs.View.{table_view};
ghost use Rattle.plan_table.specs.Kinds.{has_top_kinds, has_line_list_kinds};

use crate::kinds::value::{Wanted, top_has};
use toml::Table;

/// Whether each value of the top is what its key asks for.
pub fn has_top_kinds(top: &Table) -> bool
    ensures { result ≡ has_top_kinds (table_view top.now) }
{
    top_has(top, "version", Wanted::Version)
        && top_has(top, "turns", Wanted::Number)
        && top_has(top, "connection", Wanted::Tables)
        && has_line_lists(top)
}

fn has_line_lists(top: &Table) -> bool
    ensures { result ≡ has_line_list_kinds (table_view top.now) }
{
    top_has(top, "otu3-in", Wanted::Numbers)
        && top_has(top, "otu3-out", Wanted::Numbers)
        && top_has(top, "scrambled-in", Wanted::Numbers)
        && top_has(top, "scrambled-out", Wanted::Numbers)
}
