// Whether each value of a connection is of its key's kind.
ghost use Rattle.std.specs.Prelude.{◌≡◌};
ghost use Rattle.toml.specs.View.{view};
ghost use Rattle.plan_table.specs.Kinds.{has_kinds, has_plain_kinds, has_other_kinds};

use crate::ends::Side;
use crate::kinds::end::has_end;
use crate::kinds::value::{Wanted, has};
use toml::Value;

/// Whether each value of the connection is of its key's kind.
pub fn has_kinds(connection: &Value) -> bool
    ensures { result ≡ has_kinds (view connection.now) }
{
    has_plain_kinds(connection) && has_other_kinds(connection)
}

fn has_plain_kinds(connection: &Value) -> bool
    ensures { result ≡ has_plain_kinds (view connection.now) }
{
    has(connection, "name", Wanted::Text)
        && has(connection, "kind", Wanted::Kind)
        && has_end(connection, Side::From)
        && has_end(connection, Side::To)
}

fn has_other_kinds(connection: &Value) -> bool
    ensures { result ≡ has_other_kinds (view connection.now) }
{
    has(connection, "pace", Wanted::Numbers)
        && has(connection, "fcs", Wanted::Truth)
        && has(connection, "trace", Wanted::Text)
        && has(connection, "start", Wanted::Number)
        && has(connection, "stop", Wanted::Number)
        && has(connection, "retire", Wanted::Truth)
}
