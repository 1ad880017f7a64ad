// The rule on names and traces.
ghost use Rattle.std.specs.Prelude.{◌≡◌};
ghost use Rattle.plan_file.specs.Rules.{breaks_name};
ghost use Rattle.plan_file.specs.Steps.Seen.{entry_in};

use crate::outline::Entry;
use plan_table::{is_name, is_sapi};

/// Whether the connection's name or its trace is none.
pub(crate) fn breaks_name(entry: &Entry) -> bool
    ensures { result ≡ breaks_name (entry_in entry.now) }
{
    !(is_name(entry.name()) && is_sapi(entry.trace()))
}
