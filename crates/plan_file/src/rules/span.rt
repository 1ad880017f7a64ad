// The rule on spans.
ghost use Rattle.std.specs.Prelude.{◌≡◌};
ghost use Rattle.plan_file.specs.Rules.{is_span, can_retire, breaks_span};
ghost use Rattle.plan_file.specs.Steps.Seen.{entry_in};

use crate::outline::Entry;
use crate::rules::places::is_client;

/// Whether the connection's turns are no span of a plan of so many turns, or it has no client to be retired.
pub(crate) fn breaks_span(turns: i64, entry: &Entry) -> bool
    ensures { result ≡ breaks_span turns (entry_in entry.now) }
{
    !(is_span(turns, entry) && can_retire(entry))
}

fn is_span(turns: i64, entry: &Entry) -> bool
    ensures { result ≡ is_span turns (entry_in entry.now) }
{
    1 <= entry.start() && entry.start() <= entry.stop() && entry.stop() <= turns
}

fn can_retire(entry: &Entry) -> bool
    ensures { result ≡ can_retire (entry_in entry.now) }
{
    !entry.retire() || is_client(&entry.from()) || is_client(&entry.to())
}
