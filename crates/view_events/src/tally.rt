// Numbers of 64 bits that stop at their end.
ghost use Rattle.std.specs.Prelude.{◌≡◌, ◌+◌, if◌then◌else◌};
ghost use Rattle.view_events.specs.Tallies.{capped};

/// One more, where this counts.
pub(crate) fn counted(number: u64, counts: bool) -> u64
    ensures { result ≡ (if counts then capped (number + 1) else number) }
{
    if counts {
        number.saturating_add(1)
    } else {
        number
    }
}

/// How many in a row, where the row goes on with this one, or ends before it.
pub(crate) fn run_on(run: u64, goes_on: bool) -> u64
    ensures { result ≡ (if goes_on then capped (run + 1) else 0) }
{
    if goes_on { run.saturating_add(1) } else { 0 }
}

/// The sum.
pub(crate) fn added(number: u64, more: u64) -> u64
    ensures { result ≡ capped (number + more) }
{
    number.saturating_add(more)
}
