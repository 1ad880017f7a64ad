// The rule on paces.
ghost use Rattle.std.specs.Prelude.{◌≡◌};
ghost use Rattle.plan_file.specs.Entry.{slot_count, slots_between};
ghost use Rattle.plan_file.specs.Rules.{breaks_pace};
ghost use Rattle.plan_file.specs.Steps.Seen.{end_in, entry_in};

use crate::outline::{End, Entry};
use crate::rules::places::is_line;
use plan_table::{is_nominal_pace, is_pace};

/// Whether the pace is too short or too long, or has a number out of range.
pub(crate) fn breaks_pace(entry: &Entry) -> bool
    ensures { result ≡ breaks_pace (entry_in entry.now) }
{
    let count = slots_between(&entry.from(), &entry.to());
    match entry.pace() {
        Some(pace) => !is_pace(entry.kind(), count, &pace),
        None => !is_nominal_pace(entry.kind(), count),
    }
}

/// How many slots the line end has, or both have.
pub(crate) fn slots_between(from: &End, to: &End) -> usize
    ensures { result ≡ slots_between (end_in from.now) (end_in to.now) }
{
    if is_line(from) {
        slot_count(from)
    } else {
        slot_count(to)
    }
}

fn slot_count(end: &End) -> usize
    ensures { result ≡ slot_count (end_in end.now) }
{
    match end {
        End::Line(_, _, _, slots) => slots.len(),
        _ => 0,
    }
}
