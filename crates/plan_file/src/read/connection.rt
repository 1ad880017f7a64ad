// The connection that a table says.
ghost use Rattle.std.specs.Prelude.{◌≡◌, ◌≤◌, IfOk, IsTrue, map};
ghost use Rattle.std.specs.List.{list_all};
ghost use Rattle.plan_file.specs.Entry.{connection_of, from_of, to_of, natural, slots_between};
ghost use Rattle.plan_file.specs.Rules.{is_within};
ghost use Rattle.plan_file.specs.Steps.Seen.{end_in, entry_in};
ghost use Rattle.plan_file.specs.Steps.Sound.{IsSound, is_sound, is_no_signal};
ghost use Rattle.plan_file.specs.Table.{nominal};
ghost use Rattle.otn_base.specs.declared.limits.TheConstants.{MOST_SLOTS};

use crate::connection::{Connection, FromEnd, ToEnd};
use crate::name::Name;
use crate::outline::{End, Entry};
use crate::pace::Pace;
use crate::read::number::{slots, small, trace, word, words};
use crate::rules::slots_between;
use otn_base::Memory;
use otn_base::limits::NOMINAL;
use std::alloc::Global;

/// The connection that the entry says.
pub(crate) fn connection(alloc: Global, entry: &Entry) -> Result<Connection, Memory>
    requires { IsSound (entry_in entry.now) }
    ensures { IfOk result (λ connection. connection ≡ connection_of (entry_in entry.now)) }
{
    let name = String::from_str(alloc, entry.name())?;
    let pace = pace(alloc, entry)?;
    Ok(Connection {
        name: Name::of(name),
        kind: entry.kind(),
        from: from_end(&entry.from()),
        to: to_end(&entry.to()),
        pace,
        fcs: entry.fcs(),
        trace: trace(entry.trace()),
        start: word(entry.start()),
        stop: word(entry.stop()),
        retire: entry.retire(),
    })
}

fn from_end(end: &End) -> FromEnd
    requires { IsTrue (is_sound (end_in end.now)) }
    ensures { result ≡ from_of (end_in end.now) }
{
    match end {
        End::Line(line, port, kind, list) => {
            FromEnd::Line(small(*line), small(*port), slots(*kind, list))
        }
        End::Client(client) => FromEnd::Client(small(*client)),
        End::Signal(signal) => FromEnd::Signal(*signal),
    }
}

fn to_end(end: &End) -> ToEnd
    requires sound { IsTrue (is_sound (end_in end.now)) }
    requires no_signal { IsTrue (is_no_signal (end_in end.now)) }
    ensures { result ≡ to_of (end_in end.now) }
{
    match end {
        End::Line(line, port, kind, list) => {
            ToEnd::Line(small(*line), small(*port), slots(*kind, list))
        }
        End::Client(client) => ToEnd::Client(small(*client)),
        End::Signal(_) => unreachable!(),
    }
}

fn pace(alloc: Global, entry: &Entry) -> Result<Pace, Memory>
    requires { IsSound (entry_in entry.now) }
    ensures { IfOk result (λ pace. pace ≡ map natural (entry_in entry.now).pace) }
{
    match entry.pace() {
        Some(numbers) => Ok(Pace::of(words(alloc, &numbers)?)),
        None => nominal_pace(alloc, slots_between(&entry.from(), &entry.to())),
    }
}

// The nominal pace of so many slots.
fn nominal_pace(alloc: Global, count: usize) -> Result<Pace, Memory>
    requires { count ≤ MOST_SLOTS }
    ensures { IfOk result (λ pace. pace ≡ map natural (nominal count)) }
{
    let mut list = Vec::new(alloc);
    list.push(NOMINAL as u32 * count as u32)?;
    Ok(Pace::of(list))
}
