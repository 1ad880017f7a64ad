// An entry of a plan once more, in memory of its own.
ghost use Rattle.std.specs.Prelude.{◌≡◌, IfOk};

use otn_base::Memory;
use plan_file::{Connection, FromEnd, Name, Pace, ToEnd};
use std::alloc::Global;

/// The same entry; `Memory` where there is none.
pub(crate) fn copy_of(alloc: Global, entry: &Connection) -> Result<Connection, Memory>
    ensures { IfOk result (λ copy. copy ≡ entry.now) }
{
    let name = String::from_str(alloc, entry.name.as_str())?;
    let pace = Vec::from_slice(alloc, entry.pace.as_slice())?;
    let from = same_from(&entry.from)?;
    let to = same_to(&entry.to)?;
    let trace = entry.trace.clone()?;
    Ok(Connection {
        name: Name::of(name),
        kind: entry.kind,
        from,
        to,
        pace: Pace::of(pace),
        fcs: entry.fcs,
        trace,
        start: entry.start,
        stop: entry.stop,
        retire: entry.retire,
    })
}

fn same_from(from: &FromEnd) -> Result<FromEnd, Memory>
    ensures { IfOk result (λ copy. copy ≡ from.now) }
{
    match from {
        FromEnd::Line(a, port, slots) => Ok(FromEnd::Line(*a, *port, slots.clone()?)),
        FromEnd::Client(n) => Ok(FromEnd::Client(*n)),
        FromEnd::Signal(signal) => Ok(FromEnd::Signal(*signal)),
    }
}

fn same_to(to: &ToEnd) -> Result<ToEnd, Memory>
    ensures { IfOk result (λ copy. copy ≡ to.now) }
{
    match to {
        ToEnd::Line(b, port, slots) => Ok(ToEnd::Line(*b, *port, slots.clone()?)),
        ToEnd::Client(n) => Ok(ToEnd::Client(*n)),
    }
}
