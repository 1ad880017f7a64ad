// The rules on two connections.
ghost use Rattle.std.specs.Prelude.{◌≡◌};
ghost use Rattle.plan_file.specs.Rules.{have_one_name, meet, share_slot, share_port, share_client, have_one_slot, have_one_port, have_one_client};
ghost use Rattle.plan_file.specs.Steps.Seen.{end_in, entry_in};

use crate::outline::{End, Entry};
use plan_table::have_common;

/// Whether the two have one name.
pub(crate) fn have_one_name(entry: &Entry, other: &Entry) -> bool
    ensures { result ≡ have_one_name (entry_in entry.now) (entry_in other.now) }
{
    entry.name() == other.name()
}

/// Whether the two have a slot of one line in one turn.
pub(crate) fn have_one_slot(entry: &Entry, other: &Entry) -> bool
    ensures { result ≡ have_one_slot (entry_in entry.now) (entry_in other.now) }
{
    share_slot(&entry.to(), &other.to()) && meet(entry, other)
}

/// Whether the two have a tributary port of one line in one turn.
pub(crate) fn have_one_port(entry: &Entry, other: &Entry) -> bool
    ensures { result ≡ have_one_port (entry_in entry.now) (entry_in other.now) }
{
    share_port(&entry.to(), &other.to()) && meet(entry, other)
}

/// Whether the two come from one client, or go to one.
pub(crate) fn have_one_client(entry: &Entry, other: &Entry) -> bool
    ensures { result ≡ have_one_client (entry_in entry.now) (entry_in other.now) }
{
    share_client(&entry.from(), &other.from()) || share_client(&entry.to(), &other.to())
}

// The greater start is at most the lesser stop.
fn meet(entry: &Entry, other: &Entry) -> bool
    ensures { result ≡ meet (entry_in entry.now) (entry_in other.now) }
{
    entry.start().max(other.start()) <= entry.stop().min(other.stop())
}

fn share_slot(end: &End, other: &End) -> bool
    ensures { result ≡ share_slot (end_in end.now) (end_in other.now) }
{
    match (*end, *other) {
        (End::Line(line, _, _, slots), End::Line(number, _, _, others)) => {
            line == number && have_common(&slots, &others)
        }
        _ => false,
    }
}

fn share_port(end: &End, other: &End) -> bool
    ensures { result ≡ share_port (end_in end.now) (end_in other.now) }
{
    match (*end, *other) {
        (End::Line(line, port, _, _), End::Line(number, wanted, _, _)) => {
            line == number && port == wanted
        }
        _ => false,
    }
}

fn share_client(end: &End, other: &End) -> bool
    ensures { result ≡ share_client (end_in end.now) (end_in other.now) }
{
    match (*end, *other) {
        (End::Client(client), End::Client(number)) => client == number,
        _ => false,
    }
}
