// How an entry that puts and one that takes suit one another.
ghost use Rattle.std.specs.Prelude.{◌≡◌};
ghost use Rattle.network_ways.specs.Tracing.{same_kind, same_slots, meets, goes_on};
ghost use Rattle.network_view.specs.Slots.{has_slot_of};
ghost use Rattle.network_view.specs.Troubles.{have_common_slot, have_common_turn, share_slots, overlap, is_like};

use otn_base::{LineKind, Slots};
use plan_file::{Connection, FromEnd, ToEnd};

/// How near an entry comes to go on in another, that does not: on the same slots and port, but not in all turns; on the
/// same slots in a common turn; or on a slot of them in a common turn; or not at all.
#[derive(Clone, Copy, Debug, PartialEq, Eq)]
pub enum Likeness {
    /// On the same slots by the same port, but not in all turns.
    Turns,
    /// On the same slots in a common turn, by another port.
    Port,
    /// On one of these slots in a common turn.
    Slots,
    /// None of these.
    Nothing,
}

/// Whether an entry goes on in another, by these lines.
pub(crate) fn goes_on(x: &Connection, y: &Connection, out: u8, into: u8) -> bool
    ensures { result ≡ goes_on x.now y.now out into }
{
    meets(&x.to, &y.from, out, into) && (x.start <= y.start && y.stop <= x.stop)
}

// Whether what goes to an end on line `out` is what comes from an end on line `into`.
fn meets(to: &ToEnd, from: &FromEnd, out: u8, into: u8) -> bool
    ensures { result ≡ meets to.now from.now out into }
{
    match (to, from) {
        (ToEnd::Line(line, port, slots), FromEnd::Line(other, number, others)) => {
            (*line == out && *other == into) && (*port == *number && same_slots(slots, others))
        }
        _ => false,
    }
}

fn same_slots(one: &Slots, other: &Slots) -> bool
    ensures { result ≡ same_slots one.now other.now }
{
    same_kind(one.kind(), other.kind()) && one.as_slice() == other.as_slice()
}

fn same_kind(kind: LineKind, other: LineKind) -> bool
    ensures { result ≡ same_kind kind other }
{
    match (kind, other) {
        (LineKind::Otu2, LineKind::Otu2) | (LineKind::Otu3, LineKind::Otu3) => true,
        _ => false,
    }
}

/// Whether an entry is so near to another, by these lines.
pub(crate) fn is_like(like: Likeness, x: &Connection, y: &Connection, out: u8, into: u8) -> bool
    ensures { result ≡ is_like like x.now y.now out into }
{
    match like {
        Likeness::Turns => meets(&x.to, &y.from, out, into),
        Likeness::Port => share_slots(&x.to, &y.from, out, into) && have_common_turn(x, y),
        Likeness::Slots => overlap(&x.to, &y.from, out, into) && have_common_turn(x, y),
        Likeness::Nothing => false,
    }
}

fn have_common_turn(x: &Connection, y: &Connection) -> bool
    ensures { result ≡ have_common_turn x.now y.now }
{
    x.start <= y.stop && y.start <= x.stop
}

// Whether they are on the same slots.
fn share_slots(to: &ToEnd, from: &FromEnd, out: u8, into: u8) -> bool
    ensures { result ≡ share_slots to.now from.now out into }
{
    match (to, from) {
        (ToEnd::Line(line, _, slots), FromEnd::Line(other, _, others)) => {
            (*line == out && *other == into) && same_slots(slots, others)
        }
        _ => false,
    }
}

// Whether they have a common slot.
fn overlap(to: &ToEnd, from: &FromEnd, out: u8, into: u8) -> bool
    ensures { result ≡ overlap to.now from.now out into }
{
    match (to, from) {
        (ToEnd::Line(line, _, slots), FromEnd::Line(other, _, others)) => {
            (*line == out && *other == into)
                && have_common_slot(slots.as_slice(), others.as_slice())
        }
        _ => false,
    }
}

fn have_common_slot(slots: &[u8], others: &[u8]) -> bool
    ensures { result ≡ have_common_slot slots.now others.now }
{
    slots.iter().any(|slot| has_slot(others, *slot))
}

/// Whether the slot is in the list.
pub(crate) fn has_slot(slots: &[u8], slot: u8) -> bool
    ensures { result ≡ has_slot_of slots.now slot }
{
    slots.iter().any(|one| *one == slot)
}
