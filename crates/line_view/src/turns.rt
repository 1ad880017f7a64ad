// The turns of a line, with the sinks on it.
ghost use Rattle.std.specs.Prelude.{◌≡◌, ◌<◌, ◌≤◌, ◌+◌, ◌*◌, ℕ, List, [], if◌then◌else◌, length};
ghost use Rattle.otn_base.specs.LineSlots.{slots_of};
ghost use Rattle.otn_base.specs.declared.limits.TheConstants.{GROUPS, MOST_SLOTS};
ghost use Rattle.port_base.specs.InPlace.{in_view};
ghost use Rattle.port_base.specs.Views.{InView};
ghost use Rattle.line_side.specs.LineForm.{LineForm};
ghost use Rattle.line_view.specs.Steps.Viewing.{ViewStands, ViewMoves, TurnMoves};

use crate::msi::{MsiBytes, note_msi};
use crate::told::{TurnSeen, counts_between};
use crate::watched::{Watched, end_each, take_each};
use otn_base::LineKind;
use port_base::{InPlaceOf, Source};

/// Does turn t + 1 of a line of this kind, of which no piece is done, and says what was seen of the line in it; its MSI
/// bytes are noted.
pub(crate) fn do_turn<I: Source>(
    kind: LineKind,
    t: u32,
    line: &mut line_side::LineIn,
    watched: &mut Vec<Watched>,
    msi: &mut MsiBytes,
    room: &mut [u8],
    place: &mut InPlaceOf<I>,
) -> TurnSeen
    requires kind { line.old.kind ≡ kind }
    requires between { line.old.pieces ≡ 0 }
    requires none { msi.old.items ≡ [] }
    requires room { length room.old ≡ MOST_SLOTS * (GROUPS + 1) }
    ensures moves { (form : LineForm) (first : InView) (read : List ℕ)
        → ViewStands form first (in_view I.Source place.old) read t line.old watched.old.items []
        → TurnMoves form first (in_view I.Source place.new) read t line.old line.new watched.old.items
        watched.new.items result msi.new.items }
    ensures kind { line.new.kind ≡ kind }
    ensures between { line.new.pieces ≡ 0 }
    ensures room { length room.new ≡ length room.old }
{
    let was = line.counts();
    take_frames(kind, t, line, watched, msi, place);
    let whole = line.end_turn();
    end_each(watched, t, whole, room);
    keep_whole(whole, msi);
    TurnSeen {
        ended: line.ended(),
        whole,
        counts: counts_between(was, line.counts()),
    }
}

// A turn without a multiframe has no MSI bytes.
fn keep_whole(whole: bool, msi: &mut MsiBytes)
    ensures { msi.new.items ≡ (if whole then msi.old.items else []) }
{
    if !whole {
        msi.clear();
    }
}

// The pieces of a turn.
fn take_frames<I: Source>(
    kind: LineKind,
    t: u32,
    line: &mut line_side::LineIn,
    watched: &mut Vec<Watched>,
    msi: &mut MsiBytes,
    place: &mut InPlaceOf<I>,
)
    requires kind { line.old.kind ≡ kind }
    requires between { line.old.pieces ≡ 0 }
    requires none { msi.old.items ≡ [] }
    ensures moves { (form : LineForm) (first : InView) (read : List ℕ)
        → ViewStands form first (in_view I.Source place.old) read t line.old watched.old.items msi.old.items
        → ViewMoves form first (in_view I.Source place.new) read t line.old line.new watched.old.items
        watched.new.items msi.new.items }
    ensures kind { line.new.kind ≡ kind }
    ensures pieces { line.new.pieces ≡ slots_of kind }
{
    for _ in 0..kind.slots() {
        take_piece(kind, t, line, watched, msi, place);
    }
}

// A piece of a turn.
fn take_piece<I: Source>(
    kind: LineKind,
    t: u32,
    line: &mut line_side::LineIn,
    watched: &mut Vec<Watched>,
    msi: &mut MsiBytes,
    place: &mut InPlaceOf<I>,
)
    requires kind { line.old.kind ≡ kind }
    requires pieces { line.old.pieces < slots_of kind }
    requires few { length msi.old.items ≤ line.old.pieces }
    ensures moves { (form : LineForm) (first : InView) (read : List ℕ)
        → ViewStands form first (in_view I.Source place.old) read t line.old watched.old.items msi.old.items
        → ViewMoves form first (in_view I.Source place.new) read t line.old line.new watched.old.items
        watched.new.items msi.new.items }
    ensures few { length msi.new.items ≤ line.new.pieces }
    ensures kind { line.new.kind ≡ line.old.kind }
    ensures pieces { line.new.pieces ≡ line.old.pieces + 1 }
{
    if !line.piece(place) {
        return;
    }
    let expected = line.expected();
    note_msi(kind, line.frame(), expected, msi);
    take_each(watched, t, line.frame(), expected);
}
