// The laws about the definitions, each the contract of a function.
ghost use Rattle.std.specs.Prelude.{◌≡◌, ◌+◌, ◌-◌, ◌*◌, ◌≤◌};
ghost use Rattle.otn_base.specs.declared.limits.TheConstants.{GROUPS, MOST_SLOTS};
ghost use Rattle.tributary_model.specs.Laws.{IsFixedByOwnPlaces, GivesWholeViews, EmitsTheAmount, GivesTheEmission, StandsAsDefined, EmitsAtMost, CompletesAtMost};

use otn_base::limits::GROUPS;

/// What a multiframe shows of a tributary is fixed by its own places and the numbers expected of its
/// frames, whatever stands elsewhere; and as many frames as the line has slots give every group.
pub fn own_places_alone()
    ensures fixed { IsFixedByOwnPlaces }
    ensures whole { GivesWholeViews }
{}

/// The most bytes that a sink of `slots` slots emits in a turn, on a line of either kind. A buffer of so
/// many bytes holds any turn's emission. No layer calls it: a pipe takes room for one byte more.
pub fn most_bytes(slots: usize) -> usize
    requires some { 1 ≤ slots }
    requires few { slots ≤ MOST_SLOTS }
    ensures value { result ≡ slots * GROUPS + slots - 1 }
    ensures law { EmitsAtMost slots result }
{
    slots * GROUPS + slots - 1
}

/// The most groups that a turn of a sink of `slots` slots completes: as many as a multiframe has, so the
/// source that sends them on can say each turn's number. No layer calls it.
pub fn most_groups(slots: usize) -> usize
    requires some { 1 ≤ slots }
    ensures value { result ≡ GROUPS }
    ensures law { CompletesAtMost slots result }
{
    GROUPS
}

/// A sink needs no totals: with what its stretch said last, the bytes that it has not emitted and its
/// place in the AIS stream, it gives in every turn what the totals say, and stands as they say.
pub fn sink_without_totals()
    ensures bytes { GivesTheEmission }
    ensures count { EmitsTheAmount }
    ensures state { StandsAsDefined }
{}
