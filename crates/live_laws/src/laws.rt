// The laws of handing in, each the contract of a function.
ghost use Rattle.live_laws.specs.HandedIn.{LinesGrow, PacketsGrow};
ghost use Rattle.live_laws.specs.LivePairs.{LivesAreIsolated, LivesLookNotAhead, RingsClose};
ghost use Rattle.live_laws.specs.LiveRuns.{LivesAreRuns};
ghost use Rattle.live_laws.specs.LiveTurns.{HandedMayGive, LiveTurns};

/// Where a node stands, it stands too if further bytes are handed in at the end of what an input line has yet to give,
/// unless its place has answered its end.
pub fn handing_in_line()
    ensures { LinesGrow }
{}

/// The same of a client input, unless its place has answered its end, or it was retired.
pub fn handing_in_packets()
    ensures { PacketsGrow }
{}

/// What was handed in so far is among what the inputs of a live node may turn out to be.
pub fn handed_may_give()
    ensures { HandedMayGive }
{}

/// What has left of a live node is what the definitions have due of all bytes handed in so far.
pub fn live_turns()
    ensures { LiveTurns }
{}

/// Two live nodes, of plans that may differ, share a connection. Where they were handed the same of what it comes from,
/// the same has left on it (`isolated`). Where they were handed the same of it in its first own turns alone, the same
/// has left on it in these and one turn more (`ahead`). All else is free.
pub fn lives_are_isolated()
    ensures isolated { LivesAreIsolated }
    ensures ahead { LivesLookNotAhead }
{}

/// Two live nodes of a plan that were handed the same for the turns that are done have put out the same, up to the turn
/// after these, whatever was handed in beside it. So nodes may stand in a ring.
pub fn ring_closes()
    ensures { RingsClose }
{}

/// What a live node leaves at its end is what a run of its plan over the bytes handed in leaves: what is proved of runs
/// by what is seen of their places is true of it.
pub fn live_is_run()
    ensures { LivesAreRuns }
{}
