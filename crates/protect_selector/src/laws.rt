// The laws about the choices, each the contract of a function.
ghost use Rattle.protect_selector.specs.Carried.{StaysWhileCarried, CarriesTwoLater, IsApart};
ghost use Rattle.protect_selector.specs.ReadsBack.{GetsAFront};
ghost use Rattle.protect_selector.specs.Laws.{HaveCauses, IsUpWhereOneIs, GivesAllOn, AreAligned, CompletesNoMore};

/// Every switch has its cause: a defect, where the side was not Up and the other one is; or, in revertive operation,
/// that working was Up for as many turns as are waited for. So the sink of the side is Up after each turn after which
/// one of the two is.
pub fn switches_have_causes()
    ensures causes { HaveCauses }
    ensures up { IsUpWhereOneIs }
{}

/// Without a switch, once nothing is still to be skipped, all that the side emits is given on. What is skipped keeps
/// groups whole: a turn completes no more of them than the side's own emission does, so at most 15,232 of a sink's
/// (`most_groups` of `tributary_model`).
pub fn groups_stay_whole()
    ensures all { GivesAllOn }
    ensures aligned { AreAligned }
    ensures groups { CompletesNoMore }
{}

/// Where the working line carries a client's bytes in steady numbers, there is no switch, whatever protection brings,
/// and the line output carries the same bytes, two turns later.
pub fn protects_what_is_carried()
    ensures stays { StaysWhileCarried }
    ensures carries { CarriesTwoLater }
{}

/// Whatever both lines bring, a node behind the line output gets a front of what was given on: no byte of that is lost,
/// doubled or out of order, and less than a group may be held back (`behind_a_gap` of `device_model`). The numbers that
/// are given on need not be steady, as after a switch.
pub fn protected_line_reads_back()
    ensures { GetsAFront }
{}

/// Two worlds: what goes on and what is told is fixed by the MFAS bytes and the tributary's own places of both lines.
pub fn selected_is_apart()
    ensures { IsApart }
{}
