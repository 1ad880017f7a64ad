// The laws of two worlds, each the contract of a function: what leaves on a connection is fixed by its own entry and
// its own input.
ghost use Rattle.connection_laws.specs.OneFile.{HasOneFile, HasOneFileForItsInputs};
ghost use Rattle.connection_laws.specs.TwoWorlds.{GivesTheSameInput, IsSameWhereShared, LeavesTheSame, OwesTheSame, ReportsTheSame, SendsTheSame, WritesTheSame};
ghost use Rattle.connection_laws.specs.UpToTurn.{LooksNotAhead, ShowsTheSameUpTo, WritesNothingAhead};

/// Two worlds: two accepted plans have the same entry, and two sets of inputs give its line as many whole
/// frames, with the same MFAS bytes, and the same bytes at the own places of its tributary, or its client the
/// same packets. Then what leaves on it is the same: its client's text, its own places in its line's file
/// and, with as many turns, its line of the report. All other entries, bytes and lengths are free.
pub fn two_worlds()
    ensures { IsSameWhereShared }
{}

/// Two sets of inputs that agree so show the same to the connection. Where its input shows the same, what it
/// emits, what it gets and what leaves to its client is the same in each of its own turns, and so is what
/// runs of as many turns report of it.
pub fn same_leaving()
    ensures input { GivesTheSameInput }
    ensures leaves { LeavesTheSame }
    ensures due { OwesTheSame }
    ensures report { ReportsTheSame }
{}

/// So are its own places in the file of its output line: payload, message and MSI bytes, in each frame that
/// both files have of its turns. Other slots, other connections and the numbers of turns and frames are free.
pub fn same_places()
    ensures frames { SendsTheSame }
    ensures file { WritesTheSame }
{}

/// No turn looks ahead: where the own input shows the same in a connection's first n own turns, its from end
/// emits the same in these, and in one turn more its to end gets the same, whatever the input shows later
/// (`leaves`); so the own places of a turn's frames are fixed by the own turns before it (`file`). Lines show
/// the same so far where the multiframes of these turns agree, and clients where their first packets do, as many
/// as fill the frames that are begun (`input`).
pub fn nothing_ahead()
    ensures input { ShowsTheSameUpTo }
    ensures leaves { LooksNotAhead }
    ensures file { WritesNothingAhead }
{}

/// A line file is one function of its plan and inputs, overhead and parities included: its first frames are
/// the same in every list of them. It is even one of the own inputs of the connections that go to the line.
pub fn one_line_file()
    ensures plan { HasOneFile }
    ensures inputs { HasOneFileForItsInputs }
{}
