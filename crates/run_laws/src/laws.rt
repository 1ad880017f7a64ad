// The laws of what a run leaves, each the contract of a function.
ghost use Rattle.run_laws.specs.FaultlessRuns.{FaultlessRunsEndByInputs};
ghost use Rattle.run_laws.specs.GivenRuns.{GivenMayBeInputs, IsRunOfGiven};
ghost use Rattle.run_laws.specs.RunsAlike.{RunsAgree};
ghost use Rattle.run_laws.specs.RunsThrough.{OutputsAreThrough, RunsCarry};
ghost use Rattle.run_laws.specs.SeenRuns.{SeenRunsAgree, SeenRunsCarry, SeenRunsLeaveOthers, SeenRunsLookNotAhead, SeenRunsPutThrough};

/// A run whose inputs tell their bytes: each place of an input that the plan uses gave some bytes, so these
/// are the lines and the packets that it carried. All that is said of a run's outputs and numbers for any
/// inputs that it may have had is then said of them.
pub fn run_of_given()
    ensures inputs { GivenMayBeInputs }
    ensures run { IsRunOfGiven }
{}

/// Two worlds: two runs of accepted plans have the same entry, and their inputs agree on what it comes from.
/// What went out on it agrees as far as both have gone, and wholly where both places have lived: its client's
/// text, its own places in its line's file, and its lines of the report. All other entries, bytes, lengths
/// and faults are free.
pub fn runs_agree()
    ensures { RunsAgree }
{}

/// A run in which no place that the plan uses was dead, and no port's count of faults rose or stands at its
/// end, is not cut: it is unfinished exactly where a line has more than its turns want, or a client is not
/// spent, and else it is done.
pub fn faultless_runs()
    ensures { FaultlessRunsEndByInputs }
{}

/// To a connection's client went the text that its own entry and its own input put through it, to its line the
/// line's file, of all its connections; a part of that from the front, and all where its place has lived. No order
/// in which the ports got their turn is named.
pub fn outputs_through()
    ensures { OutputsAreThrough }
{}

/// Intact carriage in a run: where its line carries a client's bytes, the output line carries them, three
/// turns later; of a client or a signal it carries the stream, a turn later; and at a client exactly the
/// packets are written whose GFP frames lie whole in the frames that came whole.
pub fn runs_carry()
    ensures { RunsCarry }
{}

/// The last three by what is seen of the places before and after: two runs of accepted plans have the same entry, and
/// what its own port had to give agrees; then what its output's port got agrees (`agree`). To a client went what its
/// entry puts through it of what its own port gave, to a line the file of what the ports of all entries that go there
/// gave (`through`); and what is carried to a connection leaves on it (`carry`). That is said of ports that tell their
/// bytes: of all other ports, and of what a run takes of its inputs and counts, nothing is asked. A place that the plan
/// does not use is seen as it was (`others`). And no turn looks ahead (`ahead`): where the two agree in the entry's
/// first own turns alone, so do its own places on its line in these and one turn more, and the text of its client where
/// these are all of its turns but one.
pub fn seen_runs()
    ensures agree { SeenRunsAgree }
    ensures through { SeenRunsPutThrough }
    ensures carry { SeenRunsCarry }
    ensures others { SeenRunsLeaveOthers }
    ensures ahead { SeenRunsLookNotAhead }
{}
