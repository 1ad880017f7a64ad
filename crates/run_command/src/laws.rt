// Laws over what `run` answers for.
ghost use Rattle.run_command.specs.Headline.{HasCarriedIt, IsCarried, IsIsolated, IsOfAPlan, IsThrough};
ghost use Rattle.run_command.specs.Headline.{LeavesOthers, LooksNotAhead};
ghost use Rattle.run_command.specs.RunCalls.{CallsAreIsolated, CallsCarry, CallsPutThrough, HasRunItsPlan};
ghost use Rattle.run_command.specs.RunLaws.{RunAnswersForItsText};

/// `run`, by the whole text of a source that tells it.
pub fn run_of_text()
    ensures { RunAnswersForItsText }
{}

/// The headline, by what is seen of the places before and after a call of `run` that carried a plan (`runs`: each that
/// answered Done, Unfinished, Cut or ReportFault). The plan that it carried is the one that the text means that it read
/// (`plan`). No connection touches another (`isolated`): where two calls share an
/// entry, and what its own port had to give agrees (a line's whole frames, MFAS bytes and own places; a client's
/// packets), what its output's port got agrees as far as both have gone, and wholly where its place has lived in both:
/// a client's text, and on a line its own places, where both lines are scrambled or neither is. No turn looks ahead
/// (`ahead`): where the two agree in the entry's first own turns alone, so do its own places on its line in these and
/// one turn more. To a client went what its own entry puts through it of what its own port gave, to a line the file of
/// what the ports of all entries that go there gave (`through`). Where its bytes come unharmed they leave the same
/// (`carried`): on a line three turns later, and of packets exactly those that came whole. The two ports are to tell
/// their bytes; of all others nothing is asked. A client place that was retired shows what went to it where its port
/// keeps it, as one in memory does (`headline_of_any_inputs` speaks of those too that show nothing). A place that the
/// plan does not use is as it was (`others`).
pub fn headline()
    ensures runs { IsOfAPlan }
    ensures plan { HasCarriedIt }
    ensures isolated { IsIsolated }
    ensures ahead { LooksNotAhead }
    ensures through { IsThrough }
    ensures carried { IsCarried }
    ensures others { LeavesOthers }
{}

/// The headline, whatever the inputs of a call may have been, so also of ports that tell nothing; and where they tell,
/// with what they gave (`runs`). What went to the outputs is what the calls themselves say of it: on a connection it
/// agrees in two calls whose inputs agree on what it comes from, and so do its numbers in the report (`isolated`); it
/// is what its entry puts through it (`through`), and carries what came (`carried`).
pub fn headline_of_any_inputs()
    ensures runs { HasRunItsPlan }
    ensures isolated { CallsAreIsolated }
    ensures through { CallsPutThrough }
    ensures carried { CallsCarry }
{}
