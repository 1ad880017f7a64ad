// The law of runs in a row, the contract of a function.
ghost use Rattle.connection_laws.specs.RunsInARow.{CarriesThroughRuns};

/// Chains: any number of runs of accepted plans, each of which reads the line file that the one before made,
/// with the kind and the mask that it was written with, on the slots and the tributary port that were
/// written, from the same turn on and to a stop that is no later. Where the first one's line carries a
/// client's bytes, in steady numbers, the last one's file carries them, three turns later for each run.
pub fn carried_through_runs()
    ensures { CarriesThroughRuns }
{}
