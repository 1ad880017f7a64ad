// The laws of channels that are taken apart, each the contract of a function.
ghost use Rattle.unbundle_command.specs.Laws.{IsApart};

/// What arrives on the channels of a line is fixed by the own places of its slot 1 and its MFAS bytes: nothing else on
/// the line changes it.
pub fn unbundled_is_apart()
    ensures { IsApart }
{}
