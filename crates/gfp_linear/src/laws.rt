// Laws of the definitions that makers and readers meet.
ghost use Rattle.gfp_linear.specs.Laws.{ChannelsArrive, EachChannelArrives, FirstPacketsArrive, OthersMakeNoDifference, ArrivalsStay, ChannelsTakeTurns, NoneIdleWhileOneWaits, WeaveStarts, WeaveGoesOn, MadeIsTheWeave};

/// What arrives of any first bytes of a stream of channels is what its frames carry that lie whole in them; on each
/// channel its own; and the packets on a channel do not hang on the others.
pub fn channels_arrive()
    ensures all { ChannelsArrive }
    ensures each { EachChannelArrives }
    ensures first { FirstPacketsArrive }
    ensures alone { OthersMakeNoDifference }
{}

/// Between two successive packets of a channel every other channel gives at most one frame; and while a packet waits,
/// no frame is idle.
pub fn channels_take_turns()
    ensures turns { ChannelsTakeTurns }
    ensures busy { NoneIdleWhileOneWaits }
{}

/// What arrived in a list of bytes stays, whatever comes after it.
pub fn arrivals_stay()
    ensures { ArrivalsStay }
{}

/// A maker whose channels give what their texts offer gives the weave of the texts: the stream is a function of them.
pub fn made_is_the_weave()
    ensures starts { WeaveStarts }
    ensures goes_on { WeaveGoesOn }
    ensures made { MadeIsTheWeave }
{}
