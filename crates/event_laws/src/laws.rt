// The law of events, as the contract of a function.
ghost use Rattle.event_laws.specs.Laws.{HasTheseLines, AskedAreShown, PlannedAreShown, AreInRange, WritesItsEvents};

use port_base::Sink;

/// The text of a view is that of its lines, those of the definition (`lines`). Where the bytes are bytes and the
/// tributaries are of the line, their numbers are in their ranges (`range`). The tributaries that are asked for are so
/// (`asked`), and the connections of a plan (`planned`). A sink of events that took this text, in whatever pieces,
/// wrote the events of these lines to the sink below it, and no other bytes (`events`).
pub fn what_events_say<K: Sink>()
    ensures lines { HasTheseLines }
    ensures asked { AskedAreShown }
    ensures planned { PlannedAreShown }
    ensures range { AreInRange }
    ensures events { WritesItsEvents K.Sink }
{}
