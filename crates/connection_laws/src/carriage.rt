// The laws of carriage, each the contract of a function: what the files of output lines carry.
ghost use Rattle.connection_laws.specs.Accepted.{GoesAsAsked, HasAsManySlots};
ghost use Rattle.connection_laws.specs.Carried.{CarriesOn, CarriesAClient, CarriesASignal, GetsTheStream, GetsTheSignal};
ghost use Rattle.connection_laws.specs.Chains.{CarriesThroughAll};
ghost use Rattle.connection_laws.specs.Delivery.{GetsWhatIsCarried, DeliversItsPackets};

/// Intact carriage: where the views of a connection's own tributary carry a client's bytes, in steady
/// numbers, from its first turn on, those that the output line's file shows of it carry the same bytes,
/// and say the same numbers and remainders three turns later.
pub fn carried_on()
    ensures { CarriesOn }
{}

/// A connection that comes from a client or from a signal: the output line's file carries what the
/// connection gets, nothing in its first turn and then in each as many bytes as the pace of the turn before.
/// This is the front of the client's stream of frames, or of the signal's, without gap or repetition.
pub fn carried_from()
    ensures client { CarriesAClient }
    ensures signal { CarriesASignal }
    ensures frames { GetsTheStream }
    ensures pattern { GetsTheSignal }
{}

/// A connection from a line whose views carry bytes gets their front, in order. Where these are the front
/// of a client's stream, with packets of 1 to 65,527 bytes, the packets that arrive at a client are, in
/// order, those whose GFP frames lie whole in the frames that arrived whole (G.709 clause 17.4).
pub fn packets_at_client()
    ensures bytes { GetsWhatIsCarried }
    ensures packets { DeliversItsPackets }
{}

/// Through any number of nodes in a row, each of which reads the line file of the one before with its kind
/// and its mask, a client's bytes are carried to the last one's file, three turns later for each node.
pub fn carried_through_all()
    ensures { CarriesThroughAll }
{}

/// Each connection of a sound plan meets what these laws ask of it: it goes to slots of its line, by one of
/// the line's ports, its paces are within what they hold, and from a line to a line it has as many slots.
pub fn sound_connections()
    ensures goes { GoesAsAsked }
    ensures slots { HasAsManySlots }
{}
