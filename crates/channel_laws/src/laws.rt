// The laws of channels from clients to clients.
ghost use Rattle.channel_laws.specs.ComesOut.{AreInputsCarried, ArrivesAsBundled, ComesOut, FirstComeOut};

/// What `bundle` wrote comes out of `unbundle`, up to the turn in which the line ends: a client's packets whose
/// frames lie whole in the client frames of all turns but the last two go to the output of its number, in order, and
/// no others go there (`out`). They are the first of the client's packets (`first`), of which each is one that a
/// channel can carry (`carried`). Behind that turn the sink emits AIS, which may complete the client frame that was
/// begun.
pub fn bundled_comes_out()
    ensures arrives { ArrivesAsBundled }
    ensures out { ComesOut }
    ensures first { FirstComeOut }
    ensures carried { AreInputsCarried }
{}
