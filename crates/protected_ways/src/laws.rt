// The law of ways over 1+1 protection, the contract of a function.
ghost use Rattle.protected_ways.specs.ProtectedWays.{ProtectedWaysAreIsolated};

/// Isolation over 1+1 protection: a customer's tributary arrives by two ways on the two lines of `protect`, and what
/// that gives on goes on in an entry of a node. Two networks have this by the same entries and the same protection, and
/// the first nodes of both ways agree on what their entries come from. Then what leaves at the end is the same in both,
/// whatever all else in both networks is, and whatever the fibres damage beside the tributary's own places and MFAS
/// bytes.
pub fn protected_ways_are_isolated()
    ensures { ProtectedWaysAreIsolated }
{}
