// The laws of ways over fibres that may be damaged, each the contract of a function.
ghost use Rattle.damaged_ways.specs.DamagedWays.{DamagedWaysAreIsolated, DamagedWaysDeliver};

/// Isolation, end to end, whatever the fibres damage beside the customer's own bytes, and whether or not any port
/// tells its bytes. Two networks have a way by the same entries. Over each of its fibres the MFAS bytes and the
/// tributary's own places come as they were written, in the turns in which they are taken; all other bytes may come as
/// others. Where the inputs of the first nodes agree on what its entry comes from, what leaves at the end is the same
/// in both, and so are its numbers in the report.
pub fn damaged_ways_are_isolated()
    ensures { DamagedWaysAreIsolated }
{}

/// Delivery over such fibres: to the client at the end go exactly the packets that had the turns for it.
pub fn damaged_ways_deliver()
    ensures { DamagedWaysDeliver }
{}
