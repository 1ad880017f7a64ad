// The law of how ways are found, the contract of a function.
ghost use Rattle.network_ways.specs.Tracing.{FindsEachWay, FindsTheOneBefore, FindsWays};

/// The way to an entry is found by going back from it: the entry before one is the one that goes on in it, and there is
/// none exactly where none does (`before`). What is found from an end is a way of the network that begins with a first
/// entry (`found`), and each such way is found, in as many steps as it has entries (`each`).
pub fn ways_are_found()
    ensures before { FindsTheOneBefore }
    ensures found { FindsWays }
    ensures each { FindsEachWay }
{}
