// The law of networks of calls of `run`, the contract of a function.
ghost use Rattle.network_headline.specs.CalledNetworks.{CallsAreARun};

/// A network each of whose nodes was run by a call of `run` that carried its plan is a run of that network. So by
/// `networks_isolate_and_deliver` (`network_laws`) its customers are isolated end to end, and their packets delivered.
pub fn headline_of_networks()
    ensures { CallsAreARun }
{}
