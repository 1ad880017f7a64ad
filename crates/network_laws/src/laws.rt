// The laws of ways, each the contract of a function.
ghost use Rattle.network_laws.specs.Delivery.{WaysDeliver};
ghost use Rattle.network_laws.specs.EndToEnd.{NetworksAreIsolated, NetworksDeliver};
ghost use Rattle.network_laws.specs.Isolation.{WaysAreIsolated, WaysAreIsolatedUpTo};
ghost use Rattle.network_laws.specs.Routes.{HasItsWays, IsOneWayBack};

/// Isolation, end to end: two networks have a way by the same entries, through nodes that carry whatever else they may,
/// and its first node is given the same. Then what leaves at its end is the same: a client's text, or its own places on
/// a line. Nothing is asked of the lines between nodes: they have their multiframes because nodes wrote them. The same
/// holds up to a turn (`turns`), whatever comes later, and however fibres are cut behind it.
pub fn ways_are_isolated()
    ensures whole { WaysAreIsolated }
    ensures turns { WaysAreIsolatedUpTo }
{}

/// Delivery, end to end: to the client at the end of a way go, in order, exactly those packets of the client at its
/// beginning that had the turns for it: a packet that is sent in turn t is out in turn t + 3 * nodes - 2. On a way of
/// three nodes, entries from turn 1 to turn 16 deliver what was sent by the end of turn 9, and nothing that came later.
pub fn ways_deliver()
    ensures { WaysDeliver }
{}

/// The same of whole networks, by their plans and fibres: the runs of a network's nodes have the ways of the network
/// whose fibres brought what was written to them (`ways`), and no two ways end in one (`back`). What leaves at the end
/// of a customer's way is the same in any two networks that have it, whatever else they are, and whatever came over all
/// other fibres (`isolated`); and it is exactly those of its packets that had the turns for it (`delivered`).
pub fn networks_isolate_and_deliver()
    ensures ways { HasItsWays }
    ensures back { IsOneWayBack }
    ensures isolated { NetworksAreIsolated }
    ensures delivered { NetworksDeliver }
{}
