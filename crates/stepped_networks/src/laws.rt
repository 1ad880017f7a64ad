// The laws of networks that are stepped, the contract of a function.
ghost use Rattle.stepped_networks.specs.Stepping.{EndsAsARun, HandsKeepIt, RoundsKeepIt, StepsKeepIt};

/// A network may be stepped in any order of nodes, ports and fibres, and in rings. How it stands is kept by each step
/// of a node (`steps`), by a round in which all nodes go on at once (`rounds`), and by each filling of a fibre with
/// what waits for it, as long as its line has not answered its end (`hands`). When all nodes were settled, this was a
/// run of the network, and what was handed over is what its fibres brought (`ends`). So all that is proved of runs of
/// networks holds of it.
pub fn stepped_networks_are_runs()
    ensures steps { StepsKeepIt }
    ensures rounds { RoundsKeepIt }
    ensures hands { HandsKeepIt }
    ensures ends { EndsAsARun }
{}
