// The laws of what is told of a network, the contract of a function.
ghost use Rattle.network_view.specs.Laws.{TellsEachWay, TellsFreeSlots, TellsRounds, TellsTheTurns, TellsWays, TellsWhatMeets};

/// What is told of a network. A way is told exactly where there is one, from an entry in which none goes on to one
/// that goes on in none (`ways`, `each`). The way to an entry is told to go round exactly where none leads to it from
/// an entry in which none goes on (`rounds`). The turns of a way are those that the law of delivery says (`turns`).
/// All is told to meet exactly where nothing is amiss with an entry (`met`). The free slots of a line are those on
/// which no entry is (`free`).
pub fn what_is_told()
    ensures ways { TellsWays }
    ensures each { TellsEachWay }
    ensures rounds { TellsRounds }
    ensures turns { TellsTheTurns }
    ensures met { TellsWhatMeets }
    ensures free { TellsFreeSlots }
{}
