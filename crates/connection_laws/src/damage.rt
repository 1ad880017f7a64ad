// The laws of damage on the line that a connection comes from, each the contract of a function.
ghost use Rattle.connection_laws.specs.Healing.{ArrivesHealed, CarriesWhatItGets, GetsWhatHealed};
ghost use Rattle.connection_laws.specs.HeldBack.{CatchesUp, EmitsAFront, HoldsBackLessThanAGroup, PassesASecondNode, StaysUp};
ghost use Rattle.connection_laws.specs.OneDamaged.{LeavesAsIfRepeated};

/// Healing, whatever its line showed before: once it carries a client's bytes to a connection in steady numbers, and a
/// turn says its number without a former one while no slot is marked, from the fourth turn after it on the connection's
/// to end gets exactly these bytes, each turn's three turns later. The file of a line to which it goes carries
/// all that it gets, these bytes among it.
pub fn healing()
    ensures turn { GetsWhatHealed }
    ensures joined { ArrivesHealed }
    ensures carried { CarriesWhatItGets }
{}

/// One damaged message, while the sink is Up and where no three in a row are damaged, is as the pair of the turn
/// before, said again: in each of a connection's own turns the same leaves on it.
pub fn one_damaged_message()
    ensures { LeavesAsIfRepeated }
{}

/// Behind a gap: bytes that are carried in numbers which are not steady, as those of a sender behind a sink that
/// began a stretch anew. The sink is Up after each turn, and what it has emitted is a front of them: none is lost,
/// doubled or out of order. Less than a group may be held back, until a turn brings one. So a second node gets a
/// front of what the first got, on the slots that were written and from the same turn on, however the line of the
/// first was damaged.
pub fn behind_a_gap()
    ensures front { EmitsAFront }
    ensures state { StaysUp }
    ensures held { HoldsBackLessThanAGroup }
    ensures later { CatchesUp }
    ensures second { PassesASecondNode }
{}
