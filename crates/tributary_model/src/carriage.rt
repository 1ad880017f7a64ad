// The laws of carriage, each the contract of a function: what becomes of a client's bytes that the views
// of a connection carry, and of damage to them.
ghost use Rattle.tributary_model.specs.Carriage.{EmitsWhatIsCarried, IsUpWhileCarried, EmitsTheRest, EmitsAfterDamage, IsUpAfterDamage, CanBeCarried};
ghost use Rattle.tributary_model.specs.Damage.{IsAsIfRepeated};
ghost use Rattle.tributary_model.specs.Passing.{JoinsToWhatIsCarried, JoinsToWholeGroups, EmitsAsMany, CarriesAllByFronts, PassesOn, SaysThreeLater, CarriesToTheEnd};

/// One damaged message, while the sink is Up and where no three in a row are damaged, is as the pair of the turn
/// before, said again: every emission and every state is the same.
pub fn one_damaged_message()
    ensures { IsAsIfRepeated }
{}

/// Where all turns of a connection carry a client's bytes, in steady numbers, its sink emits exactly
/// these bytes, those of each turn two turns later, and is Up throughout. If then it is Down, it emits
/// the rest of the whole groups that came. For all bytes in such numbers there are turns that carry them.
pub fn intact_carriage()
    ensures bytes { EmitsWhatIsCarried }
    ensures state { IsUpWhileCarried }
    ensures rest { EmitsTheRest }
    ensures carried { CanBeCarried }
{}

/// Whatever came before, as soon as turns carry a client's bytes in steady numbers and one of them says its number
/// without a former one while no slot is marked, the sink is Up, and from the third turn after it on
/// it emits exactly these bytes.
pub fn healing()
    ensures bytes { EmitsAfterDamage }
    ensures state { IsUpAfterDamage }
{}

/// What a sink emits of bytes that all turns carry (as in `intact_carriage`), joined, is a front of them: in each turn
/// as many as the sender took two turns before, and the whole groups that came once it is Down. A sender that carries
/// what it took so far carries what it takes in all. Where a sender takes on what the sink emits, each turn's in the
/// turn after it, its turns carry the same bytes three turns later, and say the same pairs.
pub fn passing_on()
    ensures joined { JoinsToWhatIsCarried }
    ensures ended { JoinsToWholeGroups }
    ensures count { EmitsAsMany }
    ensures fronts { CarriesAllByFronts }
    ensures carried { PassesOn }
    ensures pairs { SaysThreeLater }
{}

/// Through any number of nodes that pass them on so the bytes are carried to the end, three turns later
/// for each.
pub fn chains()
    ensures { CarriesToTheEnd }
{}
