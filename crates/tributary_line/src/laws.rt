// The laws of a tributary on a line of its own, each the contract of a function.
ghost use Rattle.tributary_line.specs.Laws.{CarriesItsTurns};

/// The file of a line that one tributary is put on carries the bytes of its turns, from the first one on.
pub fn what_is_fed()
    ensures { CarriesItsTurns }
{}
