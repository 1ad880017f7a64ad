// The laws of views, each the contract of a function.
ghost use Rattle.line_view.specs.Laws.{TellsTheSame, TellsAllBytes, TellsWhatPullWrites};

/// Lines that agree on a tributary's own places have the same lines of it in their views, so that another's trouble
/// shows in none of them (`same`). The bytes told of a tributary in some turns are as many as its sink emits in them
/// (`bytes`). Of an OTU2 line they cut what `pull` writes into what the sink emits in each turn, and no byte is left
/// (`pull`).
pub fn what_is_told()
    ensures same { TellsTheSame }
    ensures bytes { TellsAllBytes }
    ensures pull { TellsWhatPullWrites }
{}
