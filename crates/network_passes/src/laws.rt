// The laws of networks that are run in passes, the contract of a function.
ghost use Rattle.network_passes.specs.Passes.{PassesDeliver, PassesLeaveTheSame, PassesSettle};

/// A network over files is run in passes: in each, every node is run once more, and reads of its fibres what the pass
/// before wrote. Whatever the files held at first, and though fibres lead round: from the pass on that has as many
/// passes before it as a customer's way has fibres, what leaves at the end of the way is the same in all (`same`), and
/// it is exactly the packets that had the turns for it (`delivered`). So a line's file changes no more once there were
/// as many passes as the longest way to it has nodes (`settled`).
pub fn passes_settle()
    ensures same { PassesLeaveTheSame }
    ensures delivered { PassesDeliver }
    ensures settled { PassesSettle }
{}
