// The headline of damaged lines.
ghost use Rattle.run_command.specs.DamagedLines.{IsAsRepeated, IsHandedOn, IsHealed};

/// What damage does to a connection of a plan that `run` carried, whatever its inputs may have been, and where they
/// tell, with what they gave. It heals (`healed`): once its line carries a client's bytes to it again in steady
/// numbers, and a turn says its number without a former one while no slot is marked, its to end gets exactly these
/// bytes from the fourth turn after that on. One damaged message, while the sink is Up and where no three in a row are
/// damaged, is as the pair before it, said again (`repeated`): the same leaves on the connection, as far as both calls
/// have gone: its own places on its line, its client's text and its lines of the report. And a call that reads the file
/// which another wrote gets, on the slots that were written, a front of what that one got (`handed`): behind a gap no
/// byte is lost, doubled or out of order.
pub fn damaged_lines()
    ensures healed { IsHealed }
    ensures repeated { IsAsRepeated }
    ensures handed { IsHandedOn }
{}
