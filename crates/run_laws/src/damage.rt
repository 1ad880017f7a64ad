// The laws of what a run leaves on a connection whose line was damaged, each the contract of a function.
ghost use Rattle.run_laws.specs.RunsDamaged.{RunsAgreeButForOne, RunsHandOnAFront, RunsHeal};

/// Healing in a run, whatever came before: once its line carries a client's bytes to a connection in steady numbers,
/// and a turn says its number without a former one while no slot is marked, from the fourth turn after it on its to end
/// gets exactly these bytes. Where its output lived, a line to which it goes carries all that it got, and a client gets
/// what all that arrived delivers, these bytes among it.
pub fn runs_heal()
    ensures { RunsHeal }
{}

/// One damaged message, while the sink is Up and where no three in a row are damaged, is as the pair of the turn
/// before, said again: of two runs whose line shows a connection the same but for that, the same leaves on it, as far
/// as both have gone.
pub fn runs_agree_but_for_one()
    ensures { RunsAgreeButForOne }
{}

/// Behind a gap: a run reads the file that another wrote, however the line was damaged from which that came. A
/// connection on the slots that were written, from the same turn on and to a stop that is no later, gets a front of
/// what the other's got: no byte is lost, doubled or out of order, and less than a group is held back.
pub fn runs_hand_on_a_front()
    ensures { RunsHandOnAFront }
{}
