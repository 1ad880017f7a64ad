// After the most that a command reads: whether the line has more.
ghost use Rattle.std.specs.Prelude.{◌≢◌};
ghost use Rattle.port_base.specs.InPlace.{in_view};
ghost use Rattle.port_base.specs.Views.{Dead};
ghost use Rattle.command_base.specs.Beyond.{ByteRun};

use port_base::{Ended, InPlaceOf, Source, ask_byte};

/// Asks a line for one byte more: Unfinished where it comes, Done where the line has ended, Cut where the read failed.
pub fn ask_for_more<I: Source>(line: &mut InPlaceOf<I>) -> Ended
    requires alive { (in_view I.Source line.old).state ≢ Dead }
    ensures { ByteRun (in_view I.Source line.old) (in_view I.Source line.new) result }
{
    if ask_byte(line) {
        return Ended::Unfinished;
    }
    match line {
        InPlaceOf::Dead(..) => Ended::Cut,
        InPlaceOf::Live(..) => Ended::Done,
        InPlaceOf::Empty => Ended::Done,
    }
}
