// The end of a command over lines: how the command ended.
ghost use Rattle.std.specs.Prelude.{◌≡◌, ◌≢◌, ◌||◌};
ghost use Rattle.tributary_line.specs.Settling.{ended_by};

use port_base::Ended;

/// How a command ends whose report was written: `Cut` where a place that it uses is dead, else `Unfinished` where
/// more is left than it takes, else `Done`.
pub fn ended_by(dead: bool, more: bool) -> Ended
    ensures value { result ≡ ended_by dead more }
    ensures other { (result ≢ Ended.ReportFault) × (result ≢ Ended.Memory) }
{
    if dead {
        Ended::Cut
    } else if more {
        Ended::Unfinished
    } else {
        Ended::Done
    }
}

/// Whether one of both holds, as one value.
pub fn either(one: bool, other: bool) -> bool
    ensures { result ≡ (one || other) }
{
    one || other
}
