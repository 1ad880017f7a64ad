// How a run of the program ended.
ghost use Rattle.std.specs.Prelude.{◌≡◌};
ghost use Rattle.command_base.specs.Codes.{code_of};

use plan_file::PlanError;
use std::fmt;

/// How a command ended. `ReportFault` goes before `Cut`, `Cut` before `Unfinished`, and `Done` is the answer
/// where no other is. Want of memory is answered where it is met.
#[derive(Clone, Copy, Debug, PartialEq, Eq)]
pub enum Status {
    /// All bytes of the line stand in whole frames that the command looked at, the plan is accepted, or it was
    /// carried and nothing is left over. For `pull` that may be before the line's last turn, where the most turns
    /// were done. For `trial`: its report was written whole.
    Done,
    /// The line had bytes after its last whole frame, or more of them than the command reads; after `run`, a line
    /// that the plan uses has more than its turns want, or a client is not spent; after `protect`, a line has more than
    /// its turns want.
    Unfinished,
    /// The words are no command.
    Words,
    /// The plan is refused: the first rule that it breaks, and where: 0 for the top, from 1 on for
    /// its connections.
    Plan(PlanError, u64),
    /// A read of the plan failed.
    PlanFault,
    /// A write of the report failed, and ended the command. `run` and `trial` have carried their plans by then.
    ReportFault,
    /// The line input, or after `run` a place that the plan uses, or after `protect` one of its three, is dead: a call
    /// of its port failed, or it was handed in dead.
    Cut,
    /// There was no memory, or a place of the trial had no room: all places and the report are as they were. `check`
    /// and `run` may have read the plan, and `trial` may have asked the chooser.
    Memory,
}

impl Status {
    /// The number that the program ends with.
    pub fn code(&self) -> u8
        ensures { result ≡ code_of self.now }
    {
        match self {
            Status::Done => 0,
            Status::Unfinished => 1,
            Status::Words => 2,
            Status::Plan(..) => 3,
            Status::PlanFault => 4,
            Status::ReportFault => 5,
            Status::Cut => 6,
            Status::Memory => 7,
        }
    }
}

/// The answer in words, as programs complain of it.
impl fmt::Display for Status {
    ghost use Rattle.std.specs.Prelude.{Some};
    ghost use Rattle.command_base.specs.StatusText.{status_text};

    ghost output = { λ status. Some (status_text status) };

    fn fmt<W: fmt::Write>(&self, f: &mut fmt::Formatter<W>) -> fmt::Result {
        match *self {
            Status::Done => write!(f, "done"),
            Status::Unfinished => write!(f, "unfinished"),
            Status::Words => write!(f, "words"),
            Status::Plan(error, place) => write!(f, "plan {} at {place}", error.code()),
            Status::PlanFault => write!(f, "plan fault"),
            Status::ReportFault => write!(f, "report fault"),
            Status::Cut => write!(f, "cut"),
            Status::Memory => write!(f, "memory"),
        }
    }
}
