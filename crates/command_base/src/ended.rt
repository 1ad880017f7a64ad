// The answer of the top call to how a command over places ended.
ghost use Rattle.std.specs.Prelude.{◌≡◌};
ghost use Rattle.command_base.specs.Ends.{line_status};

use crate::Status;
use port_base::Ended;

/// The answer of the top call to a command that ended so.
pub fn status_of(ended: Ended) -> Status
    ensures { result ≡ line_status ended }
{
    match ended {
        Ended::Done => Status::Done,
        Ended::Unfinished => Status::Unfinished,
        Ended::Cut => Status::Cut,
        Ended::ReportFault => Status::ReportFault,
        Ended::Memory => Status::Memory,
    }
}
