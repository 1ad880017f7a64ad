// The number that the program ends with.
ghost use Rattle.std.specs.Prelude.{◌≡◌, MatchResult};
ghost use Rattle.std.specs.Process.{exit_status};
ghost use Rattle.command_base.specs.Codes.{code_of};

use command_base::Status;
use std::io;
use std::process::ExitCode;

/// The exit status of the program after this answer: 0 to 7, one for each kind of answer.
pub fn exit_code(status: &Status) -> ExitCode
    ensures { exit_status result ≡ code_of status.now }
{
    ExitCode::from(status.code())
}

/// The answer after a page was written: a write that failed is a fault of the report.
pub fn status_of_page(written: io::Result<()>) -> Status
    ensures { MatchResult written (λ _. result ≡ Status.Done) (λ _. result ≡ Status.ReportFault) }
{
    match written {
        Ok(()) => Status::Done,
        Err(_) => Status::ReportFault,
    }
}
