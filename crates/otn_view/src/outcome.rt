// How the program ended.
ghost use Rattle.std.specs.Prelude.{◌≡◌, ◌==◌};
ghost use Rattle.std.specs.Process.{exit_status};
ghost use Rattle.otn_view.specs.Outcomes.{outcome_code};

use command_base::Status;
use std::fmt;
use std::process::ExitCode;

/// The exit status where there is no file of the name that the words say. A command of `otn` ends with 0 to 7.
const NO_FILE: u8 = 8;

/// How the program ended.
#[derive(Drop)]
pub(crate) enum Outcome {
    /// As a command of `otn` ends.
    Ended(Status),
    /// There is no file of this name, and nothing was written.
    NoFile(String),
}

impl Outcome {
    /// The exit status of the program: 0 to 7 as those of `otn`, and 8 where there is no such file.
    pub(crate) fn exit_code(&self) -> ExitCode
        ensures { exit_status result ≡ outcome_code self.now }
    {
        match self {
            Outcome::Ended(status) => ExitCode::from(status.code()),
            Outcome::NoFile(_) => ExitCode::from(NO_FILE),
        }
    }

    /// Whether the line was seen to its end, and nothing is to be complained of.
    pub(crate) fn is_done(&self) -> bool
        ensures { result ≡ (outcome_code self.now == 0) }
    {
        match self {
            Outcome::Ended(status) => status.code() == 0,
            Outcome::NoFile(_) => false,
        }
    }
}

/// The outcome in words, as the program complains of it.
impl fmt::Display for Outcome {
    ghost use Rattle.std.specs.Prelude.{Some};
    ghost use Rattle.otn_view.specs.Outcomes.{outcome_text};

    ghost output = { λ outcome. Some (outcome_text outcome) };

    fn fmt<W: fmt::Write>(&self, f: &mut fmt::Formatter<W>) -> fmt::Result {
        match self {
            Outcome::Ended(status) => write!(f, "{status}"),
            Outcome::NoFile(name) => write!(f, "{name}: no such file"),
        }
    }
}
