// What the system's answer to a read or a write comes to.
ghost use Rattle.otn_ports.specs.SystemAnswer.{IsReadOutcome, IsRefusalOutcome, IsWriteOutcome};

use std::io;
use std::io::ErrorKind;

/// What a call of the system comes to.
#[derive(Clone, Copy, Debug, PartialEq, Eq)]
pub(crate) enum Outcome {
    /// So many bytes moved. A read that moved none into a slice with room has met the end.
    Moved(usize),
    /// A signal interrupted the call: it is made again.
    Again,
    /// The call is a fault, of this kind.
    Refused(ErrorKind),
}

/// What a read comes to. Each count of bytes is taken as it is, so that 0 is no fault. An error is a fault of its kind,
/// but for one that a signal caused: also that of a call that would have to wait, so that nothing is asked for ever.
pub(crate) fn read_outcome(answer: io::Result<usize>) -> Outcome
    ensures { IsReadOutcome answer result }
{
    match answer {
        Ok(came) => Outcome::Moved(came),
        Err(error) => refusal_outcome(error.kind()),
    }
}

/// What a write of a byte or more comes to. The same, but that one that took no byte is a fault.
pub(crate) fn write_outcome(answer: io::Result<usize>) -> Outcome
    ensures { IsWriteOutcome answer result }
{
    match answer {
        Ok(0) => Outcome::Refused(ErrorKind::WriteZero),
        Ok(went) => Outcome::Moved(went),
        Err(error) => refusal_outcome(error.kind()),
    }
}

// What a call comes to that the system refused so.
fn refusal_outcome(kind: ErrorKind) -> Outcome
    ensures { IsRefusalOutcome kind result }
{
    if kind == ErrorKind::Interrupted {
        Outcome::Again
    } else {
        Outcome::Refused(kind)
    }
}
