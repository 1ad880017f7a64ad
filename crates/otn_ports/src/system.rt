// Calls of the system, each counted where it fails.
ghost use Rattle.std.specs.Prelude.{◌≡◌, ◌≢◌, ◌<◌, ◌≤◌, Some, IfOk, OnErr, length};
ghost use Rattle.std.specs.Io.KnownBytes.{ReadConsumes, WriteAppends};
ghost use Rattle.otn_ports.specs.Adapters.{IsFault};
ghost use Rattle.port_base.specs.Bytes.{faults_after, HasFailed};

use crate::system_answer::{Outcome, read_outcome, write_outcome};
use port_base::Failed;
use std::io::{ErrorKind, Read, Write};

/// A refusal that is a fault: its kind is kept. That a signal interrupted the call is none.
pub(crate) fn refuse(fault: &mut Option<ErrorKind>, kind: ErrorKind) -> Failed
    requires fault { kind ≢ ErrorKind.Interrupted }
    ensures kept { IsFault fault.new }
    ensures kind { fault.new ≡ Some kind }
{
    *fault = Some(kind);
    Failed
}

/// One read, made again where a signal interrupts it, at most 2^64-1 times. What it answers is
/// what the reader gave, as far as the reader tells; no interrupted read is a fault, whose kind is kept.
pub(crate) fn read_some<R: Read>(
    from: &mut R,
    fault: &mut Option<ErrorKind>,
    into: &mut [u8],
) -> Result<usize, Failed>
    ensures bound { IfOk result (λ n. n ≤ length into.old) }
    ensures fault { OnErr result (IsFault fault.new) }
    ensures bytes { ReadConsumes (R.remaining from.old) (R.remaining from.new) result into.new }
{
    for _ in 0..u64::MAX {
        match read_outcome(from.read(into)) {
            Outcome::Moved(n) => return Ok(n),
            Outcome::Again => {}
            Outcome::Refused(kind) => return Err(refuse(fault, kind)),
        }
    }
    Err(refuse(fault, ErrorKind::TimedOut))
}

/// One write, made again where a signal interrupts it, at most 2^64-1 times. It failed where it
/// took nothing. What it answers is what the writer took, as far as the writer tells; no interrupted write is a fault,
/// whose kind is kept.
pub(crate) fn write_some<W: Write>(
    to: &mut W,
    fault: &mut Option<ErrorKind>,
    bytes: &[u8],
) -> Result<usize, Failed>
    ensures bound { IfOk result (λ n. n ≤ length bytes.now) }
    ensures progress { IfOk result (λ n. 0 < n) }
    ensures fault { OnErr result (IsFault fault.new) }
    ensures bytes { WriteAppends (W.contents to.old) (W.contents to.new) result bytes.now }
{
    for _ in 0..u64::MAX {
        match write_outcome(to.write(bytes)) {
            Outcome::Moved(n) => return Ok(n),
            Outcome::Again => {}
            Outcome::Refused(kind) => return Err(refuse(fault, kind)),
        }
    }
    Err(refuse(fault, ErrorKind::TimedOut))
}

/// Counts an answer that is a failure. The count stops at its end.
pub(crate) fn count(failed: &mut u64, answer: Result<usize, Failed>)
    ensures counts { failed.new ≡ faults_after failed.old answer }
    ensures later { failed.old ≤ failed.new }
    ensures cause { OnErr answer (HasFailed failed.old failed.new) }
{
    if answer.is_err() {
        *failed = failed.saturating_add(1);
    }
}
