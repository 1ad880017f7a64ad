// A port that takes bytes, and may fail at any call.
ghost use Rattle.std.specs.Prelude.{◌≡◌, ◌≢◌, ◌<◌, ◌≤◌, ◌+◌, ◌%◌, ◌⊎◌, ℕ, Bool, true, false, List, Option, Some, length, take, IfOk, IsSome, OnOk, OnErr, MatchOption};
ghost use Rattle.otn_base.specs.declared.limits.TheConstants.{LINE_FRAME_BYTES};
ghost use Rattle.port_base.specs.Bytes.{after, sent, HasFailed};
ghost use Rattle.port_base.specs.Steps.Lines.{IsFirstLine};
ghost use Rattle.port_base.specs.Writes.{IsWriting};

use crate::{Failed, Written};
use otn_base::limits::LINE_FRAME_BYTES as FRAME_BYTES;

const LF: u8 = b'\n';

/// A port that takes bytes, such as a file.
pub trait Sink: Drop {
    /// The bytes taken so far, where the sink tells them.
    ghost got: { Self → Option (List ℕ) };

    /// How often it has failed: a count that never falls.
    ghost faults: { Self → ℕ };

    /// Whether it gives back what it got.
    ghost keeps: { Self → Bool };

    /// Whether it is a port behind a box.
    ghost boxed: { Self → Bool } = { λ _. false };

    /// Takes bytes from the front of the slice, and answers how many: at least one where there
    /// is one. Failed comes only where the count of faults rose in this call or stands at its
    /// end, and then no byte was taken. A call that answers otherwise leaves the count as it was.
    fn write(&mut self, bytes: &[u8]) -> Result<usize, Failed>
        ensures bound { IfOk result (λ n. n ≤ length bytes.now) }
        ensures progress { IfOk result (λ n. 0 < length bytes.now → 0 < n) }
        ensures bytes { got self.new ≡ after (got self.old) (sent result bytes.now) }
        ensures later { faults self.old ≤ faults self.new }
        ensures cause { OnErr result (HasFailed (faults self.old) (faults self.new)) }
        ensures well { OnOk result (faults self.new ≡ faults self.old) }
        ensures keeps { keeps self.new ≡ keeps self.old }
        ensures same { boxed self.new ≡ boxed self.old };

    /// What the sink got, where it keeps it. A sink that keeps its bytes tells them.
    fn kept(&self) -> Option<&[u8]>
        ensures kept { MatchOption result (keeps self.now ≡ false)
            (λ bytes. (keeps self.now ≡ true) × (got self.now ≡ Some bytes.now)) }
        ensures tells { keeps self.now ≡ true → IsSome (got self.now) };

    /// Writes lines, each with its LF at its end, until all are out or a call fails, and says how many bytes went. Each
    /// line is written for itself, by as many calls as it takes, so that a call never has bytes of two lines; a port
    /// that has no need of that writes all lines at once.
    fn write_lines(&mut self, lines: &[u8]) -> (Written, usize)
        ensures within { result.1 ≤ length lines.now }
        ensures bytes { got self.new ≡ after (got self.old) (take result.1 lines.now) }
        ensures writing { IsWriting result.0 result.1 (length lines.now) }
        ensures later { faults self.old ≤ faults self.new }
        ensures cause { result.0 ≡ Written.Lost → HasFailed (faults self.old) (faults self.new) }
        ensures well { result.0 ≢ Written.Lost → faults self.new ≡ faults self.old }
        ensures keeps { keeps self.new ≡ keeps self.old }
        ensures same { boxed self.new ≡ boxed self.old }
    {
        let mut done = 0;
        while done < lines.len() {
            let line = first_line(&lines[done..]);
            match self.write(&lines[done..done + line]) {
                Ok(n) => done += n,
                Err(Failed) => return (Written::Lost, done),
            }
        }
        (Written::Whole, done)
    }

    /// Writes frames of a line, each of 16,320 bytes, until all are out or a call fails, and says how many bytes went.
    /// Each frame is written for itself, by as many calls as it takes, so that a call never has bytes of two frames; a
    /// port that has no need of that writes all frames at once.
    fn write_frames(&mut self, frames: &[u8]) -> (Written, usize)
        ensures within { result.1 ≤ length frames.now }
        ensures bytes { got self.new ≡ after (got self.old) (take result.1 frames.now) }
        ensures writing { IsWriting result.0 result.1 (length frames.now) }
        ensures later { faults self.old ≤ faults self.new }
        ensures cause { result.0 ≡ Written.Lost → HasFailed (faults self.old) (faults self.new) }
        ensures well { result.0 ≢ Written.Lost → faults self.new ≡ faults self.old }
        ensures keeps { keeps self.new ≡ keeps self.old }
        ensures same { boxed self.new ≡ boxed self.old }
    {
        let mut done = 0;
        while done < frames.len() {
            let part = frame_part(done, frames.len());
            match self.write(&frames[done..done + part]) {
                Ok(n) => done += n,
                Err(Failed) => return (Written::Lost, done),
            }
        }
        (Written::Whole, done)
    }
}

// How many of so many bytes of frames stand from this place up to the end of its frame.
fn frame_part(at: usize, all: usize) -> usize
    requires { at < all }
    ensures some { 0 < result }
    ensures within { at + result ≤ all }
    ensures frame { (at + result) % LINE_FRAME_BYTES ≡ 0 ⊎ at + result ≡ all }
    ensures one { at % LINE_FRAME_BYTES + result ≤ LINE_FRAME_BYTES }
{
    (FRAME_BYTES - at % FRAME_BYTES).min(all - at)
}

// How many bytes the first line has with its LF: all, where there is no LF.
fn first_line(bytes: &[u8]) -> usize
    ensures { IsFirstLine bytes.now result }
{
    for (n, byte) in bytes.iter().enumerate() {
        if *byte == LF {
            return n + 1;
        }
    }
    bytes.len()
}
