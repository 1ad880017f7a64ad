// A sink over a writer of the system, such as a file or the standard output.
ghost use Rattle.std.specs.Prelude.{◌≡◌, ◌≢◌, ◌<◌, ◌≤◌, false, true, None, Ok, OnErr, IfOk, IsErr, is_some, length, take};
ghost use Rattle.port_base.specs.Bytes.{faults_after, HasFailed};
ghost use Rattle.port_base.specs.Writes.{IsWriting};

use crate::system::{count, refuse, write_some};
use port_base::{Failed, Sink, Written};
use std::fs::File;
use std::io::{ErrorKind, Stdout, Write};

/// Writes a writer of the system, and doesn't tell its bytes. It counts each call that fails, and each that takes
/// nothing of a byte or more, and keeps why the last one did. One with no writer fails at each write of a byte or more.
#[derive(Drop)]
pub struct WriterSink<W> {
    writer: Option<W>,
    failed: u64,
    fault: Option<ErrorKind>,
}

/// Writes a file of the system.
pub type FileSink = WriterSink<File>;

/// Writes the standard output.
pub type StdoutSink = WriterSink<Stdout>;

impl FileSink {
    ghost use Rattle.otn_ports.specs.Adapters.{writer_faults, has_writer};

    /// Writes this file from where it stands.
    pub fn of(file: Option<File>) -> FileSink
        ensures file { has_writer result ≡ is_some file }
        ensures faults { writer_faults result ≡ 0 }
    {
        WriterSink {
            writer: file,
            failed: 0,
            fault: None,
        }
    }
}

impl StdoutSink {
    ghost use Rattle.otn_ports.specs.Adapters.{writer_faults, has_writer};

    /// Writes this output.
    pub fn of(out: Stdout) -> StdoutSink
        ensures out { has_writer result ≡ true }
        ensures faults { writer_faults result ≡ 0 }
    {
        WriterSink::over(out)
    }
}

impl<W> WriterSink<W> {
    ghost use Rattle.otn_ports.specs.Adapters.{writer_faults, has_writer};

    /// Writes this writer.
    pub fn over(writer: W) -> WriterSink<W>
        ensures writer { has_writer result ≡ true }
        ensures faults { writer_faults result ≡ 0 }
    {
        WriterSink {
            writer: Some(writer),
            failed: 0,
            fault: None,
        }
    }
}

impl<W: Write + Drop> Sink for WriterSink<W> {
    ghost use Rattle.std.specs.Io.KnownBytes.{Appends, WriteAppends};
    ghost use Rattle.otn_ports.specs.Adapters.{IsFault, writer_fault, writer_faults, has_writer, writer_bytes};

    ghost got = { λ _. None };

    ghost faults = { writer_faults };

    ghost keeps = { λ _. false };

    /// One call of the writer, or none where there are no bytes. What it answers is what the
    /// writer took, as far as the writer tells. It fails where the system refuses a write, but for one that a signal
    /// interrupts: that is made again.
    fn write(&mut self, bytes: &[u8]) -> Result<usize, Failed>
        ensures bound { IfOk result (λ n. n ≤ length bytes.now) }
        ensures progress { IfOk result (λ n. 0 < length bytes.now → 0 < n) }
        ensures system { WriteAppends (writer_bytes W.contents self.old)
            (writer_bytes W.contents self.new) result bytes.now }
        ensures counts { writer_faults self.new ≡ faults_after (writer_faults self.old) result }
        ensures later { writer_faults self.old ≤ writer_faults self.new }
        ensures cause { OnErr result (HasFailed (writer_faults self.old) (writer_faults self.new)) }
        ensures refused { OnErr result (IsFault (writer_fault self.new)) }
        ensures closed { has_writer self.old ≡ false → 0 < length bytes.now → IsErr result }
        ensures empty { length bytes.now ≡ 0 → (self.new ≡ self.old) × (result ≡ Ok 0) }
        ensures writer { has_writer self.new ≡ has_writer self.old }
    {
        if bytes.is_empty() {
            return Ok(0);
        }
        let answer = match &mut self.writer {
            Some(writer) => write_some(writer, &mut self.fault, bytes),
            None => Err(refuse(&mut self.fault, ErrorKind::NotFound)),
        };
        count(&mut self.failed, answer);
        answer
    }

    /// Many lines in one call of the writer, as far as it takes them.
    fn write_lines(&mut self, lines: &[u8]) -> (Written, usize)
        ensures within { result.1 ≤ length lines.now }
        ensures system { Appends (writer_bytes W.contents self.old) (writer_bytes W.contents self.new)
            (take result.1 lines.now) }
        ensures writing { IsWriting result.0 result.1 (length lines.now) }
        ensures later { writer_faults self.old ≤ writer_faults self.new }
        ensures cause { result.0 ≡ Written.Lost → HasFailed (writer_faults self.old) (writer_faults self.new) }
        ensures refused { result.0 ≡ Written.Lost → IsFault (writer_fault self.new) }
        ensures well { result.0 ≢ Written.Lost → writer_faults self.new ≡ writer_faults self.old }
        ensures writer { has_writer self.new ≡ has_writer self.old }
    {
        self.write_on(lines)
    }

    /// Many frames in one call of the writer, as far as it takes them.
    fn write_frames(&mut self, frames: &[u8]) -> (Written, usize)
        ensures within { result.1 ≤ length frames.now }
        ensures system { Appends (writer_bytes W.contents self.old) (writer_bytes W.contents self.new)
            (take result.1 frames.now) }
        ensures writing { IsWriting result.0 result.1 (length frames.now) }
        ensures later { writer_faults self.old ≤ writer_faults self.new }
        ensures cause { result.0 ≡ Written.Lost → HasFailed (writer_faults self.old) (writer_faults self.new) }
        ensures refused { result.0 ≡ Written.Lost → IsFault (writer_fault self.new) }
        ensures well { result.0 ≢ Written.Lost → writer_faults self.new ≡ writer_faults self.old }
        ensures writer { has_writer self.new ≡ has_writer self.old }
    {
        self.write_on(frames)
    }

    fn kept(&self) -> Option<&[u8]>
        ensures { result ≡ None }
    {
        None
    }
}

impl<W: Write + Drop> WriterSink<W> {
    ghost use Rattle.std.specs.Io.KnownBytes.{Appends};
    ghost use Rattle.otn_ports.specs.Adapters.{IsFault, writer_fault, writer_faults, has_writer, writer_bytes};

    // Calls the writer until all bytes are out or a call fails, and says how many went.
    fn write_on(&mut self, bytes: &[u8]) -> (Written, usize)
        ensures within { result.1 ≤ length bytes.now }
        ensures system { Appends (writer_bytes W.contents self.old) (writer_bytes W.contents self.new)
            (take result.1 bytes.now) }
        ensures writing { IsWriting result.0 result.1 (length bytes.now) }
        ensures later { writer_faults self.old ≤ writer_faults self.new }
        ensures cause { result.0 ≡ Written.Lost → HasFailed (writer_faults self.old) (writer_faults self.new) }
        ensures refused { result.0 ≡ Written.Lost → IsFault (writer_fault self.new) }
        ensures well { result.0 ≢ Written.Lost → writer_faults self.new ≡ writer_faults self.old }
        ensures writer { has_writer self.new ≡ has_writer self.old }
    {
        let mut done = 0;
        while done < bytes.len() {
            match self.write(&bytes[done..]) {
                Ok(n) => done += n,
                Err(Failed) => return (Written::Lost, done),
            }
        }
        (Written::Whole, done)
    }
}
