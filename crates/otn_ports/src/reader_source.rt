// A source over a reader of the system, such as a file.
ghost use Rattle.std.specs.Prelude.{◌≡◌, ◌<◌, ◌≤◌, false, true, None, Ok, OnErr, IfOk, IsErr, IsSome, is_some, length, take};
ghost use Rattle.port_base.specs.Bytes.{faults_after, HasFailed};
ghost use Rattle.port_base.specs.Reads.{ended_after};

use crate::ahead::{Ahead, ReadBlock};
use crate::system::{count, refuse};
use otn_base::SharedBytes;
use port_base::{Failed, Source};
use std::alloc::Global;
use std::fs::File;
use std::io::{ErrorKind, Read};

/// Reads a reader of the system, and doesn't tell its bytes. It counts each call that fails, and keeps why the last one
/// did, and whether its reader has answered that it ended. One with no reader fails at each read into a slice with
/// room.
#[derive(Drop)]
pub struct ReaderSource<R> {
    reader: Option<R>,
    failed: u64,
    fault: Option<ErrorKind>,
    ended: bool,
    ahead: Ahead,
}

/// Reads a file of the system.
pub type FileSource = ReaderSource<File>;

impl FileSource {
    ghost use Rattle.otn_ports.specs.Adapters.{reader_faults, reader_ended, has_reader};

    /// Reads this file from where it stands.
    pub fn of(file: Option<File>) -> FileSource
        ensures file { has_reader result ≡ is_some file }
        ensures faults { reader_faults result ≡ 0 }
        ensures ended { reader_ended result ≡ false }
    {
        ReaderSource {
            reader: file,
            failed: 0,
            fault: None,
            ended: false,
            ahead: Ahead::new(),
        }
    }
}

impl<R> ReaderSource<R> {
    ghost use Rattle.otn_ports.specs.Adapters.{reader_faults, reader_ended, has_reader};

    /// Reads this reader.
    pub fn over(reader: R) -> ReaderSource<R>
        ensures reader { has_reader result ≡ true }
        ensures faults { reader_faults result ≡ 0 }
        ensures ended { reader_ended result ≡ false }
    {
        ReaderSource {
            reader: Some(reader),
            failed: 0,
            fault: None,
            ended: false,
            ahead: Ahead::new(),
        }
    }

    /// From here on its reader is asked for such a block at a time, out of which smaller reads are answered: as is best
    /// for a text, which is read by small pieces, and for a line, which is read by frames. What it gives is the same.
    /// Without memory for the block all stays as it is.
    pub fn read_by_blocks(&mut self, alloc: Global, block: ReadBlock)
        ensures { self.new ≡ self.old }
    {
        self.ahead.go_by_blocks(alloc, block);
    }
}

impl<R: Read + Drop> Source for ReaderSource<R> {
    ghost use Rattle.std.specs.Io.KnownBytes.{Consumes, Keeps, ReadConsumes};
    ghost use Rattle.otn_ports.specs.Adapters.{IsFault, reader_fault, reader_faults, reader_ended, has_reader, reader_bytes, reader_at_hand, reader_refused};
    ghost use Rattle.otn_ports.specs.ReadAhead.{RefusalAfter};

    ghost left = { λ _. None };

    ghost faults = { reader_faults };

    ghost ended = { reader_ended };

    ghost at_hand = { reader_at_hand };

    /// One call of the reader, or none for a slice with no room. What it answers is what the
    /// reader gave, as far as the reader tells. It fails where the system refuses a read, but for one that a signal
    /// interrupts: that is made again. Bytes at hand come first, and without a call of the reader. Where there are
    /// none, a refusal that a look ahead met is answered in place of a call.
    fn read(&mut self, into: &mut [u8]) -> Result<usize, Failed>
        ensures bound { IfOk result (λ n. n ≤ length into.old) }
        ensures system { ReadConsumes (reader_bytes R.remaining self.old)
            (reader_bytes R.remaining self.new) result into.new }
        ensures counts { reader_faults self.new ≡ faults_after (reader_faults self.old) result }
        ensures answered { reader_ended self.new ≡ ended_after (length into.old) result (reader_ended self.old) }
        ensures later { reader_faults self.old ≤ reader_faults self.new }
        ensures cause { OnErr result (HasFailed (reader_faults self.old) (reader_faults self.new)) }
        ensures refused { OnErr result (IsFault (reader_fault self.new)) }
        ensures closed { has_reader self.old ≡ false → 0 < length into.old → IsErr result }
        ensures empty { length into.old ≡ 0 → (self.new ≡ self.old) × (result ≡ Ok 0) }
        ensures reader { has_reader self.new ≡ has_reader self.old }
        ensures held { has_reader self.old ≡ true → 0 < length into.old → RefusalAfter (reader_refused self.old)
            (reader_at_hand self.old) result (reader_fault self.new) (reader_refused self.new) }
    {
        if into.is_empty() {
            return Ok(0);
        }
        let answer = match &mut self.reader {
            Some(reader) => self.ahead.read(reader, &mut self.fault, into),
            None => Err(refuse(&mut self.fault, ErrorKind::NotFound)),
        };
        count(&mut self.failed, answer);
        self.ended |= answer == Ok(0);
        answer
    }

    /// Asks its reader for the bytes of four frames of a line, by one call, where nothing is at hand. Where the system
    /// refuses that call, the next read answers so. Without memory for these bytes, or without a reader, nothing is
    /// asked.
    fn look_ahead(&mut self, alloc: Global)
        ensures system { Keeps (reader_bytes R.remaining self.old) (reader_bytes R.remaining self.new) }
        ensures faults { reader_faults self.new ≡ reader_faults self.old }
        ensures ended { reader_ended self.new ≡ reader_ended self.old }
        ensures fault { reader_fault self.new ≡ reader_fault self.old }
        ensures reader { has_reader self.new ≡ has_reader self.old }
        ensures hand { 0 < length (reader_at_hand self.old) → self.new ≡ self.old }
        ensures held { IsSome (reader_refused self.old) → self.new ≡ self.old }
    {
        if let Some(reader) = &mut self.reader {
            self.ahead.fill(alloc, reader);
        }
    }

    fn peek(&self) -> &[u8]
        ensures { result.now ≡ reader_at_hand self.now }
    {
        self.ahead.bytes()
    }

    fn share(&self, n: usize) -> Option<SharedBytes> {
        self.ahead.share(n)
    }

    #[tactic(auto, using(crate::proofs::AheadLaws::consumes_front))]
    fn pass(&mut self, n: usize)
        requires hand { n ≤ length (reader_at_hand self.old) }
        ensures system { Consumes (reader_bytes R.remaining self.old) (reader_bytes R.remaining self.new)
            (take n (reader_at_hand self.old)) }
        ensures faults { reader_faults self.new ≡ reader_faults self.old }
        ensures ended { reader_ended self.new ≡ reader_ended self.old }
        ensures fault { reader_fault self.new ≡ reader_fault self.old }
        ensures reader { has_reader self.new ≡ has_reader self.old }
    {
        self.ahead.pass(n);
    }
}
