// A source to which bytes are handed in as they come.
ghost use Rattle.std.specs.Prelude.{◌≡◌, ◌≢◌, ◌≤◌, ◌++◌, [], Some, Ok, false, true, OnOk, OnErr, length, vec_len, min};
ghost use Rattle.port_base.specs.Bytes.{before, read_by};
ghost use Rattle.port_base.specs.Reads.{ended_after};

use otn_base::Memory;
use port_base::{Failed, Source};
use std::alloc::Global;
use std::mem::swap;

/// What came of handing bytes in.
#[derive(Clone, Copy, Debug, PartialEq, Eq)]
pub enum Handed {
    /// They stand behind all others.
    Taken,
    /// The source has answered its end, which it does not take back: nothing was handed in.
    Over,
}

/// Bytes that were handed in and not given yet. It tells them, and never fails. A read that finds none answers the end,
/// for ever: whoever hands in sees to it that no more is asked of a source than it has, until all was handed in.
#[derive(Drop)]
pub struct FilledSource {
    bytes: Vec<u8>,
    at: usize,
    ended: bool,
    // Room to move the bytes to that are left.
    spare: Vec<u8>,
    ghost within: { at ≤ vec_len bytes },
}

impl FilledSource {
    ghost use Rattle.filled_ports.specs.Filled.{filled_left, filled_ended};

    /// One to which nothing was handed in.
    pub fn new(alloc: Global) -> FilledSource
        ensures left { filled_left result ≡ [] }
        ensures ended { filled_ended result ≡ false }
    {
        FilledSource {
            bytes: Vec::new(alloc),
            at: 0,
            ended: false,
            spare: Vec::new(alloc),
        }
    }

    /// Hands in further bytes, unless it has answered its end. Without memory for them nothing is handed in. Its memory
    /// is what it had at most at a time, and as much again: what was given is let go of.
    pub fn hand_in(&mut self, bytes: &[u8]) -> Result<Handed, Memory>
        ensures taken { result ≡ Ok Handed.Taken → filled_left self.new ≡ filled_left self.old ++ bytes.now }
        ensures going { result ≡ Ok Handed.Taken → filled_ended self.old ≡ false }
        ensures over { result ≡ Ok Handed.Over → filled_ended self.old ≡ true }
        ensures none { result ≢ Ok Handed.Taken → filled_left self.new ≡ filled_left self.old }
        ensures ended { filled_ended self.new ≡ filled_ended self.old }
    {
        if self.ended {
            return Ok(Handed::Over);
        }
        self.let_go();
        match self.bytes.extend_from_slice(bytes) {
            Ok(()) => Ok(Handed::Taken),
            Err(_) => Err(Memory),
        }
    }

    /// The bytes that were handed in and not given yet.
    pub fn left(&self) -> &[u8]
        ensures { result.now ≡ filled_left self.now }
    {
        &self.bytes[self.at..]
    }

    // Lets go of the bytes that were given, where they are as many as those that are left.
    fn let_go(&mut self)
        ensures left { filled_left self.new ≡ filled_left self.old }
        ensures ended { filled_ended self.new ≡ filled_ended self.old }
    {
        if self.at == self.bytes.len() {
            self.bytes.clear();
            self.at = 0;
            return;
        }
        if self.at >= self.bytes.len() - self.at {
            self.move_left();
        }
    }

    // Moves the bytes that are left to the front, where there is memory for it.
    fn move_left(&mut self)
        ensures left { filled_left self.new ≡ filled_left self.old }
        ensures ended { filled_ended self.new ≡ filled_ended self.old }
    {
        self.spare.clear();
        match self.spare.extend_from_slice(&self.bytes[self.at..]) {
            Ok(()) => {
                swap(&mut self.bytes, &mut self.spare);
                self.at = 0;
            }
            Err(_) => {}
        }
    }
}

impl Source for FilledSource {
    ghost use Rattle.filled_ports.specs.Filled.{filled_left, filled_ended};

    ghost left = { λ source. Some (filled_left source) };

    ghost faults = { λ _. 0 };

    ghost ended = { filled_ended };

    /// Gives as many as there are and as the slice has room for.
    fn read(&mut self, into: &mut [u8]) -> Result<usize, Failed>
        ensures answer { result ≡ Ok (min (length (filled_left self.old)) (length into.old)) }
        ensures bytes { Some (filled_left self.old) ≡ before (read_by result into.new) (Some (filled_left self.new)) }
        ensures answered { filled_ended self.new ≡ ended_after (length into.old) result (filled_ended self.old) }
    {
        let rest = &self.bytes[self.at..];
        let n = rest.len().min(into.len());
        into[..n].copy_from_slice(&rest[..n]);
        self.at += n;
        self.ended |= n == 0 && !into.is_empty();
        Ok(n)
    }

    fn pass(&mut self, _n: usize) {}
}
