// A source in memory that fails at listed calls.
ghost use Rattle.std.specs.Prelude.{◌≡◌, ◌<◌, ◌≤◌, Some, Ok, false, OnErr, length};
ghost use Rattle.port_base.specs.Bytes.{before, read_by, raised, faults_after, HasFailed};
ghost use Rattle.port_base.specs.Reads.{HasEnded, ended_after};

use crate::listed_calls::ListedCalls;
use port_base::{Failed, MemSource, Source};

/// Bytes in memory, of which it gives at most so many a call. It tells them, and fails exactly at
/// the calls whose numbers, from 1, are listed: these take nothing.
#[derive(Drop)]
pub struct ListedSource {
    source: MemSource,
    calls: ListedCalls,
    most: usize,
    failed: u64,
    ghost some: { 1 ≤ most },
}

impl ListedSource {
    ghost use Rattle.otn_ports.specs.Listed.{listed_left, listed_ended, read_calls, read_failing, read_most, read_faults};

    /// Gives these bytes, at most `most` of them a call, and fails at the calls of these numbers.
    pub fn new(bytes: Vec<u8>, failing: Vec<u32>, most: usize) -> ListedSource
        requires { 1 ≤ most }
        ensures left { listed_left result ≡ bytes.items }
        ensures ended { listed_ended result ≡ false }
        ensures calls { read_calls result ≡ 0 }
        ensures failing { read_failing result ≡ failing.items }
        ensures most { read_most result ≡ most }
        ensures faults { read_faults result ≡ 0 }
    {
        ListedSource {
            source: MemSource::new(bytes),
            calls: ListedCalls::new(failing),
            most,
            failed: 0,
        }
    }
}

impl Source for ListedSource {
    ghost use Rattle.otn_ports.specs.Listed.{listed_left, listed_ended, read_calls, read_failing, read_most, read_faults, is_listed, ListedGives};

    ghost left = { λ source. Some (listed_left source) };

    ghost faults = { read_faults };

    ghost ended = { listed_ended };

    /// Counts the call. Where it is listed it fails; else it gives as many as there are, as the
    /// slice has room for, and as one call may give.
    fn read(&mut self, into: &mut [u8]) -> Result<usize, Failed>
        ensures answer { ListedGives (is_listed (read_failing self.old) (read_calls self.new)) (read_most self.old)
            (listed_left self.old) (length into.old) result }
        ensures bytes { Some (listed_left self.old) ≡ before (read_by result into.new) (Some (listed_left self.new)) }
        ensures end { result ≡ Ok 0 → 0 < length into.old
            → HasEnded (Some (listed_left self.new)) (listed_ended self.new) }
        ensures answered { listed_ended self.new ≡ ended_after (length into.old) result (listed_ended self.old) }
        ensures calls { read_calls self.new ≡ raised (read_calls self.old) 1 }
        ensures failing { read_failing self.new ≡ read_failing self.old }
        ensures most { read_most self.new ≡ read_most self.old }
        ensures counts { read_faults self.new ≡ faults_after (read_faults self.old) result }
        ensures later { read_faults self.old ≤ read_faults self.new }
        ensures cause { OnErr result (HasFailed (read_faults self.old) (read_faults self.new)) }
    {
        if self.calls.next_fails() {
            self.failed = self.failed.saturating_add(1);
            return Err(Failed);
        }
        let room = into.len().min(self.most);
        self.source.read(&mut into[..room])
    }

    fn pass(&mut self, _n: usize) {}
}
