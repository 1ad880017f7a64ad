// A sink in memory that grows.
ghost use Rattle.std.specs.Prelude.{◌≡◌, ◌≢◌, ◌≤◌, ◌++◌, [], true, Some, IfOk, OnErr, length, take};
ghost use Rattle.port_base.specs.Bytes.{sent, faults_after, HasFailed};
ghost use Rattle.port_base.specs.Writes.{IsWriting};

use port_base::{Failed, Sink, Written};
use std::alloc::Global;

/// Keeps all bytes that it gets, in memory that grows as they come, and tells them. It fails where there is no memory.
#[derive(Drop)]
pub struct GrowingSink {
    kept: Vec<u8>,
    failed: u64,
}

impl GrowingSink {
    ghost use Rattle.otn_c.specs.Growing.{growing_got, growing_faults};

    /// One that got nothing yet.
    pub fn new(alloc: Global) -> GrowingSink
        ensures got { growing_got result ≡ [] }
        ensures faults { growing_faults result ≡ 0 }
    {
        GrowingSink {
            kept: Vec::new(alloc),
            failed: 0,
        }
    }

    /// One that got nothing yet. So much room is made for it at once, where there is memory for that, and else as bytes
    /// come.
    pub(crate) fn with(alloc: Global, room: usize) -> GrowingSink
        ensures got { growing_got result ≡ [] }
        ensures faults { growing_faults result ≡ 0 }
    {
        GrowingSink {
            kept: room_for(alloc, room),
            failed: 0,
        }
    }

    /// The bytes that it got.
    pub fn bytes(&self) -> &[u8]
        ensures { result.now ≡ growing_got self.now }
    {
        self.kept.as_slice()
    }

    // Takes all bytes, or none where there is no memory for them, and counts no failure.
    fn take(&mut self, bytes: &[u8]) -> Result<usize, Failed>
        ensures all { IfOk result (λ n. n ≡ length bytes.now) }
        ensures got { growing_got self.new ≡ growing_got self.old ++ sent result bytes.now }
        ensures faults { growing_faults self.new ≡ growing_faults self.old }
    {
        match self.kept.extend_from_slice(bytes) {
            Ok(()) => Ok(bytes.len()),
            Err(_) => Err(Failed),
        }
    }
}

// Room for so many bytes, or none yet where there is no memory for it.
fn room_for(alloc: Global, room: usize) -> Vec<u8>
    ensures { result.items ≡ [] }
{
    match Vec::with_capacity(alloc, room) {
        Ok(kept) => kept,
        Err(_) => Vec::new(alloc),
    }
}

impl Sink for GrowingSink {
    ghost use Rattle.otn_c.specs.Growing.{growing_got, growing_faults};

    ghost got = { λ sink. Some (growing_got sink) };

    ghost faults = { growing_faults };

    ghost keeps = { λ _. true };

    /// Takes all bytes, or none where there is no memory for them.
    fn write(&mut self, bytes: &[u8]) -> Result<usize, Failed>
        ensures all { IfOk result (λ n. n ≡ length bytes.now) }
        ensures got { growing_got self.new ≡ growing_got self.old ++ sent result bytes.now }
        ensures counts { growing_faults self.new ≡ faults_after (growing_faults self.old) result }
        ensures later { growing_faults self.old ≤ growing_faults self.new }
        ensures cause { OnErr result (HasFailed (growing_faults self.old) (growing_faults self.new)) }
    {
        let answer = self.take(bytes);
        if answer.is_err() {
            self.failed = self.failed.saturating_add(1);
        }
        answer
    }

    /// All lines at once.
    fn write_lines(&mut self, lines: &[u8]) -> (Written, usize)
        ensures within { result.1 ≤ length lines.now }
        ensures got { growing_got self.new ≡ growing_got self.old ++ take result.1 lines.now }
        ensures writing { IsWriting result.0 result.1 (length lines.now) }
        ensures later { growing_faults self.old ≤ growing_faults self.new }
        ensures cause { result.0 ≡ Written.Lost → HasFailed (growing_faults self.old) (growing_faults self.new) }
        ensures well { result.0 ≢ Written.Lost → growing_faults self.new ≡ growing_faults self.old }
    {
        if lines.is_empty() {
            return (Written::Whole, 0);
        }
        match self.write(lines) {
            Ok(n) => (Written::Whole, n),
            Err(Failed) => (Written::Lost, 0),
        }
    }

    fn kept(&self) -> Option<&[u8]> {
        Some(self.kept.as_slice())
    }
}
