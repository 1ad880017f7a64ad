// A sink whose bytes are taken out and let go of.
ghost use Rattle.std.specs.Prelude.{◌≡◌, ◌≤◌, ◌++◌, [], false, Some, IfOk, OnErr, length};
ghost use Rattle.port_base.specs.Bytes.{sent, faults_after, HasFailed};

use past_bytes::{Past, Taken};
use port_base::{Failed, Sink};
use std::alloc::Global;

/// Tells all bytes that it got, and keeps those that it was not told to let go of, in memory that grows as they come.
/// It fails where there is no memory.
#[derive(Drop)]
pub struct FilledSink {
    past: Past,
    kept: Taken,
    failed: u64,
}

impl FilledSink {
    ghost use Rattle.filled_ports.specs.Filled.{filled_got, filled_kept, filled_faults};

    /// One that got nothing yet.
    pub fn new(alloc: Global) -> FilledSink
        ensures got { filled_got result ≡ [] }
        ensures kept { filled_kept result ≡ [] }
        ensures faults { filled_faults result ≡ 0 }
    {
        FilledSink {
            past: Past::new(),
            kept: Taken {
                bytes: Vec::new(alloc),
            },
            failed: 0,
        }
    }

    /// Lets go of the bytes that it keeps. It tells them for ever: only proofs know of them from then on.
    pub fn let_go(&mut self)
        ensures got { filled_got self.new ≡ filled_got self.old }
        ensures kept { filled_kept self.new ≡ [] }
        ensures faults { filled_faults self.new ≡ filled_faults self.old }
    {
        self.past = Past::with(&self.past, &self.kept);
        self.kept.bytes.clear();
    }

    /// The bytes that it keeps, which came last.
    pub fn kept_bytes(&self) -> &[u8]
        ensures { result.now ≡ filled_kept self.now }
    {
        self.kept.bytes.as_slice()
    }
}

impl Sink for FilledSink {
    ghost use Rattle.filled_ports.specs.Filled.{filled_got, filled_kept, filled_faults};

    ghost got = { λ sink. Some (filled_got sink) };

    ghost faults = { filled_faults };

    ghost keeps = { λ _. false };

    /// Takes all bytes, or none where there is no memory for them.
    fn write(&mut self, bytes: &[u8]) -> Result<usize, Failed>
        ensures all { IfOk result (λ n. n ≡ length bytes.now) }
        ensures got { filled_got self.new ≡ filled_got self.old ++ sent result bytes.now }
        ensures counts { filled_faults self.new ≡ faults_after (filled_faults self.old) result }
        ensures later { filled_faults self.old ≤ filled_faults self.new }
        ensures cause { OnErr result (HasFailed (filled_faults self.old) (filled_faults self.new)) }
    {
        match self.kept.bytes.extend_from_slice(bytes) {
            Ok(()) => Ok(bytes.len()),
            Err(_) => {
                self.failed = self.failed.saturating_add(1);
                Err(Failed)
            }
        }
    }

    fn kept(&self) -> Option<&[u8]> {
        None
    }
}
