// The near end of fibres.
ghost use Rattle.std.specs.Prelude.{◌≡◌, ◌≤◌, ◌++◌, [], false, Some, IfOk, IfSome, OnOk, OnErr, drop, length};
ghost use Rattle.port_base.specs.Bytes.{raised, sent, faults_after, HasFailed};

use otn_base::Memory;
use past_bytes::{Past, Taken};
use port_base::{Failed, Sink};
use std::alloc::Global;

/// Tells all bytes that it ever got, and counts them. It keeps those that it was not told to let go of, in room that
/// it has from the first; it fails where they are more, and there is no memory.
#[derive(Drop)]
pub struct FibreSink {
    past: Past,
    kept: Taken,
    total: u64,
    failed: u64,
    ghost counted: { total ≡ length (past.bytes ++ kept.bytes.items) },
}

impl FibreSink {
    ghost use Rattle.network_run.specs.FibreSinks.{fibre_got, fibre_faults};

    /// One that got nothing yet, with room for so many bytes, which is taken from the allocator now.
    pub fn with_room(alloc: Global, room: usize) -> Result<FibreSink, Memory>
        ensures got { IfOk result (λ sink. fibre_got sink ≡ []) }
        ensures faults { IfOk result (λ sink. fibre_faults sink ≡ 0) }
    {
        let bytes = Vec::with_capacity(alloc, room)?;
        Ok(FibreSink {
            past: Past::new(),
            kept: Taken { bytes },
            total: 0,
            failed: 0,
        })
    }

    /// How many bytes it got.
    pub fn total(&self) -> u64
        ensures { result ≡ length (fibre_got self.now) }
    {
        self.total
    }

    /// The bytes that it got after the first so many. None where it has let go of some of them, or never got so many.
    pub fn since(&self, mark: u64) -> Option<&[u8]>
        ensures { IfSome result (λ bytes. bytes.now ≡ drop mark (fibre_got self.now)) }
    {
        let kept = self.kept.bytes.as_slice();
        let ahead = self.total.checked_sub(mark)?;
        let at = (kept.len() as u64).checked_sub(ahead)?;
        Some(&kept[at as usize..])
    }

    /// Lets go of the bytes that it keeps. It tells them for ever: only proofs know of them from then on.
    pub fn let_go(&mut self)
        ensures got { fibre_got self.new ≡ fibre_got self.old }
        ensures faults { fibre_faults self.new ≡ fibre_faults self.old }
    {
        self.past = Past::with(&self.past, &self.kept);
        self.kept.bytes.clear();
    }

    fn fail(&mut self) -> Failed
        ensures got { fibre_got self.new ≡ fibre_got self.old }
        ensures faults { fibre_faults self.new ≡ raised (fibre_faults self.old) 1 }
        ensures failed { HasFailed (fibre_faults self.old) (fibre_faults self.new) }
    {
        self.failed = self.failed.saturating_add(1);
        Failed
    }
}

impl Sink for FibreSink {
    ghost use Rattle.network_run.specs.FibreSinks.{fibre_got, fibre_faults};

    ghost got = { λ sink. Some (fibre_got sink) };

    ghost faults = { fibre_faults };

    ghost keeps = { λ _. false };

    /// Takes all bytes, or none where there is no memory for them.
    fn write(&mut self, bytes: &[u8]) -> Result<usize, Failed>
        ensures all { IfOk result (λ n. n ≡ length bytes.now) }
        ensures got { fibre_got self.new ≡ fibre_got self.old ++ sent result bytes.now }
        ensures counts { fibre_faults self.new ≡ faults_after (fibre_faults self.old) result }
        ensures later { fibre_faults self.old ≤ fibre_faults self.new }
        ensures well { OnOk result (fibre_faults self.new ≡ fibre_faults self.old) }
        ensures cause { OnErr result (HasFailed (fibre_faults self.old) (fibre_faults self.new)) }
    {
        let Some(total) = self.total.checked_add(bytes.len() as u64) else {
            return Err(self.fail());
        };
        match self.kept.bytes.extend_from_slice(bytes) {
            Ok(()) => {
                self.total = total;
                Ok(bytes.len())
            }
            Err(_) => Err(self.fail()),
        }
    }

    fn kept(&self) -> Option<&[u8]> {
        None
    }
}
