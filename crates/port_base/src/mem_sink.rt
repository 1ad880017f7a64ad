// A sink in memory.
ghost use Rattle.std.specs.Prelude.{◌≡◌, ◌<◌, ◌≤◌, ◌-◌, ◌↔◌, ◌++◌, [], true, Some, IfOk, IsErr, OnErr, IsSomeAnd, length, vec_len, min};
ghost use Rattle.port_base.specs.Bytes.{sent, faults_after, HasFailed};

use crate::{Failed, Sink};
use otn_base::Memory;
use std::alloc::Global;

/// Keeps the bytes that it gets, as many as it has room for. It fails exactly at a write of a
/// byte or more that finds no room.
#[derive(Drop)]
pub struct MemSink {
    buf: Vec<u8>,
    len: usize,
    failed: u64,
    ghost within: { len ≤ vec_len buf },
}

impl MemSink {
    ghost use Rattle.port_base.specs.Memory.{memory_got, memory_room, memory_faults};

    /// Room for so many bytes. All of it is taken from the allocator now.
    pub fn with_room(alloc: Global, room: usize) -> Result<MemSink, Memory>
        ensures got { IfOk result (λ m. memory_got m ≡ []) }
        ensures room { IfOk result (λ m. memory_room m ≡ room) }
        ensures faults { IfOk result (λ m. memory_faults m ≡ 0) }
    {
        let buf = vec![in alloc; 0u8; room]?;
        Ok(MemSink {
            buf,
            len: 0,
            failed: 0,
        })
    }

    /// The bytes that it got.
    pub fn into_bytes(self) -> Vec<u8>
        ensures { result.items ≡ memory_got self }
    {
        let mut buf = self.buf;
        buf.truncate(self.len);
        buf
    }
}

impl Sink for MemSink {
    ghost use Rattle.port_base.specs.Memory.{memory_got, memory_room, memory_faults, TakesWhatFits};

    ghost got = { λ m. Some (memory_got m) };

    ghost faults = { memory_faults };

    ghost keeps = { λ _. true };

    /// Takes as many as there are and as it has room for.
    fn write(&mut self, bytes: &[u8]) -> Result<usize, Failed>
        ensures fits { TakesWhatFits (memory_room self.old) bytes.now result (memory_room self.new) }
        ensures got { memory_got self.new ≡ memory_got self.old ++ sent result bytes.now }
        ensures counts { memory_faults self.new ≡ faults_after (memory_faults self.old) result }
        ensures later { memory_faults self.old ≤ memory_faults self.new }
        ensures cause { OnErr result (HasFailed (memory_faults self.old) (memory_faults self.new)) }
    {
        let n = (self.buf.len() - self.len).min(bytes.len());
        if n == 0 && !bytes.is_empty() {
            self.failed = self.failed.saturating_add(1);
            return Err(Failed);
        }
        self.buf[self.len..self.len + n].copy_from_slice(&bytes[..n]);
        self.len += n;
        Ok(n)
    }

    fn kept(&self) -> Option<&[u8]>
        ensures { IsSomeAnd result (λ bytes. bytes.now ≡ memory_got self.now) }
    {
        Some(&self.buf[..self.len])
    }
}
