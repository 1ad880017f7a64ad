// A sink in memory that fails only where it is full.
ghost use Rattle.std.specs.Prelude.{◌≡◌, ◌≤◌, ◌<◌, ◌+◌, ◌++◌, [], true, Some, IfOk, OnOk, OnErr, length};
ghost use Rattle.port_base.specs.Bytes.{sent, faults_after, HasFailed};
ghost use Rattle.port_base.specs.Memory.{memory_faults, memory_got, memory_room};

use otn_base::Memory;
use port_base::{Failed, MemSink, Sink};
use std::alloc::Global;

/// Keeps the bytes that it gets, `ROOM` at most, and tells them. It fails exactly at a write of a byte or more that
/// finds it full; so one that has failed has got `ROOM` bytes.
#[derive(Drop)]
pub struct BoundedSink<const ROOM: usize> {
    memory: MemSink,
    ghost whole: { length (memory_got memory) + memory_room memory ≡ ROOM },
    ghost full: { 0 < memory_faults memory → memory_room memory ≡ 0 },
}

impl<const ROOM: usize> BoundedSink<ROOM> {
    ghost use Rattle.bounded_ports.specs.Bounded.{bounded_got, bounded_faults};

    /// One that got nothing yet. All of its room is taken from the allocator now.
    pub fn new(alloc: Global) -> Result<BoundedSink<ROOM>, Memory>
        ensures got { IfOk result (λ sink. bounded_got sink ≡ []) }
        ensures faults { IfOk result (λ sink. bounded_faults sink ≡ 0) }
    {
        let memory = MemSink::with_room(alloc, ROOM)?;
        Ok(BoundedSink { memory })
    }

    /// The bytes that it got.
    pub fn bytes(&self) -> &[u8]
        ensures { result.now ≡ bounded_got self.now }
    {
        match self.memory.kept() {
            Some(bytes) => bytes,
            None => unreachable!(),
        }
    }

    /// The same, handed out.
    pub fn into_bytes(self) -> Vec<u8>
        ensures { result.items ≡ bounded_got self.entry }
    {
        self.memory.into_bytes()
    }
}

impl<const ROOM: usize> Sink for BoundedSink<ROOM> {
    ghost use Rattle.bounded_ports.specs.Bounded.{bounded_got, bounded_faults};

    ghost got = { λ sink. Some (bounded_got sink) };

    ghost faults = { bounded_faults };

    ghost keeps = { λ _. true };

    /// Takes as many as there are and as it has room for.
    fn write(&mut self, bytes: &[u8]) -> Result<usize, Failed>
        ensures bound { IfOk result (λ n. n ≤ length bytes.now) }
        ensures progress { IfOk result (λ n. 0 < length bytes.now → 0 < n) }
        ensures got { bounded_got self.new ≡ bounded_got self.old ++ sent result bytes.now }
        ensures counts { bounded_faults self.new ≡ faults_after (bounded_faults self.old) result }
        ensures later { bounded_faults self.old ≤ bounded_faults self.new }
        ensures cause { OnErr result (HasFailed (bounded_faults self.old) (bounded_faults self.new)) }
        ensures well { OnOk result (bounded_faults self.new ≡ bounded_faults self.old) }
        // It fails only where it has got as many bytes as it has room for.
        ensures full { OnErr result (length (bounded_got self.new) ≡ ROOM) }
    {
        self.memory.write(bytes)
    }

    fn kept(&self) -> Option<&[u8]> {
        self.memory.kept()
    }
}
