// A sink in memory that fails at listed calls, and where it has no room.
ghost use Rattle.std.specs.Prelude.{◌≡◌, ◌<◌, ◌≤◌, ◌++◌, [], true, Some, IfOk, OnErr, IsSomeAnd, length};
ghost use Rattle.port_base.specs.Bytes.{sent, raised, faults_after, HasFailed};

use crate::listed_calls::ListedCalls;
use crate::system::count;
use otn_base::Memory;
use port_base::{Failed, MemSink, Sink};
use std::alloc::Global;

/// Keeps the bytes that it gets, as many as it has room for. It fails exactly at the calls whose
/// numbers, from 1, are listed, and at a write of a byte or more that finds no room.
#[derive(Drop)]
pub struct ListedSink {
    sink: MemSink,
    calls: ListedCalls,
    failed: u64,
}

impl ListedSink {
    ghost use Rattle.otn_ports.specs.Listed.{listed_got, listed_room, write_calls, write_failing, write_faults};

    /// Room for so many bytes, all of it taken from the allocator now. It fails at the calls of
    /// these numbers.
    pub fn with_room(alloc: Global, room: usize, failing: Vec<u32>) -> Result<ListedSink, Memory>
        ensures got { IfOk result (λ sink. listed_got sink ≡ []) }
        ensures room { IfOk result (λ sink. listed_room sink ≡ room) }
        ensures calls { IfOk result (λ sink. write_calls sink ≡ 0) }
        ensures failing { IfOk result (λ sink. write_failing sink ≡ failing.items) }
        ensures faults { IfOk result (λ sink. write_faults sink ≡ 0) }
    {
        Ok(ListedSink {
            sink: MemSink::with_room(alloc, room)?,
            calls: ListedCalls::new(failing),
            failed: 0,
        })
    }

    ghost use Rattle.otn_ports.specs.Listed.{is_listed, ListedTakes};

    // Counts the call, and fails where it is listed; else takes what fits. It counts no failure.
    fn take(&mut self, bytes: &[u8]) -> Result<usize, Failed>
        ensures answer { ListedTakes (is_listed (write_failing self.old) (write_calls self.new))
            (listed_room self.old) bytes.now result (listed_room self.new) }
        ensures got { listed_got self.new ≡ listed_got self.old ++ sent result bytes.now }
        ensures calls { write_calls self.new ≡ raised (write_calls self.old) 1 }
        ensures failing { write_failing self.new ≡ write_failing self.old }
        ensures faults { write_faults self.new ≡ write_faults self.old }
    {
        if self.calls.next_fails() {
            return Err(Failed);
        }
        self.sink.write(bytes)
    }
}

impl Sink for ListedSink {
    ghost use Rattle.otn_ports.specs.Listed.{listed_got, listed_room, write_calls, write_failing, write_faults, is_listed, ListedTakes};

    ghost got = { λ sink. Some (listed_got sink) };

    ghost faults = { write_faults };

    ghost keeps = { λ _. true };

    /// Counts the call. Where it is listed it fails; else it takes as many as there are and as it
    /// has room for.
    fn write(&mut self, bytes: &[u8]) -> Result<usize, Failed>
        ensures answer { ListedTakes (is_listed (write_failing self.old) (write_calls self.new))
            (listed_room self.old) bytes.now result (listed_room self.new) }
        ensures bound { IfOk result (λ n. n ≤ length bytes.now) }
        ensures progress { IfOk result (λ n. 0 < length bytes.now → 0 < n) }
        ensures got { listed_got self.new ≡ listed_got self.old ++ sent result bytes.now }
        ensures calls { write_calls self.new ≡ raised (write_calls self.old) 1 }
        ensures failing { write_failing self.new ≡ write_failing self.old }
        ensures counts { write_faults self.new ≡ faults_after (write_faults self.old) result }
        ensures later { write_faults self.old ≤ write_faults self.new }
        ensures cause { OnErr result (HasFailed (write_faults self.old) (write_faults self.new)) }
    {
        let answer = self.take(bytes);
        count(&mut self.failed, answer);
        answer
    }

    fn kept(&self) -> Option<&[u8]>
        ensures { IsSomeAnd result (λ bytes. bytes.now ≡ listed_got self.now) }
    {
        self.sink.kept()
    }
}
