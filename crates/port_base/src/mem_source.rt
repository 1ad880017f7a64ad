// A source in memory.
ghost use Rattle.std.specs.Prelude.{◌≡◌, ◌≤◌, Some, Ok, false, length, drop, vec_len, min};
ghost use Rattle.port_base.specs.Bytes.{before, read_by};
ghost use Rattle.port_base.specs.Reads.{ended_after};

use crate::{Failed, Source};

/// Bytes in memory. It tells them, and never fails.
#[derive(Drop)]
pub struct MemSource {
    bytes: Vec<u8>,
    at: usize,
    ended: bool,
    ghost within: { at ≤ vec_len bytes },
}

impl MemSource {
    ghost use Rattle.port_base.specs.Memory.{memory_left, memory_ended};

    /// Gives these bytes.
    pub fn new(bytes: Vec<u8>) -> MemSource
        ensures left { memory_left result ≡ bytes.items }
        ensures ended { memory_ended result ≡ false }
    {
        MemSource {
            bytes,
            at: 0,
            ended: false,
        }
    }
}

impl Source for MemSource {
    ghost use Rattle.port_base.specs.Memory.{memory_left, memory_ended};

    ghost left = { λ m. Some (memory_left m) };

    ghost faults = { λ _. 0 };

    ghost ended = { memory_ended };

    /// Gives as many as there are and as the slice has room for.
    fn read(&mut self, into: &mut [u8]) -> Result<usize, Failed>
        ensures answer { result ≡ Ok (min (length (memory_left self.old)) (length into.old)) }
        ensures bytes { Some (memory_left self.old) ≡ before (read_by result into.new) (Some (memory_left self.new)) }
        ensures answered { memory_ended self.new ≡ ended_after (length into.old) result (memory_ended self.old) }
    {
        let rest = &self.bytes[self.at..];
        let n = rest.len().min(into.len());
        into[..n].copy_from_slice(&rest[..n]);
        self.at += n;
        self.ended |= n == 0 && !into.is_empty();
        Ok(n)
    }

    fn pass(&mut self, _n: usize) {}
}
