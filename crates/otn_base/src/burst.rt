// The bytes of one turn.
ghost use Rattle.std.specs.Prelude.{◌≡◌, ◌≤◌, ◌-◌, [], IfOk, length, drop, slice_range, vec_len};

use crate::{Memory, copy_front};
use std::alloc::Global;
use std::marker::Model;
use std::mem;
use std::ops::Range;

/// Bytes that a turn brought, in a buffer with room for those of any turn, from `first` to `last`. It is seen as
/// the list of them, beside the room.
#[derive(Drop)]
pub struct Burst {
    buffer: Vec<u8>,
    first: usize,
    last: usize,
}

impl Model for Burst {
    ghost use Rattle.std.specs.Prelude.{◌≤◌, slice_range, vec_len};
    ghost use Rattle.otn_base.specs.Bursts.{BurstView};

    ghost Value = { BurstView };

    ghost view = { λ b. record { bytes = slice_range b.buffer.items b.first b.last; room = vec_len b.buffer } };

    ghost invariant = { λ b. (b.first ≤ b.last) × (b.last ≤ vec_len b.buffer) };
}

impl Burst {
    /// No bytes, and room for so many.
    pub fn new(alloc: Global, room: usize) -> Result<Burst, Memory>
        ensures { IfOk result (λ b. b ≡ record { bytes = []; room = room }) }
    {
        Ok(Burst {
            buffer: vec![in alloc; 0u8; room]?,
            first: 0,
            last: 0,
        })
    }

    /// The bytes.
    pub fn bytes(&self) -> &[u8]
        ensures { result.now ≡ self.now.bytes }
    {
        &self.buffer[self.first..self.last]
    }

    /// How many they are.
    pub fn len(&self) -> usize
        ensures { result ≡ length self.now.bytes }
    {
        self.last - self.first
    }

    /// Drops the bytes.
    pub fn clear(&mut self)
        ensures { self.new ≡ record self.old { bytes = [] } }
    {
        self.first = 0;
        self.last = 0;
    }

    /// Drops the first `count` bytes.
    pub fn drop_front(&mut self, count: usize)
        requires { count ≤ length self.old.bytes }
        ensures { self.new ≡ record self.old { bytes = drop count self.old.bytes } }
    {
        self.first += count;
    }

    /// Has these bytes in place of all others.
    pub fn hold(&mut self, bytes: &[u8])
        requires { length bytes.now ≤ self.old.room }
        ensures { self.new ≡ record self.old { bytes = bytes.now } }
    {
        copy_front(&mut self.buffer, bytes);
        self.first = 0;
        self.last = bytes.len();
    }

    /// Has the bytes of the buffer in this range in place of all others: the buffers change places.
    pub fn exchange(&mut self, buffer: &mut Vec<u8>, bytes: Range<usize>)
        requires in_order { bytes.start ≤ bytes.end }
        requires within { bytes.end ≤ vec_len buffer.old }
        ensures state { self.new ≡ record {
          bytes = slice_range buffer.old.items bytes.start bytes.end;
          room = vec_len buffer.old;
        } }
        ensures room { vec_len buffer.new ≡ self.old.room }
    {
        mem::swap(&mut self.buffer, buffer);
        self.first = bytes.start;
        self.last = bytes.end;
    }

    /// Hands out the buffer, and says where the bytes stand in it. No bytes are left, and no room: the buffer comes
    /// back by `exchange`.
    pub fn hand_out(&mut self) -> (Vec<u8>, Range<usize>)
        ensures bytes { slice_range result.0.items result.1.start result.1.end ≡ self.old.bytes }
        ensures count { result.1.end - result.1.start ≡ length self.old.bytes }
        ensures in_order { result.1.start ≤ result.1.end }
        ensures within { result.1.end ≤ vec_len result.0 }
        ensures room { vec_len result.0 ≡ self.old.room }
        ensures state { self.new ≡ record { bytes = []; room = 0 } }
    {
        let bytes = self.first..self.last;
        let mut buffer = Vec::new(*self.buffer.allocator());
        mem::swap(&mut self.buffer, &mut buffer);
        self.first = 0;
        self.last = 0;
        (buffer, bytes)
    }
}
