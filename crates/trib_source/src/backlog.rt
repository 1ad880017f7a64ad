// The bytes that a source took and has not put.
ghost use Rattle.std.specs.Prelude.{◌≡◌, ◌+◌, ◌*◌, ◌<◌, ◌≤◌, ℕ, [], ◌++◌, IfOk, length, min, drop, slice_index, slice_range, vec_len};
ghost use Rattle.circular_buffer.specs.Buffer.{keep_last};
ghost use Rattle.otn_base.specs.declared.limits.TheConstants.{GROUPS, MOST_SLOTS};

use crate::lay::copy_at;
use circular_buffer::HeapCircularBuffer;
use otn_base::limits::GROUPS;
use otn_base::{Burst, Memory};
use std::alloc::Global;
use std::marker::Model;
use std::mem;
use std::ops::Range;

/// The bytes that were not put, in the order in which they came: the bytes over, fewer than a group has; those of the
/// turn whose groups are put now; and those of the newest turn, whose groups are put in the next one. Those of a turn
/// stay in the buffer in which they came.
#[derive(Drop)]
pub(crate) struct Backlog {
    over: HeapCircularBuffer<u8>,
    current: Burst,
    coming: Burst,
}

impl Model for Backlog {
    ghost use Rattle.std.specs.Prelude.{◌≡◌, ◌+◌, ◌*◌, ◌++◌, length};
    ghost use Rattle.otn_base.specs.declared.limits.TheConstants.{GROUPS};
    ghost use Rattle.trib_source.specs.Backlog.{BacklogView};

    ghost Value = { BacklogView };

    ghost view = { λ b. record { items = b.over.items ++ b.current.bytes ++ b.coming.bytes; newest = length b.coming.bytes; slots = b.over.capacity } };

    ghost invariant = { λ b. (b.current.room ≡ b.over.capacity * (GROUPS + 1)) × (b.coming.room ≡ b.over.capacity * (GROUPS + 1)) };
}

impl Backlog {
    /// No bytes, for so many slots. Takes all memory that it will ever need.
    pub(crate) fn new(alloc: Global, slots: usize) -> Result<Backlog, Memory>
        requires { slots ≤ MOST_SLOTS }
        ensures { IfOk result (λ b. b ≡ record { items = []; newest = 0; slots = slots }) }
    {
        let over = HeapCircularBuffer::with_capacity(alloc, slots)?;
        let current = Burst::new(alloc, slots * (GROUPS + 1))?;
        let coming = Burst::new(alloc, slots * (GROUPS + 1))?;
        Ok(Backlog {
            over,
            current,
            coming,
        })
    }

    /// Drops all bytes.
    pub(crate) fn clear(&mut self)
        ensures { self.new ≡ record self.old { items = []; newest = 0 } }
    {
        self.over.clear();
        self.current.clear();
        self.coming.clear();
    }

    /// Begins the turn in which the groups of the newest one's bytes are put: keeps the last `keep` bytes, which are
    /// those of the newest turn and fewer than a group's before them.
    pub(crate) fn pass(&mut self, keep: usize)
        requires newest { self.old.newest ≤ keep }
        requires few { keep ≤ self.old.newest + self.old.slots }
        ensures { self.new ≡ record self.old { items = keep_last keep self.old.items; newest = 0 } }
    {
        let over = keep - self.coming.len();
        keep_over(&mut self.over, self.current.bytes(), over);
        mem::swap(&mut self.current, &mut self.coming);
        self.coming.clear();
    }

    /// Takes the bytes of a new turn.
    pub(crate) fn push(&mut self, bytes: &[u8])
        requires newest { self.old.newest ≡ 0 }
        requires room { length bytes.now ≤ self.old.slots * (GROUPS + 1) }
        ensures { self.new ≡ record self.old { items = self.old.items ++ bytes.now; newest = length bytes.now } }
    {
        self.coming.hold(bytes);
    }

    /// Takes the bytes of a new turn that stand in this range of the buffer, without a copy: keeps the buffer, and
    /// gives one of its own for it, whose bytes were put.
    pub(crate) fn take_over(&mut self, buffer: &mut Vec<u8>, bytes: Range<usize>)
        requires newest { self.old.newest ≡ 0 }
        requires room { vec_len buffer.old ≡ self.old.slots * (GROUPS + 1) }
        requires in_order { bytes.start ≤ bytes.end }
        requires within { bytes.end ≤ vec_len buffer.old }
        ensures state { self.new ≡ record self.old {
          items = self.old.items
              ++ slice_range buffer.old.items bytes.start bytes.end;
          newest = length (slice_range buffer.old.items bytes.start bytes.end);
        } }
        ensures room_stays { vec_len buffer.new ≡ vec_len buffer.old }
    {
        self.coming.exchange(buffer, bytes);
    }

    /// The first bytes, so many as stand together.
    pub(crate) fn front(&self) -> &[u8]
        ensures { (i : ℕ) → i < length result.now → slice_index result.now i ≡ slice_index self.now.items i }
    {
        if self.over.len() == 0 {
            return self.current.bytes();
        }
        let (over, _) = self.over.as_slices();
        over
    }

    /// Drops the first `count` bytes, none of them the newest turn's.
    pub(crate) fn drop_front(&mut self, count: usize)
        requires { count + self.old.newest ≤ length self.old.items }
        ensures { self.new ≡ record self.old { items = drop count self.old.items } }
    {
        let over = self.over.len();
        let here = count.min(over);
        self.over.truncate_front(over - here);
        self.current.drop_front(count - here);
    }

    /// Moves the first `count` bytes, none of them the newest turn's, to the front of these.
    pub(crate) fn read_front(&mut self, into: &mut [u8], count: usize)
        requires room { count ≤ length into.old }
        requires enough { count + self.old.newest ≤ length self.old.items }
        ensures bytes { (i : ℕ) → i < count → slice_index into.new i ≡ slice_index self.old.items i }
        ensures state { self.new ≡ record self.old { items = drop count self.old.items } }
    {
        let here = read_over(&mut self.over, into, count);
        let _end = copy_at(self.current.bytes(), 0, into, here, count - here);
        self.current.drop_front(count - here);
    }
}

// Moves the first `count` of the bytes over to the front of these, or all where they are fewer, and says how many they
// were.
fn read_over(over: &mut HeapCircularBuffer<u8>, into: &mut [u8], count: usize) -> usize
    requires room { count ≤ length into.old }
    ensures count { result ≡ min count (length over.old.items) }
    ensures bytes { (i : ℕ) → i < result → slice_index into.new i ≡ slice_index over.old.items i }
    ensures over { over.new ≡ record over.old { items = drop result over.old.items } }
{
    over.read_into(&mut into[..count])
}

// Appends these bytes to the bytes over, and keeps the last `keep` of them all.
fn keep_over(over: &mut HeapCircularBuffer<u8>, bytes: &[u8], keep: usize)
    requires { keep ≤ over.old.capacity }
    ensures { over.new ≡ record over.old { items = keep_last keep (over.old.items ++ bytes.now) } }
{
    over.extend_from_slice(bytes);
    over.truncate_front(keep);
}
