// What a source over a reader has read ahead of what it gave.
ghost use Rattle.std.specs.Prelude.{◌≡◌, ◌<◌, ◌≤◌, ◌++◌, [], false, true, None, IfOk, IfErr, IfSome, IsSome, OnErr, length, drop, take, min, vec_len};
ghost use Rattle.std.specs.Io.KnownBytes.{IsAtEnd, Keeps, ReadConsumes, prepend_known};
ghost use Rattle.otn_ports.specs.Adapters.{IsFault};
ghost use Rattle.port_base.specs.Fronts.{AreFirst};
ghost use Rattle.otn_ports.specs.ReadAhead.{ReadAhead, nothing_ahead, IsRefusal, RefusalAfter};

use crate::system::{read_some, refuse};
use otn_base::SharedBytes;
use otn_base::limits::LINE_FRAME_BYTES;
use port_base::Failed;
use std::alloc::{AllocError, Global};
use std::io::{ErrorKind, Read};
use std::marker::Model;
use std::rc::Rc;

// Bytes that a reader is asked for at a time: four frames of a line, or as many of a text as are best.
const FRAMES_BYTES: usize = 4 * LINE_FRAME_BYTES;

const TEXT_BYTES: usize = 32_768;

/// What a reader is asked for at a time where each read goes by a block: four frames of a line, which are 65,280
/// bytes, or 32,768 bytes of a text.
#[derive(Clone, Copy, Debug)]
pub enum ReadBlock {
    Frames,
    Text,
}

impl ReadBlock {
    // How many bytes it has.
    fn bytes(self) -> usize
        ensures { 0 < result }
    {
        match self {
            ReadBlock::Frames => FRAMES_BYTES,
            ReadBlock::Text => TEXT_BYTES,
        }
    }
}

// A block of bytes, parts of which are shared with whoever reads. While one is held on to, nothing is read into it.
type Block = Rc<Vec<u8>, Global>;

/// The bytes at hand, which stand in a block, and a refusal that no read has answered yet. The block is made at the
/// first look ahead, or where each read is to go by it.
#[derive(Drop)]
pub(crate) struct Ahead {
    block: Option<Block>,
    from: usize,
    to: usize,
    refused: Option<ErrorKind>,
    // Whether a read that is smaller than the block goes by it.
    each: bool,
}

impl Model for Ahead {
    ghost use Rattle.std.specs.Prelude.{option_map};
    ghost use Rattle.otn_ports.specs.ReadAhead.{ReadAhead, part_of, IsWithin, IsRefusal};

    ghost Value = { ReadAhead };

    ghost view = { λ a. record { bytes = part_of (option_map (λ b. b.value) a.block) a.from a.to; refused = a.refused } };

    ghost invariant = { λ a. IsWithin (option_map (λ b. b.value) a.block) a.from a.to × IsRefusal a.refused };
}

impl Ahead {
    /// Nothing is read ahead.
    pub(crate) fn new() -> Ahead
        ensures { result ≡ nothing_ahead }
    {
        Ahead {
            block: None,
            from: 0,
            to: 0,
            refused: None,
            each: false,
        }
    }

    /// Each read goes by such a block from here on, which is made where there is none yet. Without memory for it all
    /// stays as it is.
    pub(crate) fn go_by_blocks(&mut self, alloc: Global, block: ReadBlock)
        ensures { self.new ≡ self.old }
    {
        if self.block.is_none() {
            self.from = 0;
            self.to = 0;
            self.block = room(alloc, block.bytes()).ok();
        }
        self.each = self.block.is_some();
    }

    /// The bytes at hand.
    pub(crate) fn bytes(&self) -> &[u8]
        ensures { result.now ≡ self.now.bytes }
    {
        match &self.block {
            Some(block) => &block.as_ref()[self.from..self.to],
            None => &[],
        }
    }

    /// The first bytes at hand, so many of them, to be held on to. None where there are fewer.
    #[tactic(auto, using(crate::proofs::AheadLaws::first_of_part))]
    pub(crate) fn share(&self, n: usize) -> Option<SharedBytes>
        ensures { AreFirst result n self.now.bytes }
    {
        match &self.block {
            Some(block) if n <= self.to - self.from => {
                SharedBytes::of(block, self.from, self.from + n)
            }
            Some(_) => None,
            None => None,
        }
    }

    /// Goes past so many of the bytes at hand.
    #[tactic(auto, using(crate::proofs::AheadLaws::goes_past))]
    pub(crate) fn pass(&mut self, n: usize)
        requires { n ≤ length self.old.bytes }
        ensures bytes { self.new.bytes ≡ drop n self.old.bytes }
        ensures refused { self.new.refused ≡ self.old.refused }
    {
        self.from += n;
    }

    /// Looks ahead: where nothing is at hand and no refusal stands, it makes one read of this reader. Without memory
    /// for the block it makes none.
    pub(crate) fn fill<R: Read>(&mut self, alloc: Global, reader: &mut R)
        ensures bytes { Keeps (prepend_known self.old.bytes (R.remaining reader.old))
            (prepend_known self.new.bytes (R.remaining reader.new)) }
        ensures hand { 0 < length self.old.bytes → (self.new ≡ self.old) × (reader.new ≡ reader.old) }
        ensures held { IsSome self.old.refused → (self.new ≡ self.old) × (reader.new ≡ reader.old) }
    {
        if !self.bytes().is_empty() || self.refused.is_some() {
            return;
        }
        if let Some(block) = block_of(alloc, self.block.take()) {
            self.go_ahead(reader, block);
        }
    }

    /// Gives the bytes at hand, as many as fit. Where there are none it answers the refusal that stands, and else makes
    /// one read of this reader: into the block, where each read goes by it.
    pub(crate) fn read<R: Read>(
        &mut self,
        reader: &mut R,
        fault: &mut Option<ErrorKind>,
        into: &mut [u8],
    ) -> Result<usize, Failed>
        ensures bound { IfOk result (λ n. n ≤ length into.old) }
        ensures fault { OnErr result (IsFault fault.new) }
        ensures bytes { ReadConsumes (prepend_known self.old.bytes (R.remaining reader.old))
            (prepend_known self.new.bytes (R.remaining reader.new)) result into.new }
        ensures held { RefusalAfter self.old.refused self.old.bytes result fault.new self.new.refused }
    {
        if self.refill(reader, into.len()) {
            return Ok(0);
        }
        self.read_on(reader, fault, into)
    }

    // Where each read goes by the block, and one of so many bytes is smaller: looks ahead as `fill`. Says whether its
    // reader has ended.
    fn refill<R: Read>(&mut self, reader: &mut R, many: usize) -> bool
        ensures bytes { Keeps (prepend_known self.old.bytes (R.remaining reader.old))
            (prepend_known self.new.bytes (R.remaining reader.new)) }
        ensures hand { 0 < length self.old.bytes → (self.new ≡ self.old) × (result ≡ false) }
        ensures held { IsSome self.old.refused → (self.new ≡ self.old) × (result ≡ false) }
        ensures alone { 0 < length self.new.bytes → self.new.refused ≡ self.old.refused }
        ensures ended { result ≡ true → (self.new ≡ nothing_ahead)
            × IsAtEnd (prepend_known self.new.bytes (R.remaining reader.new)) }
    {
        if !self.each || !self.bytes().is_empty() || self.refused.is_some() {
            return false;
        }
        match self.block.take() {
            Some(block) if many < block.as_ref().len() => {
                self.go_ahead(reader, block) && self.bytes().is_empty() && self.refused.is_none()
            }
            block => {
                self.block = block;
                false
            }
        }
    }

    // One read of a reader into this block, where nobody holds on to a part of it. Says whether there was one.
    fn go_ahead<R: Read>(&mut self, reader: &mut R, block: Block) -> bool
        requires room { 0 < vec_len block.value }
        requires none { self.old ≡ nothing_ahead }
        ensures bytes { Keeps (R.remaining reader.old) (prepend_known self.new.bytes (R.remaining reader.new)) }
        ensures alone { 0 < length self.new.bytes → self.new.refused ≡ None }
        ensures end { result ≡ true → self.new ≡ nothing_ahead → IsAtEnd (R.remaining reader.new) }
    {
        match read_ahead(reader, block, self.each) {
            Ok(ahead) => {
                *self = ahead;
                true
            }
            Err(block) => {
                self.from = 0;
                self.to = 0;
                self.block = Some(block);
                false
            }
        }
    }

    // The same without a look ahead.
    fn read_on<R: Read>(
        &mut self,
        reader: &mut R,
        fault: &mut Option<ErrorKind>,
        into: &mut [u8],
    ) -> Result<usize, Failed>
        ensures bound { IfOk result (λ n. n ≤ length into.old) }
        ensures fault { OnErr result (IsFault fault.new) }
        ensures bytes { ReadConsumes (prepend_known self.old.bytes (R.remaining reader.old))
            (prepend_known self.new.bytes (R.remaining reader.new)) result into.new }
        ensures held { RefusalAfter self.old.refused self.old.bytes result fault.new self.new.refused }
    {
        if !self.bytes().is_empty() {
            return Ok(self.give(into));
        }
        if let Some(kind) = self.take_refused() {
            return Err(refuse(fault, kind));
        }
        read_some(reader, fault, into)
    }

    // Gives the bytes at hand, as many as fit.
    fn give(&mut self, into: &mut [u8]) -> usize
        ensures many { result ≡ min (length self.old.bytes) (length into.old) }
        ensures bytes { take result into.new ++ self.new.bytes ≡ self.old.bytes }
        ensures refused { self.new.refused ≡ self.old.refused }
    {
        let bytes = self.bytes();
        let n = bytes.len().min(into.len());
        into[..n].copy_from_slice(&bytes[..n]);
        self.pass(n);
        n
    }

    // Answers a refusal that stands, once.
    fn take_refused(&mut self) -> Option<ErrorKind>
        ensures refused { result ≡ self.old.refused }
        ensures fault { IsRefusal result }
        ensures bytes { self.new.bytes ≡ self.old.bytes }
        ensures none { self.new.refused ≡ None }
    {
        self.refused.take()
    }
}

// What one read of a reader puts at hand. A refusal is kept. Where somebody holds on to a part of the block, nothing is
// read, and the block comes back.
fn read_ahead<R: Read>(reader: &mut R, mut block: Block, each: bool) -> Result<Ahead, Block>
    requires room { 0 < vec_len block.value }
    ensures alone { IfOk result (λ ahead. 0 < length ahead.bytes → ahead.refused ≡ None) }
    ensures bytes { IfOk result (λ ahead. Keeps (R.remaining reader.old)
        (prepend_known ahead.bytes (R.remaining reader.new))) }
    ensures end { IfOk result (λ ahead. ahead ≡ nothing_ahead → IsAtEnd (R.remaining reader.new)) }
    ensures held { IfErr result (λ same. (0 < vec_len same.value) × (reader.new ≡ reader.old)) }
{
    let mut refused = None;
    let Some(bytes) = Rc::get_mut(&mut block) else {
        return Err(block);
    };
    let answer = read_some(reader, &mut refused, bytes);
    let (to, refused) = match answer {
        Ok(n) => (n, None),
        Err(Failed) => (0, refused),
    };
    Ok(Ahead {
        block: Some(block),
        from: 0,
        to,
        refused,
        each,
    })
}

// The block to read into: the one that was made, or a new one.
fn block_of(alloc: Global, block: Option<Block>) -> Option<Block>
    requires { IfSome block (λ b. 0 < vec_len b.value) }
    ensures { IfSome result (λ b. 0 < vec_len b.value) }
{
    match block {
        Some(block) => Some(block),
        None => room(alloc, FRAMES_BYTES).ok(),
    }
}

// So many bytes.
fn room(alloc: Global, n: usize) -> Result<Block, AllocError>
    ensures { IfOk result (λ block. vec_len block.value ≡ n) }
{
    match Rc::new(alloc, vec![in alloc; 0u8; n]?) {
        Ok(block) => Ok(block),
        Err(_) => Err(AllocError),
    }
}
