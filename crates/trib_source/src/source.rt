// The source of a tributary.
ghost use Rattle.std.specs.Prelude.{◌≡◌, ℕ, ◌+◌, ◌-◌, ◌*◌, ◌/◌, ◌%◌, ◌<◌, ◌≤◌, List, [], ◌∷◌, ◌++◌, IfOk, IsSome, Some, is_some, length, slice_range, vec_len};
ghost use Rattle.std.specs.Option.{ForSome};
ghost use Rattle.otn_base.specs.declared.limits.TheConstants.{GROUPS, LINE_COLUMNS, MOST_SLOTS, ROWS};
ghost use Rattle.otn_base.specs.LineSlots.{slots_of};
ghost use Rattle.cnd_codec.specs.Remainder.{says_cnd};
ghost use Rattle.jc_codec.specs.Message.{says};
ghost use Rattle.tributary_model.specs.Places.{Tributary, tributary_of, byte_at};
ghost use Rattle.tributary_model.specs.Puts.{IsSourcePlace, WasPut};
ghost use Rattle.trib_source.specs.Source.{said_cm};

use crate::backlog::Backlog;
use crate::message::{put_own_message, say_turn};
use crate::rows::{cycles_in_row, groups_before, put_rows};
use gmp_rule::Runner;
use odtu_columns::FillFrame;
use otn_base::limits::{GROUPS, ROWS};
use otn_base::{Memory, Slots};
use std::alloc::Global;
use std::marker::Model;
use std::ops::Range;

/// The source of one tributary of a line. Contracts say after which turns it stands: which bytes each of
/// them took, since it was new or restarted, and how many frames of the last one were filled.
#[derive(Drop)]
pub struct TribSource {
    slots: Slots,
    said: Option<u16>,
    cm: u16,
    runner: Runner,
    backlog: Backlog,
    scratch: Vec<u8>,
    cnd: u16,
    message: [u8; 6],
    filled: u8,
}

impl Model for TribSource {
    ghost use Rattle.std.specs.Prelude.{vec_len};
    ghost use Rattle.trib_source.specs.Source.{Source, IsSource};

    ghost Value = { Source };

    ghost view = { λ s. record { slots = s.slots; said = s.said; cm = s.runner.cm; asked = s.runner.asked; left = s.backlog.items; cnd = s.cnd; message = s.message; filled = s.filled } };

    ghost invariant = { λ s. IsSource (record { slots = s.slots; said = s.said; cm = s.runner.cm; asked = s.runner.asked; left = s.backlog.items; cnd = s.cnd; message = s.message; filled = s.filled }) s.backlog (vec_len s.scratch) s.cm };
}

impl TribSource {
    ghost use Rattle.trib_source.specs.Source.{StandsAfter};

    /// A source of these slots, before its first turn. Takes all memory that it will ever need; answers
    /// `Memory` where there is none.
    pub fn new(alloc: Global, slots: &Slots) -> Result<TribSource, Memory>
        ensures stands { IfOk result (λ s. (port : ℕ) → StandsAfter (tributary_of slots.now port) [] 0 s) }
        ensures cnd { IfOk result (λ s. s.cnd ≡ 0) }
        ensures slots { IfOk result (λ s. s.slots ≡ slots.now) }
    {
        let m = slots.count() as usize;
        let cycles = ROWS * cycles_in_row(slots.kind()) as usize;
        let backlog = Backlog::new(alloc, m)?;
        let scratch = vec![in alloc; 0u8; 2 * (m * cycles)]?;
        let slots = slots.clone()?;
        Ok(TribSource {
            slots,
            said: None,
            cm: 0,
            runner: Runner::start(0),
            backlog,
            scratch,
            cnd: 0,
            message: [0; 6],
            filled: 0,
        })
    }

    /// Its slots.
    pub fn slots(&self) -> &Slots
        ensures { result.now ≡ self.now.slots }
    {
        &self.slots
    }

    /// How many frames of the turn were filled.
    pub fn filled(&self) -> u8
        ensures { result ≡ self.now.filled }
    {
        self.filled
    }

    /// Whether it has begun a turn since it was new or restarted.
    pub fn has_begun(&self) -> bool
        ensures { result ≡ is_some self.now.said }
    {
        self.said.is_some()
    }

    /// Begins anew, as a new source of the same slots.
    pub fn restart(&mut self)
        ensures stands { (port : ℕ) → StandsAfter (tributary_of self.old.slots port) [] 0 self.new }
        ensures cnd { self.new.cnd ≡ 0 }
        ensures slots { self.new.slots ≡ self.old.slots }
    {
        self.said = None;
        self.cm = 0;
        self.runner = Runner::start(0);
        self.backlog.clear();
        self.cnd = 0;
        self.filled = 0;
    }

    /// Begins a turn that takes these bytes. What was left of the turn before, where not all of its frames
    /// were filled, is dropped as if it had been put. The groups that the bytes complete are at most
    /// 15,232: those of what a sink of as many slots emits are (`most_groups`).
    pub fn begin_turn(&mut self, bytes: &[u8])
        requires fits { (self.old.cnd + length bytes.now) / length self.old.slots.list ≤ GROUPS }
        ensures stands { (own : Tributary) (turns : List (List ℕ)) (filled : ℕ) → StandsAfter own turns filled self.old
            → StandsAfter own (turns ++ bytes.now ∷ []) 0 self.new }
        ensures begun { IsSome self.new.said }
        ensures cnd { self.new.cnd ≡ (self.old.cnd + length bytes.now) % length self.old.slots.list }
        ensures filled { self.new.filled ≡ 0 }
        ensures slots { self.new.slots ≡ self.old.slots }
    {
        let m = self.slots.count() as usize;
        self.backlog.pass(to_keep(m, self.said, self.cnd));
        self.backlog.push(bytes);
        let message = begin_groups(
            m,
            bytes.len(),
            &mut self.said,
            &mut self.cnd,
            &mut self.cm,
            &mut self.runner,
        );
        self.message = message;
        self.filled = 0;
    }

    /// Begins a turn as `begin_turn` does, without a copy: it takes the bytes of the buffer in this range. The source
    /// keeps the buffer, of exactly 15,233 bytes a slot, as its own are, and gives one of those in exchange, whose
    /// bytes are of no account.
    pub fn take_over(&mut self, buffer: &mut Vec<u8>, bytes: Range<usize>)
        requires in_order { bytes.start ≤ bytes.end }
        requires within { bytes.end ≤ vec_len buffer.old }
        requires room { vec_len buffer.old ≡ length self.old.slots.list * (GROUPS + 1) }
        requires fits { (self.old.cnd + length (slice_range buffer.old.items bytes.start bytes.end)) / length
            self.old.slots.list ≤ GROUPS }
        ensures stands { (own : Tributary) (turns : List (List ℕ)) (filled : ℕ) → StandsAfter own turns filled self.old
            → StandsAfter own (turns ++ slice_range buffer.old.items bytes.start bytes.end ∷ []) 0 self.new }
        ensures begun { IsSome self.new.said }
        ensures cnd { self.new.cnd ≡ (self.old.cnd + length
            (slice_range buffer.old.items bytes.start bytes.end)) % length self.old.slots.list }
        ensures filled { self.new.filled ≡ 0 }
        ensures slots { self.new.slots ≡ self.old.slots }
        ensures room_stays { vec_len buffer.new ≡ vec_len buffer.old }
    {
        let m = self.slots.count() as usize;
        let count = bytes.end - bytes.start;
        self.backlog.pass(to_keep(m, self.said, self.cnd));
        self.backlog.take_over(buffer, bytes);
        let message = begin_groups(
            m,
            count,
            &mut self.said,
            &mut self.cnd,
            &mut self.cm,
            &mut self.runner,
        );
        self.message = message;
        self.filled = 0;
    }

    /// How many bytes the next turn may bring: those that, with the bytes over of the last turn, complete at
    /// most 15,232 groups.
    pub fn room(&self) -> usize
        ensures { result + self.now.cnd + 1 ≡ length self.now.slots.list * (GROUPS + 1) }
    {
        let m = self.slots.count() as usize;
        m * (GROUPS + 1) - 1 - self.cnd as usize
    }

    /// Puts the turn's groups and message into its frame `n`, from 0 and below the number of the line's slots, where
    /// `n` frames of it were filled: the groups into the payload columns of the slots; the message into the frame of
    /// the greatest slot, and bytes 0 into the same places of the frames of the others. Every other byte stays: `put`
    /// says so after known turns, `kept` of any source.
    pub fn fill<F: FillFrame>(&mut self, n: u8, frame: &mut F)
        requires number { n < slots_of self.old.slots.kind }
        requires filled { n ≡ self.old.filled }
        requires begun { IsSome self.old.said }
        ensures put { (own : Tributary) (turns : List (List ℕ)) → StandsAfter own turns n self.old
            → WasPut own turns (length turns - 1) n (F.bytes frame.old) (F.bytes frame.new) }
        ensures kept { (port row column : ℕ) → 1 ≤ row → row ≤ ROWS → 1 ≤ column → column ≤ LINE_COLUMNS
            → (IsSourcePlace (tributary_of self.old.slots port) n row column → ⊥)
            → byte_at (F.bytes frame.new) row column ≡ byte_at (F.bytes frame.old) row column }
        ensures stands { (own : Tributary) (turns : List (List ℕ)) → StandsAfter own turns n self.old
            → StandsAfter own turns (n + 1) self.new }
        ensures begun { IsSome self.new.said }
        ensures filled { self.new.filled ≡ self.old.filled + 1 }
        ensures cnd { self.new.cnd ≡ self.old.cnd }
        ensures slots { self.new.slots ≡ self.old.slots }
    {
        let asked = groups_before(self.slots.kind(), n);
        put_rows(
            &mut self.runner,
            self.cm as u32,
            asked,
            &mut self.backlog,
            &self.slots,
            &mut self.scratch,
            frame,
        );
        put_own_message(&self.slots, n, self.message, frame);
        self.filled += 1;
    }
}

// How many of the bytes that are left a new turn keeps: those that complete the groups that were said, and those over.
fn to_keep(m: usize, said: Option<u16>, cnd: u16) -> usize
    requires few { m ≤ MOST_SLOTS }
    ensures { result ≡ m * said_cm said + cnd }
{
    m * cm_of(said) as usize + cnd as usize
}

// Begins the groups of a turn that brings so many bytes, for `m` slots: the groups that were said are put, and those
// that its bytes complete, with the bytes over, are said. Answers the message that says them.
fn begin_groups(
    m: usize,
    count: usize,
    said: &mut Option<u16>,
    cnd: &mut u16,
    cm: &mut u16,
    runner: &mut Runner,
) -> [u8; 6]
    requires some { 1 ≤ m }
    requires few { m ≤ MOST_SLOTS }
    requires former { ForSome said.old (λ n. n ≤ GROUPS) }
    requires fits { (cnd.old + count) / m ≤ GROUPS }
    ensures said { said.new ≡ Some ((cnd.old + count) / m) }
    ensures cnd { cnd.new ≡ (cnd.old + count) % m }
    ensures cm { cm.new ≡ said_cm said.old }
    ensures runner { runner.new ≡ record { cm = said_cm said.old; asked = 0 } }
    ensures message { result ≡ says said.old ((cnd.old + count) / m) ++ says_cnd ((cnd.old + count) % m) }
{
    let former = *said;
    let total = *cnd as usize + count;
    let groups = (total / m) as u16;
    let over = (total % m) as u16;
    *cm = cm_of(former);
    *runner = Runner::start(cm_of(former) as u32);
    *said = Some(groups);
    *cnd = over;
    say_turn(former, groups, over)
}

// The number that was said, and 0 before any.
fn cm_of(said: Option<u16>) -> u16
    ensures { result ≡ said_cm said }
{
    said.unwrap_or(0)
}
