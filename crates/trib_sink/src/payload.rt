// The bytes that a sink extracted, in two buffers: a turn that ends emits them in one, the other keeps what is pending.
ghost use Rattle.std.specs.Prelude.{◌≡◌, ◌+◌, ◌*◌, ◌≤◌, ℕ, [], ◌++◌, IfOk, length, take, drop, slice_range, vec_len};
ghost use Rattle.frame_geometry.specs.Places.{payload_row_of};
ghost use Rattle.maintenance_signals.specs.declared.signal.Signal.{Signal};
ghost use Rattle.maintenance_signals.specs.Emitted.{HasEmitted};
ghost use Rattle.maintenance_signals.specs.Stream.{signal_bytes};
ghost use Rattle.otn_base.specs.LineSlots.{slots_of};
ghost use Rattle.otn_base.specs.declared.limits.TheConstants.{GROUPS, LINE_COLUMNS, MOST_SLOTS, NOMINAL};
ghost use Rattle.trib_sink.specs.Rows.{row_cycles};
ghost use Rattle.trib_sink.specs.Steps.Rows.{own_data, row_data, with_rows, after_frame};

use crate::extract;
use gmp_rule::Runner;
use maintenance_signals::SignalBytes;
use odtu_columns::TakeFrame;
use otn_base::limits::{GROUPS, NOMINAL};
use otn_base::{Memory, Slots};
use std::alloc::Global;
use std::marker::Model;
use std::mem;
use std::ops::Range;

/// The bytes of a tributary's data groups: those that earlier turns left pending, in one buffer, from `first`
/// to `last`, and those that this turn extracted, at the front of the other one, up to `end`. When a turn
/// ends, what it emits is gathered in the former, behind its pending bytes, and the buffers change places. It
/// stands there, from `from` to `past`, until a frame is taken.
#[derive(Drop)]
pub(crate) struct Payload {
    slots: usize,
    runner: Runner,
    kept: Vec<u8>,
    first: usize,
    last: usize,
    fresh: Vec<u8>,
    end: usize,
    from: usize,
    past: usize,
}

impl Model for Payload {
    ghost use Rattle.std.specs.Prelude.{take, drop, slice_range, vec_len};
    ghost use Rattle.trib_sink.specs.Extraction.{Extraction, HasRoom};

    ghost Value = { Extraction };

    ghost view = { λ p. record { slots = p.slots; cm = p.runner.cm; asked = p.runner.asked; pending = drop p.first (take p.last p.kept.items); fresh = take p.end p.fresh.items; emitted = slice_range p.fresh.items p.from p.past } };

    ghost invariant = { λ p. HasRoom p.slots p.runner.cm p.runner.asked p.first p.last (vec_len p.kept) p.end p.from p.past (vec_len p.fresh) };
}

impl Payload {
    /// Nothing extracted, for so many slots. Takes all memory that it will ever need.
    pub(crate) fn new(alloc: Global, slots: usize) -> Result<Self, Memory>
        requires { slots ≤ MOST_SLOTS }
        ensures { IfOk result (λ p. p ≡ record {
          slots = slots;
          cm = 0;
          asked = 0;
          pending = [];
          fresh = [];
          emitted = [];
        }) }
    {
        let kept = vec![in alloc; 0u8; slots * (GROUPS + 1)]?;
        let fresh = vec![in alloc; 0u8; slots * (GROUPS + 1)]?;
        Ok(Payload {
            slots,
            runner: Runner::start(0),
            kept,
            first: 0,
            last: 0,
            fresh,
            end: 0,
            from: 0,
            past: 0,
        })
    }

    /// For how many slots it is.
    pub(crate) fn slots(&self) -> usize
        ensures count { result ≡ self.now.slots }
        ensures few { self.now.slots ≤ MOST_SLOTS }
    {
        self.slots
    }

    /// Extracts the data groups of a frame: at once where they are bytes that stand together, else row by row.
    pub(crate) fn take_frame<F: TakeFrame>(&mut self, frame: &F, slots: &Slots)
        requires count { length slots.now.list ≡ self.old.slots }
        requires asked { self.old.asked + 4 * row_cycles slots.now.kind ≤ GROUPS }
        ensures { self.new ≡ after_frame slots.now (F.bytes frame.now) self.old }
    {
        if let Some(own) = frame.own_bytes(slots) {
            self.take_own(own);
            return;
        }
        self.take_rows(frame, slots, 1);
        self.take_rows(frame, slots, 3);
    }

    // Extracts the data groups among these of one byte each, over what was emitted.
    fn take_own(&mut self, own: &[u8])
        requires one { self.old.slots ≡ 1 }
        requires asked { self.old.asked + length own.now ≤ GROUPS }
        ensures { self.new ≡ record self.old {
          asked = self.old.asked + length own.now;
          fresh = self.old.fresh ++ own_data self.old.cm self.old.asked own.now;
          emitted = [];
        } }
    {
        self.end = extract::take_own(&mut self.runner, own, &mut self.fresh, self.end);
        self.from = 0;
        self.past = 0;
    }

    // Extracts the data groups of a row and of the next one.
    fn take_rows<F: TakeFrame>(&mut self, frame: &F, slots: &Slots, row: u32)
        requires low { 1 ≤ row }
        requires high { row ≤ 3 }
        requires count { length slots.now.list ≡ self.old.slots }
        requires asked { self.old.asked + 2 * row_cycles slots.now.kind ≤ GROUPS }
        ensures { self.new ≡ record self.old {
          asked =
              self.old.asked + row_cycles slots.now.kind + row_cycles slots.now.kind;
          fresh = with_rows self.old.fresh self.old.cm self.old.asked slots.now (F.bytes frame.now) row;
          emitted = [];
        } }
    {
        self.take_row(frame, row, slots);
        self.take_row(frame, row + 1, slots);
    }

    // Extracts the data groups of a row, over what was emitted.
    fn take_row<F: TakeFrame>(&mut self, frame: &F, row: u32, slots: &Slots)
        requires low { 1 ≤ row }
        requires high { row ≤ 4 }
        requires count { length slots.now.list ≡ self.old.slots }
        requires asked { self.old.asked + row_cycles slots.now.kind ≤ GROUPS }
        ensures { self.new ≡ record self.old {
          asked = self.old.asked + row_cycles slots.now.kind;
          fresh = self.old.fresh ++ row_data (slots_of slots.now.kind) self.old.cm self.old.asked
              (payload_row_of LINE_COLUMNS row (F.bytes frame.now)) slots.now.list (row_cycles slots.now.kind);
          emitted = [];
        } }
    {
        self.end = extract::take_row(
            &mut self.runner,
            frame,
            row,
            slots,
            &mut self.fresh,
            self.end,
        );
        self.from = 0;
        self.past = 0;
    }

    /// Emits nothing, drops all bytes, and begins a turn whose groups are data by this number.
    pub(crate) fn clear(&mut self, cm: u16)
        requires { cm ≤ GROUPS }
        ensures { self.new ≡ record self.old { cm = cm; asked = 0; pending = []; fresh = []; emitted = [] } }
    {
        self.first = 0;
        self.last = 0;
        self.end = 0;
        self.from = 0;
        self.past = 0;
        self.runner = Runner::start(cm as u32);
    }

    /// Emits nothing, keeps all bytes pending, and begins a turn whose groups are data by this number.
    pub(crate) fn keep_all(&mut self, cm: u16)
        requires cm { cm ≤ GROUPS }
        requires first { self.old.pending ≡ [] }
        ensures { self.new ≡ record self.old {
          cm = cm;
          asked = 0;
          pending = self.old.pending ++ self.old.fresh;
          fresh = [];
          emitted = [];
        } }
    {
        mem::swap(&mut self.kept, &mut self.fresh);
        self.first = 0;
        self.last = self.end;
        self.end = 0;
        self.from = 0;
        self.past = 0;
        self.runner = Runner::start(cm as u32);
    }

    /// Emits all pending bytes and as many of this turn's as are due, keeps the others pending, and
    /// begins a turn whose groups are data by this number.
    pub(crate) fn give_due(&mut self, due: u16, cm: u16)
        requires cm { cm ≤ GROUPS }
        requires due { due ≤ self.old.slots }
        ensures state { self.new ≡ record self.old {
          cm = cm;
          asked = 0;
          pending = drop due self.old.fresh;
          fresh = [];
          emitted = self.old.pending ++ take due self.old.fresh;
        } }
        ensures most { length self.new.emitted ≤ self.old.slots * GROUPS + due }
    {
        let due = self.end.min(due as usize);
        let past = copy_to(&self.fresh[..due], &mut self.kept, self.last);
        mem::swap(&mut self.kept, &mut self.fresh);
        self.from = self.first;
        self.past = past;
        self.first = due;
        self.last = self.end;
        self.end = 0;
        self.runner = Runner::start(cm as u32);
    }

    /// Emits all pending bytes and drops those of this turn.
    #[tactic(auto, using(crate::proofs::Emitted::between))]
    pub(crate) fn give_pending(&mut self)
        ensures state { self.new ≡ record self.old {
          cm = 0;
          asked = 0;
          pending = [];
          fresh = [];
          emitted = self.old.pending;
        } }
        ensures most { length self.new.emitted ≤ self.old.slots * GROUPS }
    {
        mem::swap(&mut self.kept, &mut self.fresh);
        self.from = self.first;
        self.past = self.last;
        self.first = 0;
        self.last = 0;
        self.end = 0;
        self.runner = Runner::start(0);
    }

    /// Emits the next bytes of a signal's stream, 15,168 a slot, and drops all others.
    pub(crate) fn give_signal(&mut self, stream: &mut SignalBytes)
        ensures state { self.new ≡ record self.old {
          cm = 0;
          asked = 0;
          pending = [];
          fresh = [];
          emitted = self.new.emitted;
        } }
        ensures bytes { (signal : Signal) (emitted : ℕ) → HasEmitted signal emitted stream.old
            → self.new.emitted ≡ signal_bytes signal emitted (self.old.slots * NOMINAL) }
        ensures emitted { (signal : Signal) (emitted : ℕ) → HasEmitted signal emitted stream.old
            → HasEmitted signal (emitted + self.old.slots * NOMINAL) stream.new }
        ensures most { length self.new.emitted ≤ self.old.slots * NOMINAL }
    {
        let count = self.slots * NOMINAL;
        next_front(stream, &mut self.fresh, count);
        self.first = 0;
        self.last = 0;
        self.end = 0;
        self.from = 0;
        self.past = count;
        self.runner = Runner::start(0);
    }

    /// What the last turn emitted.
    pub(crate) fn emitted(&self) -> &[u8]
        ensures { result.now ≡ self.now.emitted }
    {
        &self.fresh[self.from..self.past]
    }

    /// Where nothing stands in the buffer of a turn's own bytes, it changes places with this one, of as many bytes.
    /// Those of either are of no account.
    pub(crate) fn swap_spare(&mut self, buffer: &mut Vec<u8>)
        requires room { vec_len buffer.old ≡ self.old.slots * (GROUPS + 1) }
        ensures same { self.new ≡ self.old }
        ensures room_stays { vec_len buffer.new ≡ vec_len buffer.old }
    {
        if self.end == 0 && self.past == 0 {
            mem::swap(buffer, &mut self.fresh);
        }
    }

    /// Hands out what the last turn emitted, before a frame is taken: the buffer in which it stands changes places with
    /// this one, of as many bytes, and the answer is where it stands there.
    pub(crate) fn hand_over(&mut self, buffer: &mut Vec<u8>) -> Range<usize>
        requires room { vec_len buffer.old ≡ self.old.slots * (GROUPS + 1) }
        requires fresh { self.old.fresh ≡ [] }
        ensures state { self.new ≡ record self.old { emitted = [] } }
        ensures bytes { slice_range buffer.new.items result.start result.end ≡ self.old.emitted }
        ensures in_order { result.start ≤ result.end }
        ensures within { result.end ≤ vec_len buffer.new }
        ensures room_stays { vec_len buffer.new ≡ vec_len buffer.old }
    {
        let emitted = self.from..self.past;
        mem::swap(&mut self.fresh, buffer);
        self.end = 0;
        self.from = 0;
        self.past = 0;
        emitted
    }
}

// Writes these bytes at `at`, and says where they end; every other byte stays.
fn copy_to(bytes: &[u8], into: &mut [u8], at: usize) -> usize
    requires { at + length bytes.now ≤ length into.old }
    ensures end { result ≡ at + length bytes.now }
    ensures bytes { into.new ≡ take at into.old ++ bytes.now ++ drop result into.old }
{
    let end = at + bytes.len();
    into[at..end].copy_from_slice(bytes);
    end
}

// The next bytes of a signal's stream, so many, to the front of a slice.
fn next_front(stream: &mut SignalBytes, into: &mut [u8], count: usize)
    requires { count ≤ length into.old }
    ensures bytes { (signal : Signal) (emitted : ℕ) → HasEmitted signal emitted stream.old
        → take count into.new ≡ signal_bytes signal emitted count }
    ensures emitted { (signal : Signal) (emitted : ℕ) → HasEmitted signal emitted stream.old
        → HasEmitted signal (emitted + count) stream.new }
    ensures size { length into.new ≡ length into.old }
{
    stream.next(&mut into[..count]);
}
