// How a sink follows its tributary from turn to turn, without totals.
ghost use Rattle.std.specs.Prelude.{◌≡◌, ◌+◌, ◌*◌, ◌<◌, ◌≤◌, [], ◌++◌, Some, IfOk, length, take, drop, slice_range, vec_len};
ghost use Rattle.otn_base.specs.declared.limits.TheConstants.{GROUPS, MOST_SLOTS, NOMINAL};
ghost use Rattle.maintenance_signals.specs.declared.signal.Signal.TheVariants.{Ais};
ghost use Rattle.maintenance_signals.specs.Stream.{signal_byte};
ghost use Rattle.tributary_model.specs.declared.turns.Standing.TheVariants.{Waiting, Down as StandingDown, Up};
ghost use Rattle.tributary_model.specs.Emission.{stream_bytes};
ghost use Rattle.tributary_model.specs.Messages.{hears_message};
ghost use Rattle.tributary_model.specs.Machine.{Machine, start, opened, waits_on, went_on, down_gives, up_gives, former_of, cm_of, after_heard, gives_heard};
ghost use Rattle.trib_sink.specs.Following.{Keeps, FitsStanding, FitsDue, IsAt, most_of};
ghost use Rattle.trib_sink.specs.Steps.Following.{FitsFirst, FitsNext, IsSmallHearing, IsBetween, kept_after};
ghost use Rattle.trib_sink.specs.Rows.{row_cycles};
ghost use Rattle.trib_sink.specs.Steps.Rows.{after_frame};

use crate::hear::hear_message;
use crate::payload::Payload;
use crate::said::{begun, gone_on};
use jc_codec::Listener;
use maintenance_signals::{Signal, SignalBytes};
use odtu_columns::TakeFrame;
use otn_base::limits::NOMINAL;
use otn_base::{Memory, Slots};
use std::alloc::Global;
use std::marker::Model;
use std::ops::Range;
use tributary_model::{Hearing, Said, Standing};

/// How a sink stands between two turns or within one, with the bytes that it extracted.
#[derive(Drop)]
pub(crate) struct Follower {
    standing: Standing,
    listener: Listener,
    payload: Payload,
    signal: SignalBytes,
}

impl Model for Follower {
    ghost use Rattle.std.specs.Prelude.{◌≡◌};
    ghost use Rattle.tributary_model.specs.Machine.{cm_of};
    ghost use Rattle.trib_sink.specs.Following.{Following, FitsStanding};

    ghost Value = { Following };

    ghost view = { λ f. record { standing = f.standing; listener = f.listener; extraction = f.payload; stream = f.signal } };

    ghost invariant = { λ f. FitsStanding f.payload.slots f.payload.pending f.standing × (f.payload.cm ≡ cm_of f.standing) };
}

impl Follower {
    /// Waiting, for so many slots. Takes all memory that it will ever need.
    pub(crate) fn new(alloc: Global, slots: usize) -> Result<Self, Memory>
        requires { slots ≤ MOST_SLOTS }
        ensures at { IfOk result (λ f. IsAt start f) }
        ensures slots { IfOk result (λ f. f.extraction.slots ≡ slots) }
        ensures asked { IfOk result (λ f. f.extraction.asked ≡ 0) }
        ensures fresh { IfOk result (λ f. f.extraction.fresh ≡ []) }
        ensures cm { IfOk result (λ f. f.extraction.cm ≡ cm_of f.standing) }
    {
        let payload = Payload::new(alloc, slots)?;
        Ok(Follower {
            standing: Standing::Waiting(0),
            listener: Listener::new(),
            payload,
            signal: SignalBytes::new(Signal::Ais),
        })
    }

    /// Waiting again, as a new one of as many slots.
    pub(crate) fn restart(&mut self)
        ensures at { IsAt start self.new }
        ensures slots { self.new.extraction.slots ≡ self.old.extraction.slots }
        ensures asked { self.new.extraction.asked ≡ 0 }
        ensures fresh { self.new.extraction.fresh ≡ [] }
        ensures cm { self.new.extraction.cm ≡ cm_of self.new.standing }
    {
        self.payload.clear(0);
        self.signal = SignalBytes::new(Signal::Ais);
        self.standing = Standing::Waiting(0);
    }

    /// How it stands.
    pub(crate) fn standing(&self) -> Standing
        ensures { result ≡ self.now.standing }
    {
        self.standing
    }

    /// Extracts the data groups of a frame.
    pub(crate) fn take_frame<F: TakeFrame>(&mut self, frame: &F, slots: &Slots)
        requires count { length slots.now.list ≡ self.old.extraction.slots }
        requires asked { self.old.extraction.asked + 4 * row_cycles slots.now.kind ≤ GROUPS }
        ensures { self.new ≡ record self.old {
          extraction = after_frame slots.now
              (F.bytes frame.now) self.old.extraction;
        } }
    {
        self.payload.take_frame(frame, slots);
    }

    /// Hears the message of the turn: after the number of the last turn within a stretch, else after none.
    pub(crate) fn hear(&mut self, message: [u8; 6]) -> Hearing
        requires { Keeps self.old.standing self.old.listener }
        ensures heard { result ≡ hears_message (former_of self.old.standing) self.old.extraction.slots message }
        ensures kept { self.new ≡ record self.old { listener = kept_after (former_of self.old.standing) result } }
    {
        ready(self.standing, &mut self.listener);
        hear_message(&mut self.listener, message, self.payload.slots() as u32)
    }

    /// Ends a turn in which this was heard. How it stands then does not depend on its place in the AIS stream
    /// (`standing`, where 0 is any place).
    pub(crate) fn pass(&mut self, heard: Option<Hearing>)
        requires small { IsSmallHearing self.old.extraction.slots heard }
        ensures standing { self.new.standing
            ≡ (after_heard self.old.extraction.slots heard self.old.extraction.fresh
            (record { standing = self.old.standing; pending = self.old.extraction.pending; place = 0 })).standing }
        ensures at { (s : Machine) → IsAt s self.old
            → IsAt (after_heard self.old.extraction.slots heard self.old.extraction.fresh s) self.new }
        ensures bytes { (s : Machine) → IsAt s self.old
            → self.new.extraction.emitted
            ≡ gives_heard self.old.extraction.slots (signal_byte Ais) heard self.old.extraction.fresh s }
        ensures most { length self.new.extraction.emitted ≤ most_of self.old.extraction.slots }
        ensures between { IsBetween self.old self.new }
    {
        match self.standing {
            Standing::Waiting(n) => self.from_waiting(n, begun(heard)),
            Standing::Down => self.from_down(begun(heard)),
            Standing::Up(said) => self.from_up(said, gone_on(said, heard)),
        }
    }

    /// What the last turn emitted, before a frame is taken.
    pub(crate) fn emitted(&self) -> &[u8]
        ensures { result.now ≡ self.now.extraction.emitted }
    {
        self.payload.emitted()
    }

    /// Hands out what the last turn emitted, before a frame is taken: in the buffer with which this one, of as many
    /// bytes, changes places, from where to where the answer says.
    pub(crate) fn hand_over(&mut self, buffer: &mut Vec<u8>) -> Range<usize>
        requires room { vec_len buffer.old ≡ self.old.extraction.slots * (GROUPS + 1) }
        requires fresh { self.old.extraction.fresh ≡ [] }
        ensures state { self.new ≡ record self.old { extraction = record self.old.extraction { emitted = [] } } }
        ensures bytes { slice_range buffer.new.items result.start result.end ≡ self.old.extraction.emitted }
        ensures in_order { result.start ≤ result.end }
        ensures within { result.end ≤ vec_len buffer.new }
        ensures room_stays { vec_len buffer.new ≡ vec_len buffer.old }
    {
        self.payload.hand_over(buffer)
    }

    /// Where nothing stands in the buffer of a turn's own bytes, it changes places with this one, of as many bytes.
    /// Those of either are of no account.
    pub(crate) fn swap_spare(&mut self, buffer: &mut Vec<u8>)
        requires room { vec_len buffer.old ≡ self.old.extraction.slots * (GROUPS + 1) }
        ensures same { self.new ≡ self.old }
        ensures room_stays { vec_len buffer.new ≡ vec_len buffer.old }
    {
        self.payload.swap_spare(buffer);
    }

    // Ends a turn before which it was Waiting: emits nothing.
    fn from_waiting(&mut self, n: u8, first: Option<Said>)
        requires standing { self.old.standing ≡ Waiting n }
        requires first { FitsFirst self.old.extraction.slots first }
        ensures standing { self.new.standing ≡ (opened first (waits_on n)).standing }
        ensures at { (s : Machine) → IsAt s self.old → IsAt (opened first (waits_on n)) self.new }
        ensures between { IsBetween self.old self.new }
        ensures bytes { self.new.extraction.emitted ≡ [] }
    {
        match first {
            Some(said) => self.stand_anew(Standing::Up(said)),
            None => self.wait_on(n),
        }
    }

    // Waits one turn more, or is Down.
    fn wait_on(&mut self, n: u8)
        requires { self.old.standing ≡ Waiting n }
        ensures standing { self.new.standing ≡ (waits_on n).standing }
        ensures at { (s : Machine) → IsAt s self.old → IsAt (waits_on n) self.new }
        ensures between { IsBetween self.old self.new }
        ensures bytes { self.new.extraction.emitted ≡ [] }
    {
        if n >= 2 {
            self.stand_anew(Standing::Down);
        } else {
            self.stand_anew(Standing::Waiting(n + 1));
        }
    }

    // Ends a turn before which it was Down: emits nothing where it begins a stretch, else the next bytes of AIS.
    fn from_down(&mut self, first: Option<Said>)
        requires standing { self.old.standing ≡ StandingDown }
        requires first { FitsFirst self.old.extraction.slots first }
        ensures standing { self.new.standing
            ≡ (opened first (record { standing = StandingDown; pending = []; place = 0 })).standing }
        ensures at { (s : Machine) → IsAt s self.old
            → IsAt (opened first (record {
              standing = StandingDown;
              pending = [];
              place = s.place + self.old.extraction.slots * NOMINAL;
            })) self.new }
        ensures bytes { (s : Machine) → IsAt s self.old
            → self.new.extraction.emitted
            ≡ down_gives first (stream_bytes (signal_byte Ais) s.place (self.old.extraction.slots * NOMINAL)) }
        ensures most { length self.new.extraction.emitted ≤ most_of self.old.extraction.slots }
        ensures between { IsBetween self.old self.new }
    {
        match first {
            Some(said) => self.stand_anew(Standing::Up(said)),
            None => self.give_ais(),
        }
    }

    // Emits the next bytes of AIS.
    #[tactic(auto, unfolding(maintenance_signals::specs::Stream::signal_bytes, tributary_model::specs::Emission::stream_bytes))]
    fn give_ais(&mut self)
        requires standing { self.old.standing ≡ StandingDown }
        ensures standing { self.new.standing ≡ StandingDown }
        ensures at { (s : Machine) → IsAt s self.old
            → IsAt (record {
              standing = StandingDown;
              pending = [];
              place = s.place + self.old.extraction.slots * NOMINAL;
            }) self.new }
        ensures bytes { (s : Machine) → IsAt s self.old
            → self.new.extraction.emitted
            ≡ stream_bytes (signal_byte Ais) s.place (self.old.extraction.slots * NOMINAL) }
        ensures most { length self.new.extraction.emitted ≤ most_of self.old.extraction.slots }
        ensures between { IsBetween self.old self.new }
    {
        self.payload.give_signal(&mut self.signal);
    }

    // Ends a turn before which it was Up: as `next` says where the stretch goes on, else as its ending turn.
    fn from_up(&mut self, said: Said, next: Option<Said>)
        requires standing { self.old.standing ≡ Up said }
        requires fits { FitsStanding self.old.extraction.slots self.old.extraction.pending self.old.standing }
        requires next { FitsNext self.old.extraction.slots next said.cnd }
        ensures standing { self.new.standing
            ≡ (went_on next said self.old.extraction.pending self.old.extraction.fresh).standing }
        ensures at { (s : Machine) → IsAt s self.old
            → IsAt (went_on next said s.pending self.old.extraction.fresh) self.new }
        ensures bytes { (s : Machine) → IsAt s self.old
            → self.new.extraction.emitted ≡ up_gives next said s.pending self.old.extraction.fresh }
        ensures most { length self.new.extraction.emitted ≤ most_of self.old.extraction.slots }
        ensures between { IsBetween self.old self.new }
    {
        match next {
            Some(next) => match said.due {
                Some(due) => self.go_on(due, next),
                None => self.go_first(next),
            },
            None => self.end(),
        }
    }

    // The first turn after the one that began a stretch emits nothing.
    fn go_first(&mut self, next: Said)
        requires pending { self.old.extraction.pending ≡ [] }
        requires next { (next.cm ≤ GROUPS) × (next.cnd < self.old.extraction.slots) }
        requires left { FitsDue self.old.extraction.slots
            (self.old.extraction.pending ++ self.old.extraction.fresh) next.due }
        ensures standing { self.new.standing ≡ Up next }
        ensures at { (s : Machine) → IsAt s self.old
            → IsAt (record { standing = Up next; pending = s.pending ++ self.old.extraction.fresh; place = 0 })
            self.new }
        ensures between { IsBetween self.old self.new }
        ensures bytes { self.new.extraction.emitted ≡ [] }
    {
        self.payload.keep_all(next.cm);
        self.signal.restart();
        self.standing = Standing::Up(next);
    }

    // A later one emits all pending bytes and as many of its own as are due.
    fn go_on(&mut self, due: u16, next: Said)
        requires next { (next.cm ≤ GROUPS) × (next.cnd < self.old.extraction.slots) }
        requires left { FitsDue self.old.extraction.slots (drop due self.old.extraction.fresh) next.due }
        requires due { due < self.old.extraction.slots }
        ensures standing { self.new.standing ≡ Up next }
        ensures at { (s : Machine) → IsAt s self.old
            → IsAt (record { standing = Up next; pending = drop due self.old.extraction.fresh; place = 0 }) self.new }
        ensures bytes { self.new.extraction.emitted ≡ self.old.extraction.pending
            ++ take due self.old.extraction.fresh }
        ensures most { length self.new.extraction.emitted ≤ most_of self.old.extraction.slots }
        ensures between { IsBetween self.old self.new }
    {
        self.payload.give_due(due, next.cm);
        self.signal.restart();
        self.standing = Standing::Up(next);
    }

    // The ending turn emits all pending bytes.
    fn end(&mut self)
        ensures standing { self.new.standing ≡ StandingDown }
        ensures at { (s : Machine) → IsAt s self.old
            → IsAt (record { standing = StandingDown; pending = []; place = 0 }) self.new }
        ensures bytes { self.new.extraction.emitted ≡ self.old.extraction.pending }
        ensures most { length self.new.extraction.emitted ≤ most_of self.old.extraction.slots }
        ensures between { IsBetween self.old self.new }
    {
        self.payload.give_pending();
        self.signal.restart();
        self.standing = Standing::Down;
    }

    // Emits nothing, and begins a turn with nothing pending.
    fn stand_anew(&mut self, standing: Standing)
        requires { FitsStanding self.old.extraction.slots [] standing }
        ensures standing { self.new.standing ≡ standing }
        ensures at { (s : Machine) → IsAt s self.old
            → IsAt (record { standing = standing; pending = []; place = 0 }) self.new }
        ensures between { IsBetween self.old self.new }
        ensures bytes { self.new.extraction.emitted ≡ [] }
    {
        self.payload.clear(cm(standing));
        self.signal.restart();
        self.standing = standing;
    }
}

// A listener for the next message.
fn ready(standing: Standing, listener: &mut Listener)
    requires { Keeps standing listener.old }
    ensures { listener.new ≡ former_of standing }
{
    match standing {
        Standing::Up(_) => {}
        _ => *listener = Listener::new(),
    }
}

// The number by which the groups of the next turn are data.
fn cm(standing: Standing) -> u16
    ensures { result ≡ cm_of standing }
{
    match standing {
        Standing::Up(said) => said.cm,
        _ => 0,
    }
}
