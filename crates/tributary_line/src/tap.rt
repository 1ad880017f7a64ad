// The sink of a tributary on an input line.
ghost use Rattle.std.specs.Prelude.{◌≡◌, ◌+◌, ◌*◌, ◌<◌, ◌≤◌, ℕ, true, false, not, List, [], IfOk, length, slice_range, vec_len};
ghost use Rattle.port_base.specs.InPlace.{in_view};
ghost use Rattle.port_base.specs.Views.{InView};
ghost use Rattle.tributary_model.specs.Places.{Tributary, tributary_of};
ghost use Rattle.tributary_model.specs.Stretches.{state_after};
ghost use Rattle.port_base.specs.Asked.{ByteAnswer};
ghost use Rattle.device_model.specs.LineAsked.{is_seen};
ghost use Rattle.device_model.specs.LineViews.{views_until};
ghost use Rattle.otn_base.specs.declared.limits.TheConstants.{GROUPS, OTU2_SLOTS};

use line_side::UncountedLineIn;
use otn_base::limits::OTU2_SLOTS;
use otn_base::{LineKind, Memory, Slots};
use port_base::{InPlaceOf, Source, ask_byte};
use std::alloc::Global;
use std::marker::Model;
use std::ops::Range;
use trib_sink::TribSink;
use tributary_model::SinkState;

/// The sink of a tributary of an OTU2 line that sees the line's turns, from the first one on.
#[derive(Drop)]
pub struct Tap {
    line: UncountedLineIn,
    sink: TribSink,
}

ghost use Rattle.tributary_line.specs.TapTurn.{TapStands, TurnMoves, OfItsTurn, IsInStep, IsBetweenTurns};
ghost use Rattle.tributary_line.specs.Steps.TapTurn.{TapMoves};

impl Model for Tap {
    ghost use Rattle.tributary_line.specs.TapTurn.{TapView};

    ghost Value = { TapView };

    ghost view = { λ t. record { line = t.line; sink = t.sink } };
}

impl Tap {
    /// A sink of these slots and this tributary port, 1 to 8, before the line's first turn. Takes all memory that it
    /// will ever need; answers `Memory` where there is none.
    pub fn new(alloc: Global, port: u8, slots: &Slots) -> Result<Tap, Memory>
        requires low { 1 ≤ port }
        requires high { port ≤ OTU2_SLOTS }
        requires plain { slots.now.kind ≡ LineKind.Otu2 }
        ensures stands { IfOk result (λ tap. (first : InView)
            → TapStands (tributary_of slots.now port) first first [] 0 tap) }
        ensures between { IfOk result IsBetweenTurns }
        ensures slots { IfOk result (λ tap. tap.sink.slots ≡ slots.now) }
    {
        let line = UncountedLineIn::new(alloc, LineKind::Otu2, false)?;
        let sink = TribSink::new(alloc, slots, port)?;
        Ok(Tap { line, sink })
    }

    /// Does a turn. What the sink emits in it stands in what is `room` afterwards, from where to where the answer says;
    /// the sink keeps what was `room` before, of 15,233 bytes a slot.
    pub fn turn<I: Source>(&mut self, place: &mut InPlaceOf<I>, room: &mut Vec<u8>) -> Range<usize>
        requires between { IsBetweenTurns self.old }
        requires room { vec_len room.old ≡ length self.old.sink.slots.list * (GROUPS + 1) }
        ensures moves { (own : Tributary) (first : InView) (read : List ℕ) (t : ℕ)
            → TapStands own first (in_view I.Source place.old) read t self.old
            → TurnMoves own first (in_view I.Source place.new) read t self.old self.new
            (slice_range room.new.items result.start result.end) }
        ensures in_order { result.start ≤ result.end }
        ensures within { result.end ≤ vec_len room.new }
        ensures room_stays { vec_len room.new ≡ vec_len room.old }
        ensures between { IsBetweenTurns self.new }
        ensures slots { self.new.sink.slots ≡ self.old.sink.slots }
    {
        self.take_frames(place);
        let whole = self.line.end_turn();
        self.sink.hand_over(whole, room)
    }

    // The eight pieces of a turn.
    fn take_frames<I: Source>(&mut self, place: &mut InPlaceOf<I>)
        requires between { IsBetweenTurns self.old }
        ensures moves { (own : Tributary) (first : InView) (read : List ℕ) (t : ℕ)
            → TapStands own first (in_view I.Source place.old) read t self.old
            → TapMoves own first (in_view I.Source place.new) read t self.old self.new }
        ensures pieces { self.new.line.pieces ≡ OTU2_SLOTS }
        ensures step { IsInStep self.new.sink.taken self.new }
        ensures slots { self.new.sink.slots ≡ self.old.sink.slots }
    {
        let mut frames = 0;
        for _ in 0..OTU2_SLOTS {
            frames = self.take_piece(place, frames);
        }
    }

    // A piece of a turn in which so many frames were taken, and how many then are.
    fn take_piece<I: Source>(&mut self, place: &mut InPlaceOf<I>, frames: u8) -> u8
        requires pieces { self.old.line.pieces < OTU2_SLOTS }
        requires step { IsInStep frames self.old }
        ensures moves { (own : Tributary) (first : InView) (read : List ℕ) (t : ℕ)
            → TapStands own first (in_view I.Source place.old) read t self.old
            → TapMoves own first (in_view I.Source place.new) read t self.old self.new }
        ensures pieces { self.new.line.pieces ≡ self.old.line.pieces + 1 }
        ensures step { IsInStep result self.new }
        ensures slots { self.new.sink.slots ≡ self.old.sink.slots }
    {
        if !self.line.piece(place) {
            return frames;
        }
        self.sink
            .take_frame(frames, self.line.frame(), self.line.expected());
        frames + 1
    }

    /// How the sink stands after the turns that it has seen whole.
    pub fn state(&self) -> SinkState
        ensures { OfItsTurn self.now (λ own available t. result ≡ state_after own (views_until own available t)) }
    {
        self.sink.state()
    }

    /// After the last turn: asks the place for one byte more, where the end of the line was not seen, and says whether
    /// it came.
    pub fn ask_more<I: Source>(&self, place: &mut InPlaceOf<I>) -> bool
        ensures { ByteAnswer (not (is_seen self.now.line.reader.ending)) (in_view I.Source place.old)
            (in_view I.Source place.new) result }
    {
        if self.line.end_seen() {
            return false;
        }
        ask_byte(place)
    }

    /// The line.
    pub fn line(&self) -> &UncountedLineIn
        ensures { result.now ≡ self.now.line }
    {
        &self.line
    }
}
