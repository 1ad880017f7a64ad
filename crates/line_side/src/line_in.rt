// An input line: it finds multiframes in the frames that come, one in a turn or none.
ghost use Rattle.std.specs.Prelude.{◌≡◌, ◌≢◌, ◌↔◌, ◌+◌, ◌-◌, ◌%◌, ◌<◌, ◌≤◌, ℕ, List, [], true, false, None, IfOk, IfSome, IsSome, IsSomeAnd, IsTrue, length};
ghost use Rattle.std.specs.Option.{ForSome};
ghost use Rattle.otn_base.specs.LineSlots.{slots_of};
ghost use Rattle.port_base.specs.Given.{Gave};
ghost use Rattle.port_base.specs.InPlace.{in_view};
ghost use Rattle.port_base.specs.Views.{InView};

use crate::LineCounts;
use crate::reader::LineReader;
use crate::tried::Tried;
use frame_geometry::Frame;
use multiframe::Phase;
use otn_base::limits::LINE_COLUMNS;
use otn_base::{LineKind, Memory};
use port_base::{InPlaceOf, Source};
use std::alloc::Global;
use std::marker::Model;

/// An input line of a node, of either kind, plain or scrambled: with `COUNTS` 1 it is what the crate calls `LineIn`,
/// and checks the overhead of the frames that it uses; with 0 it is `UncountedLineIn`. Each of its turns is done in S
/// pieces where the line has S slots, and has one multiframe of S frames, or none. A turn that hunts looks for one
/// (G.709 clause 15.6) that begins within S frames: the frames before it are lead-in. Where none begins there these S
/// are lead-in, and the turn has none; with fewer than S left the line ends. The line stays locked, by a rule of ours,
/// while at most half of the MFAS bytes of each multiframe differ from the expected ones.
#[derive(Drop)]
pub struct LineIn<const COUNTS: usize> {
    phase: Phase,
    reader: LineReader<COUNTS>,
    pieces: u8,
    has_frame: bool,
    ended: bool,
    lead_in: u64,
    lost: u64,
}

impl<const COUNTS: usize> Model for LineIn<COUNTS> {
    ghost use Rattle.std.specs.Prelude.{◌≡◌, ◌≤◌, true, IsSome, length};
    ghost use Rattle.std.specs.Option.{ForSome};
    ghost use Rattle.otn_base.specs.LineSlots.{slots_of};
    ghost use Rattle.line_side.specs.LineStands.{LineView};

    ghost Value = { LineView };

    ghost view = { λ l. record { kind = l.phase.kind; alignment = l.phase.alignment; reader = l.reader; pieces = l.pieces; has_frame = l.has_frame; ended = l.ended; lead_in = l.lead_in; lost = l.lost } };

    ghost invariant = { λ l. record {
      pieces : l.pieces ≤ slots_of l.phase.kind;
      taken : ForSome l.phase.alignment (λ a. length a.taken ≤ l.pieces);
      has_frame : l.has_frame ≡ true → (1 ≤ l.pieces) × IsSome l.phase.alignment;
    } };
}

impl<const COUNTS: usize> LineIn<COUNTS> {
    ghost use Rattle.line_side.specs.LineStands.{LineStands, AsStood, PieceStands, InItsTurn, OfMember, AwaitsTurn, TurnEnded, frames_taken};
    ghost use Rattle.line_side.specs.Steps.LineMoves.{TakesNext, Tries, Hunts, StepMoves, EndMoves};
    ghost use Rattle.line_side.specs.Reader.{rest_of};
    ghost use Rattle.line_side.specs.Steps.Reader.{AsksNoMore};
    ghost use Rattle.line_side.specs.LineFile.{frame_at};
    ghost use Rattle.multiframe.specs.LineTurns.{one_if};
    ghost use Rattle.line_side.specs.declared.ending.Ending.TheVariants.{Open, Seen};

    /// A line of this kind, scrambled or plain, before its first turn, of which nothing was read.
    pub fn new(alloc: Global, kind: LineKind, scrambled: bool) -> Result<LineIn<COUNTS>, Memory>
        ensures stands { IfOk result (λ line. (first : InView)
            → LineStands (record { kind = kind; scrambled = scrambled }) first first [] 0 line) }
        ensures kind { IfOk result (λ line. line.kind ≡ kind) }
        ensures pieces { IfOk result (λ line. line.pieces ≡ 0) }
        ensures frames_taken { IfOk result (λ line. frames_taken line ≡ 0) }
    {
        Ok(LineIn {
            phase: Phase::new(kind),
            reader: LineReader::new(alloc, scrambled)?,
            pieces: 0,
            has_frame: false,
            ended: false,
            lead_in: 0,
            lost: 0,
        })
    }

    /// Does the next piece of the turn. The place is that of the last piece, and nothing else has read it since. The
    /// answer is whether a frame of the multiframe on which the turn is locked is now in hand; whether the turn has
    /// that multiframe only `end_turn` says. The first piece of a turn that hunts reads up to S + 1 frames, any other
    /// one at most. A line that has ended, or that found no multiframe in this turn, reads nothing.
    pub fn piece<P: Source>(&mut self, place: &mut InPlaceOf<P>) -> bool
        requires { self.old.pieces < slots_of self.old.kind }
        ensures stands { AsStood (in_view P.Source place.old) self.old
            (λ form first read t. PieceStands form first (in_view P.Source place.new) read t self.old self.new) }
        ensures kind { self.new.kind ≡ self.old.kind }
        ensures pieces { self.new.pieces ≡ self.old.pieces + 1 }
        ensures has_frame { result ≡ self.new.has_frame }
        ensures frames_taken { frames_taken self.new ≡ frames_taken self.old + one_if result }
        ensures most { frames_taken self.new ≤ self.new.pieces }

        // bytes are taken of a live place, or none; it dies only where its port's count of faults rose or stands at its
        // end, and else the count is as it was; any other place is as it was
        ensures gave { (further : List ℕ) × Gave (in_view P.Source place.old) further (in_view P.Source place.new) }

        // once the end was seen, the place died or the line has ended, the place is asked nothing more (of a line that
        // has ended `awaits` says it too)
        ensures quiet { self.old.reader.ending ≢ Open → place.new ≡ place.old }
        ensures ended { self.old.ended ≡ true → place.new ≡ place.old }

        // after a piece that came to no frame the turn's others come to none and ask the place nothing; so do all
        // pieces of a line that has ended
        ensures missed { result ≡ false → AwaitsTurn self.new }
        ensures awaits { AwaitsTurn self.old → (result ≡ false) × (place.new ≡ place.old) }
    {
        let first = self.pieces == 0;
        self.pieces += 1;
        self.has_frame = false;
        self.has_frame = self.step(place, first);
        self.has_frame
    }

    /// The frame in hand, unscrambled: one of the multiframe on which the turn is locked. The last piece has said that
    /// there is one.
    #[tactic(auto, using(crate::proofs::Ended::hand_in))]
    pub fn frame(&self) -> &Frame<LINE_COLUMNS>
        requires { self.now.has_frame ≡ true }
        ensures hand { result.now ≡ self.now.reader.hand }
        ensures line { OfMember self.now (λ available member. result.now ≡ frame_at available member.frame) }
    {
        self.reader.frame()
    }

    /// The MFAS that is expected in the frame in hand. The last piece has said that there is one.
    pub fn expected(&self) -> u8
        requires { self.now.has_frame ≡ true }
        ensures alignment { IfSome self.now.alignment (λ a. result ≡ (a.expected + (self.now.pieces - 1)) % 256) }
        ensures line { OfMember self.now (λ available member. result ≡ member.expected) }
    {
        self.phase.expected(self.pieces - 1)
    }

    /// Ends the turn, all of whose pieces are done, and says whether it has a multiframe.
    pub fn end_turn(&mut self) -> bool
        requires { self.old.pieces ≡ slots_of self.old.kind }
        ensures stands { (now : InView) → AsStood now self.old
            (λ form first read t. LineStands form first now read (t + 1) self.new) }
        ensures turn { InItsTurn self.old (λ form available t. TurnEnded form available t result self.new) }
        ensures kind { self.new.kind ≡ self.old.kind }
        ensures ending { self.new.reader.ending ≡ self.old.reader.ending }
        ensures pieces { self.new.pieces ≡ 0 }
        ensures whole { result ≡ true → frames_taken self.old ≡ slots_of self.old.kind }
        ensures frames_taken { frames_taken self.new ≡ 0 }
    {
        self.close()
    }

    fn close(&mut self) -> bool
        ensures { EndMoves (slots_of self.old.kind) result self.old self.new }
    {
        let hunted = self.phase.hunting();
        let whole = self.phase.end_turn();
        self.pieces = 0;
        self.has_frame = false;
        if self.ended || hunted {
            return false;
        }
        if !whole {
            self.lost = self.lost.saturating_add(1);
        }
        whole
    }

    /// Whether the line has ended: neither the turn in which that was found nor a later one has a multiframe.
    pub fn ended(&self) -> bool
        ensures { result ≡ self.now.ended }
    {
        self.ended
    }

    /// Whether a read of this line came to the end of its place, which was not dead.
    pub fn end_seen(&self) -> bool
        ensures { IsTrue result ↔ (self.now.reader.ending ≡ Seen) }
    {
        self.reader.end_seen()
    }

    /// How many bytes came after the last whole frame, where the end was seen.
    pub fn rest(&self) -> u64
        ensures rest { result ≡ self.now.reader.rest }
        ensures line { InItsTurn self.now (λ form available t. result ≡ rest_of self.now.reader.ending available) }
    {
        self.reader.rest()
    }

    // A piece of a line that has not ended takes the next frame of the turn, or hunts for the first one.
    fn step<P: Source>(&mut self, place: &mut InPlaceOf<P>, first: bool) -> bool
        requires room { ForSome self.old.alignment (λ a. length a.taken < self.old.pieces) }
        requires pieces { 1 ≤ self.old.pieces }
        requires most { self.old.pieces ≤ slots_of self.old.kind }
        requires fresh { self.old.has_frame ≡ false }
        ensures moves { StepMoves (slots_of self.old.kind) first result self.old (in_view P.Source place.old) self.new
            (in_view P.Source place.new) }
        ensures waits { (self.old.ended ≡ false → (first ≡ false) × (self.old.alignment ≡ None))
            → place.new ≡ place.old }
        ensures quiet { AsksNoMore self.old.reader.ending place.old self.new.reader.ending place.new }
    {
        if self.ended {
            return false;
        }
        if !self.phase.hunting() {
            return self.take_next(place);
        }
        first && self.hunt(place)
    }

    // Takes the next frame of a turn that is locked. The line ends where it isn't whole.
    fn take_next<P: Source>(&mut self, place: &mut InPlaceOf<P>) -> bool
        requires room { IsSomeAnd self.old.alignment (λ a. length a.taken < self.old.pieces) }
        requires most { self.old.pieces ≤ slots_of self.old.kind }
        ensures takes { TakesNext result self.old (in_view P.Source place.old) self.new (in_view P.Source place.new) }
        ensures quiet { AsksNoMore self.old.reader.ending place.old self.new.reader.ending place.new }
    {
        if !self.reader.advance(place) {
            self.ended = true;
            return false;
        }
        self.phase.take(self.reader.mfas());
        true
    }

    // Hunts for the first frame of a multiframe. It passes over as many frames as a multiframe has at most.
    fn hunt<P: Source>(&mut self, place: &mut InPlaceOf<P>) -> bool
        requires hunting { self.old.alignment ≡ None }
        requires pieces { 1 ≤ self.old.pieces }
        requires going { self.old.ended ≡ false }
        ensures hunts { Hunts (slots_of self.old.kind) result self.old (in_view P.Source place.old) self.new
            (in_view P.Source place.new) }
        ensures quiet { AsksNoMore self.old.reader.ending place.old self.new.reader.ending place.new }
    {
        for _ in 0..self.phase.kind().slots() {
            match self.try_frame(place) {
                Tried::Locks => return true,
                Tried::Passes => {}
                Tried::Ends => return false,
            }
        }
        false
    }

    // Locks on the multiframe that begins with the next frame, or passes over it. The line ends where it isn't whole.
    fn try_frame<P: Source>(&mut self, place: &mut InPlaceOf<P>) -> Tried
        requires hunting { self.old.alignment ≡ None }
        requires pieces { 1 ≤ self.old.pieces }
        ensures tries { Tries (slots_of self.old.kind) result self.old (in_view P.Source place.old) self.new
            (in_view P.Source place.new) }
        ensures quiet { AsksNoMore self.old.reader.ending place.old self.new.reader.ending place.new }
    {
        if !self.reader.advance(place) {
            self.ended = true;
            return Tried::Ends;
        }
        if !self.reader.begins(place, self.phase.kind()) {
            self.lead_in = self.lead_in.saturating_add(1);
            return Tried::Passes;
        }
        let mfas = self.reader.mfas();
        self.phase.lock(mfas);
        self.phase.take(mfas);
        Tried::Locks
    }
}

impl LineIn<1> {
    ghost use Rattle.line_side.specs.LineStands.{InItsTurn};
    ghost use Rattle.line_side.specs.LineNumbers.{numbers_of};

    /// The numbers of the line so far.
    #[tactic(auto, using(crate::proofs::Numbers::numbers_are))]
    pub fn counts(&self) -> LineCounts
        ensures frames { result.frames ≡ self.now.reader.frames }
        ensures lead_in { result.lead_in ≡ self.now.lead_in }
        ensures lost { result.lost ≡ self.now.lost }
        ensures rest { result.rest ≡ self.now.reader.rest }
        ensures line { InItsTurn self.now
            (λ form available t. result ≡ numbers_of form self.now.reader.ending available t self.now.pieces) }
    {
        let seen = self.reader.seen();
        LineCounts {
            frames: self.reader.frames(),
            lead_in: self.lead_in,
            lost: self.lost,
            rest: self.reader.rest(),
            fas: seen.fas(),
            sm: seen.sm(),
            pm: seen.pm(),
        }
    }
}
