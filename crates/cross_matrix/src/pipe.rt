// The pipe of a connection. What its input brings in a turn is kept beside what it brought in the turn before, which
// goes to the output: so the two parts may be used in any order within a turn, and `fence` turns the sides. There a
// line's source takes over what it is to give, without a copy; for a client it stays in the pipe.
ghost use Rattle.std.specs.Prelude.{◌≡◌, ◌<◌, ◌≤◌, ◌+◌, ◌*◌, ℕ, suc, false, List, [], Option, IsSome, IsTrue, option_map};
ghost use Rattle.otn_base.specs.LineSlots.{slots_of};
ghost use Rattle.otn_base.specs.declared.limits.TheConstants.{GROUPS, LINE_COLUMNS as COLUMNS, ROWS};
ghost use Rattle.odu_client.specs.ClientInput.{packets_begun, is_spent, bad_line, emitted_before};
ghost use Rattle.port_base.specs.InPlace.{in_view};
ghost use Rattle.port_base.specs.OutPlace.{out_view};
ghost use Rattle.port_base.specs.Views.{InView, OutView};
ghost use Rattle.otn_base.specs.Counts.{saturated};
ghost use Rattle.plan_file.specs.declared.connection.Connection.{Connection};
ghost use Rattle.plan_file.specs.declared.connection.FromEnd.TheVariants as from_end;
ghost use Rattle.plan_file.specs.declared.connection.ToEnd.TheVariants as to_end;
ghost use Rattle.tributary_model.specs.Places.{tributary_of, byte_at};
ghost use Rattle.tributary_model.specs.Puts.{WasPut, IsSourcePlace};
ghost use Rattle.device_model.specs.Through.{OwnInput, got_by, state_in};
ghost use Rattle.cross_matrix.specs.InTurn.{next_taken, may_end, takes_one_slot, next_filled};
ghost use Rattle.cross_matrix.specs.Parts.{OnSink, OnSource, IsOfClient, IsTextOver, IsToClient, frames_taken, frames_filled, turns_taken, and_frame, line_over, next_turn, ClientInStands, ClientOutStands, OfItsClient, IsInputOf, IsBegun, IsReceived, HasSlots};
ghost use Rattle.cross_matrix.specs.Pipes.{PipeView, IsPipeOf, PipeStands, PipeAt, OfItsTurn, OfOpenTurn, OfLineTurn, OfDoneTurn, OfFrame, OfOwnFrame, ClientTook};

use crate::FromState;
use crate::giving::GivingPart;
use crate::taking::{TakingPart, pace_at};
use odtu_columns::{FillFrame, TakeFrame};
use otn_base::Burst;
use port_base::{InPlaceOf, OutPlaceOf, Sink, Source};
use std::marker::Model;
use std::mem;

/// The pipe of one connection of a plan. Contracts say where it stands: in which of the connection's own turns, counted
/// from 0; which frames of its line it has taken in that turn, or that its own part of the turn has ended; and how many
/// frames of its output line were filled. No call after `new` takes memory.
#[derive(Drop)]
pub struct Pipe {
    pub(crate) taking: TakingPart,
    pub(crate) giving: GivingPart,
    pub(crate) paces: Vec<u32>,
    pub(crate) start: u32,
    pub(crate) slots: u32,
    pub(crate) incoming: Burst,
    pub(crate) outgoing: Burst,
}

impl Model for Pipe {
    ghost use Rattle.cross_matrix.specs.Pipes.{PipeView, IsPipe};

    ghost Value = { PipeView };

    ghost view = { λ p. record { taking = p.taking; giving = p.giving; paces = p.paces.items; start = p.start; slots = p.slots; incoming = p.incoming.bytes; outgoing = p.outgoing.bytes } };

    ghost invariant = { λ p. IsPipe p.taking p.giving p.paces.items p.slots p.incoming.room p.outgoing.room };
}

impl Pipe {
    /// Begins the connection: every part is as new, and nothing is on the way. The first own turn has begun.
    pub fn start(&mut self)
        ensures stands { (x : Connection) (input : OwnInput) → IsPipeOf x self.old → IsInputOf x.from input
            → PipeStands x input 0 [] false 0 self.new }
        ensures client_in { (x : Connection) (n : ℕ) (first : InView) → IsPipeOf x self.old → x.from ≡ from_end.Client n
            → ClientInStands x first first [] 0 self.new.taking }
        ensures client_out { (x : Connection) (n : ℕ) (input : OwnInput) (first : OutView) → IsPipeOf x self.old
            → x.to ≡ to_end.Client n → ClientOutStands x input first first 0 self.new.giving }
        ensures entry { (x : Connection) → IsPipeOf x self.old → IsPipeOf x self.new }
        ensures taken { frames_taken self.new.taking ≡ 0 }
        ensures filled { frames_filled self.new.giving ≡ 0 }
        ensures begun { IsBegun self.new.giving }
    {
        self.taking.start();
        self.giving.start();
        self.incoming.clear();
        self.outgoing.clear();
    }

    /// Takes frame `n`, from 0, of the turn's multiframe of the connection's line, with the MFAS that is expected of
    /// it.
    pub fn take_frame<F: TakeFrame>(&mut self, n: u8, frame: &F, expected: u8)
        requires line { OnSink self.old.taking (λ sink. (n < slots_of sink.slots.kind) × (n ≡ sink.taken)) }
        ensures stands { OfOpenTurn self.old (λ at filled.
            PipeAt (and_frame (record { frame = F.bytes frame.now; expected = expected }) at) filled self.new) }
        ensures entry { (x : Connection) → IsPipeOf x self.old → IsPipeOf x self.new }
        ensures taken { frames_taken self.new.taking ≡ frames_taken self.old.taking + 1 }
        ensures giving { self.new.giving ≡ self.old.giving }
    {
        self.taking.take_frame(n, frame, expected);
    }

    /// Ends the turn of the connection's line: `whole` says that it has a multiframe, all of whose frames were taken.
    pub fn end_frames(&mut self, whole: bool)
        requires line { OnSink self.old.taking (λ sink. IsTrue whole → sink.taken ≡ slots_of sink.slots.kind) }
        ensures stands { OfLineTurn whole self.old (λ at filled. PipeAt (line_over at) filled self.new) }
        ensures entry { (x : Connection) → IsPipeOf x self.old → IsPipeOf x self.new }
        ensures taken { frames_taken self.new.taking ≡ 0 }
        ensures giving { self.new.giving ≡ self.old.giving }
    {
        self.taking.end_frames(whole, &mut self.incoming);
    }

    /// Takes from the connection's client what turn `turn` of the plan emits. The place is the same in every turn.
    pub fn take_client<P: Source>(&mut self, turn: u32, place: &mut InPlaceOf<P>)
        requires client { IsOfClient self.old.taking }
        requires turn { self.old.start ≤ turn }
        ensures took { (x : Connection) (first : InView) (read : List ℕ) (j : ℕ) → IsPipeOf x self.old
            → turn ≡ x.start + j
            → ClientInStands x first (in_view P.Source place.old) read j self.old.taking
            → ClientTook x first (in_view P.Source place.new) read j self.old self.new }

        // once no packet is left of the text, its place is asked nothing more
        ensures quiet { IsTextOver self.old.taking → place.new ≡ place.old }
        ensures entry { (x : Connection) → IsPipeOf x self.old → IsPipeOf x self.new }
        ensures giving { self.new.giving ≡ self.old.giving }
    {
        let count = pace_at(&self.paces, turn - self.start);
        self.taking.take_client(count, place, &mut self.incoming);
    }

    /// Fills the connection's own places in frame `n`, from 0, of the turn of its output line. Every other byte stays.
    pub fn fill_frame<F: FillFrame>(&mut self, n: u8, frame: &mut F)
        requires line { OnSource self.old.giving
            (λ source. (n < slots_of source.slots.kind) × (n ≡ source.filled) × IsSome source.said) }
        ensures put { OfOwnFrame n self.old (λ own at.
            WasPut own (got_by at.entry at.input (suc at.turn)) at.turn n (F.bytes frame.old) (F.bytes frame.new)) }
        ensures stands { OfFrame n self.old (λ at. PipeAt at (n + 1) self.new) }
        ensures kept { (port row column : ℕ) → 1 ≤ row → row ≤ ROWS → 1 ≤ column → column ≤ COLUMNS
            → OnSource self.old.giving (λ source. IsSourcePlace (tributary_of source.slots port) n row column → ⊥)
            → byte_at (F.bytes frame.new) row column ≡ byte_at (F.bytes frame.old) row column }
        ensures entry { (x : Connection) → IsPipeOf x self.old → IsPipeOf x self.new }
        ensures filled { frames_filled self.new.giving ≡ frames_filled self.old.giving + 1 }
        ensures begun { IsBegun self.new.giving }
        ensures taking { self.new.taking ≡ self.old.taking }
    {
        self.giving.fill_frame(n, frame);
    }

    /// Gives the connection's client what this turn brings it: each packet that is delivered, as a line of text.
    pub fn give_client<K: Sink>(&mut self, place: &mut OutPlaceOf<K>)
        requires client { IsToClient self.old.giving }
        ensures gave { (first : OutView) → OfItsTurn self.old (λ at filled.
            ClientOutStands at.entry at.input first (out_view K.Sink place.old) at.turn self.old.giving
            → ClientOutStands at.entry at.input first (out_view K.Sink place.new) (suc at.turn) self.new.giving) }
        ensures stands { OfItsTurn self.old (λ at filled. PipeAt at filled self.new) }
        ensures entry { (x : Connection) → IsPipeOf x self.old → IsPipeOf x self.new }
        ensures taking { self.new.taking ≡ self.old.taking }
    {
        self.giving.give_client(self.outgoing.bytes(), place);
    }

    /// Ends turn `turn` of the plan: a signal emits what the turn brings, and what is incoming is outgoing in the next.
    pub fn fence(&mut self, turn: u32)
        requires turn { self.old.start ≤ turn }
        ensures stands { OfDoneTurn turn self.old (λ at. PipeAt (next_turn at) 0 self.new) }
        ensures client { IsOfClient self.old.taking → self.new.taking ≡ self.old.taking }
        ensures receiver { IsToClient self.old.giving → self.new.giving ≡ self.old.giving }
        ensures entry { (x : Connection) → IsPipeOf x self.old → IsPipeOf x self.new }
        ensures taken { frames_taken self.new.taking ≡ frames_taken self.old.taking }
        ensures filled { frames_filled self.new.giving ≡ 0 }
        ensures begun { IsBegun self.new.giving }
    {
        let count = pace_at(&self.paces, turn - self.start);
        self.taking.fence(count, &mut self.incoming);
        mem::swap(&mut self.incoming, &mut self.outgoing);
        self.incoming.clear();
        self.giving.fence(&mut self.outgoing);
        reuse_buffer(
            &self.giving,
            &mut self.taking,
            &mut self.incoming,
            &mut self.outgoing,
        );
    }

    /// What the connection comes from is, after the turns that it took.
    pub fn from_state(&self) -> FromState
        ensures { OfItsTurn self.now (λ at filled. result ≡ state_in at.entry at.input (turns_taken at.turn at.ended)) }
    {
        self.taking.from_state()
    }

    /// Of the connection's client input: how many packets were begun, whether it is spent, and the number of its bad
    /// line, once that is seen.
    pub fn client_in(&self) -> (u64, bool, Option<u64>)
        requires client { IsOfClient self.now.taking }
        ensures { OfItsClient self.now.taking (λ x input n. result ≡ (
          saturated (packets_begun input.packets x.fcs (emitted_before x.pace n)),
          is_spent input x.fcs (emitted_before x.pace n),
          option_map saturated (bad_line input x.fcs (emitted_before x.pace n)),
        )) }
    {
        self.taking.client_in()
    }

    /// Of the connection's client output: how many whole frames were handed on, and how many packets delivered and
    /// counted.
    pub fn client_out(&self) -> (u64, u64)
        requires client { IsToClient self.now.giving }
        ensures { IsReceived self.now.giving result }
    {
        self.giving.client_out()
    }

    /// The number of the next frame that it takes of its line in the turn, from 0: none where it has taken all, or
    /// takes of no line.
    pub fn next_taken(&self) -> Option<u8>
        ensures { result ≡ next_taken self.now.taking }
    {
        self.taking.next_taken()
    }

    /// Whether the turn of its line may end so: with a multiframe only where all frames of it were taken.
    pub fn may_end(&self, whole: bool) -> bool
        ensures { result ≡ may_end whole self.now.taking }
    {
        self.taking.may_end(whole)
    }

    /// Whether it takes of an OTU2, one slot alone.
    pub fn takes_one_slot(&self) -> bool
        ensures { result ≡ takes_one_slot self.now.taking }
    {
        self.taking.takes_one_slot()
    }

    /// The number of the next frame of its line that it fills in the turn, from 0: none where it has filled all, or
    /// gives to no line.
    pub fn next_filled(&self) -> Option<u8>
        ensures { result ≡ next_filled self.now.giving }
    {
        self.giving.next_filled()
    }
}

// Where the pipe gives to a line, its next bytes go into the buffer that the source gave back, which it read last. So
// fewer buffers go round.
fn reuse_buffer(
    giving: &GivingPart,
    taking: &mut TakingPart,
    incoming: &mut Burst,
    outgoing: &mut Burst,
)
    requires room { (m : ℕ) × HasSlots m taking.old × (outgoing.old.room ≡ m * (GROUPS + 1)) }
    requires alike { incoming.old.room ≡ outgoing.old.room }
    requires empty { incoming.old.bytes ≡ [] }
    requires taken { (IsToClient giving.now → ⊥) → outgoing.old.bytes ≡ [] }
    ensures taking { taking.new ≡ taking.old }
    ensures incoming { incoming.new ≡ incoming.old }
    ensures outgoing { outgoing.new ≡ outgoing.old }
{
    if giving.gives_to_line() {
        mem::swap(incoming, outgoing);
        taking.swap_spare(incoming);
    }
}
