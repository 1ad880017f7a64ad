// The part of a pipe that gives to the connection's output.
ghost use Rattle.std.specs.Prelude.{◌≡◌, ◌<◌, ◌≤◌, ◌+◌, ◌-◌, ◌*◌, ◌/◌, ◌&&◌, ℕ, true, false, List, [], ◌∷◌, ◌++◌, IsSome, is_some, length, nat_lt};
ghost use Rattle.otn_base.specs.LineSlots.{slots_of};
ghost use Rattle.otn_base.specs.declared.limits.TheConstants.{GROUPS, LINE_COLUMNS as COLUMNS, ROWS};
ghost use Rattle.port_base.specs.OutPlace.{out_view};
ghost use Rattle.port_base.specs.Views.{OutView};
ghost use Rattle.plan_file.specs.declared.connection.Connection.{Connection};
ghost use Rattle.plan_file.specs.declared.connection.ToEnd.{ToEnd};
ghost use Rattle.trib_source.specs.Source.{StandsAfter};
ghost use Rattle.tributary_model.specs.Carries.{sent};
ghost use Rattle.tributary_model.specs.Places.{Tributary, tributary_of, byte_at};
ghost use Rattle.tributary_model.specs.Puts.{WasPut, IsSourcePlace, lengths_of};
ghost use Rattle.device_model.specs.Through.{OwnInput};
ghost use Rattle.cross_matrix.specs.InTurn.{some_if, next_filled};
ghost use Rattle.cross_matrix.specs.Receiving.{ReceiverStands};
ghost use Rattle.cross_matrix.specs.Parts.{OnSource, OnReceiver, IsToClient, GivesTo, GivesSlots, GivingStands, frames_filled, IsBegun, IsReceived};

use crate::receiver::Receiver;
use odtu_columns::FillFrame;
use otn_base::Burst;
use port_base::{OutPlaceOf, Sink};
use trib_source::TribSource;

/// What a pipe gives to: a tributary of a line, or a client.
#[derive(Drop)]
pub(crate) enum GivingPart {
    Line(TribSource),
    Client(Receiver),
}

impl GivingPart {
    /// Begins anew, as for another run of the connection: nothing is given in its first turn.
    pub(crate) fn start(&mut self)
        ensures stands { (to : ToEnd) (x : Connection) (input : OwnInput) → GivesTo to self.old
            → GivingStands to x input 0 0 self.new }
        ensures text { (first : OutView) → IsToClient self.old → OnReceiver self.new (ReceiverStands first first []) }
        ensures entry { (to : ToEnd) → GivesTo to self.old → GivesTo to self.new }
        ensures filled { frames_filled self.new ≡ 0 }
        ensures begun { IsBegun self.new }
        ensures slots { (m : ℕ) → GivesSlots m self.old → GivesSlots m self.new }
    {
        match self {
            GivingPart::Line(source) => start_line(source),
            GivingPart::Client(receiver) => receiver.restart(),
        }
    }

    /// Fills frame `n` of the turn of the output line.
    pub(crate) fn fill_frame<F: FillFrame>(&mut self, n: u8, frame: &mut F)
        requires line { OnSource self.old (λ source. (n < slots_of source.slots.kind) × (n ≡ source.filled)
            × IsSome source.said) }
        ensures put { (own : Tributary) (turns : List (List ℕ)) → OnSource self.old (StandsAfter own turns n)
            → WasPut own turns (length turns - 1) n (F.bytes frame.old) (F.bytes frame.new) }
        ensures stands { (own : Tributary) (turns : List (List ℕ)) → OnSource self.old (StandsAfter own turns n)
            → OnSource self.new (StandsAfter own turns (n + 1)) }
        ensures kept { (port row column : ℕ) → 1 ≤ row → row ≤ ROWS → 1 ≤ column → column ≤ COLUMNS
            → OnSource self.old (λ source. IsSourcePlace (tributary_of source.slots port) n row column → ⊥)
            → byte_at (F.bytes frame.new) row column ≡ byte_at (F.bytes frame.old) row column }
        ensures entry { (to : ToEnd) → GivesTo to self.old → GivesTo to self.new }
        ensures filled { frames_filled self.new ≡ frames_filled self.old + 1 }
        ensures begun { IsBegun self.new }
        ensures slots { (m : ℕ) → GivesSlots m self.old → GivesSlots m self.new }
    {
        match self {
            GivingPart::Line(source) => source.fill(n, frame),
            GivingPart::Client(_) => {}
        }
    }

    /// The bytes arrive at the client, if the part gives to one.
    pub(crate) fn give_client<K: Sink>(&mut self, bytes: &[u8], place: &mut OutPlaceOf<K>)
        ensures gave { (first : OutView) (arrived : List ℕ)
            → OnReceiver self.old (ReceiverStands first (out_view K.Sink place.old) arrived)
            → OnReceiver self.new (ReceiverStands first (out_view K.Sink place.new) (arrived ++ bytes.now)) }
        ensures client { IsToClient self.old → IsToClient self.new }
        ensures slots { (m : ℕ) → GivesSlots m self.old → GivesSlots m self.new }
    {
        match self {
            GivingPart::Client(receiver) => receiver.take(bytes, place),
            GivingPart::Line(_) => {}
        }
    }

    /// Begins a turn of the output line, which takes the bytes. They complete no more groups than a multiframe has: no
    /// sink's emission does, and no pace. For a client they are kept.
    pub(crate) fn fence(&mut self, outgoing: &mut Burst)
        requires room { (m : ℕ) × GivesSlots m self.old × (outgoing.old.room ≡ m * (GROUPS + 1)) }
        ensures stands { (own : Tributary) (turns : List (List ℕ)) (filled : ℕ)
            → OnSource self.old (StandsAfter own turns filled)
            → (sent (lengths_of turns) (length turns) + length outgoing.old.bytes) / length own.slots ≤ sent
            (lengths_of turns) (length turns) / length own.slots + GROUPS
            → OnSource self.new (StandsAfter own (turns ++ outgoing.old.bytes ∷ []) 0) }
        ensures receiver { IsToClient self.old → self.new ≡ self.old }
        ensures kept { IsToClient self.new → outgoing.new ≡ outgoing.old }
        ensures taken { (IsToClient self.new → ⊥) → outgoing.new.bytes ≡ [] }
        ensures entry { (to : ToEnd) → GivesTo to self.old → GivesTo to self.new }
        ensures filled { frames_filled self.new ≡ 0 }
        ensures begun { IsBegun self.new }
        ensures slots { (m : ℕ) → GivesSlots m self.old → GivesSlots m self.new }
        ensures room_stays { outgoing.new.room ≡ outgoing.old.room }
    {
        match self {
            GivingPart::Line(source) => {
                let (mut buffer, bytes) = outgoing.hand_out();
                let count = (bytes.end - bytes.start).min(source.room());
                source.take_over(&mut buffer, bytes.start..bytes.start + count);
                outgoing.exchange(&mut buffer, 0..0);
            }
            GivingPart::Client(_) => {}
        }
    }

    /// Whether it gives to a line.
    pub(crate) fn gives_to_line(&self) -> bool
        ensures yes { result ≡ true → IsToClient self.now → ⊥ }
        ensures other { result ≡ false → IsToClient self.now }
    {
        match self {
            GivingPart::Line(_) => true,
            GivingPart::Client(_) => false,
        }
    }

    /// A client's whole frames and packets: none where the part gives to no client.
    pub(crate) fn client_out(&self) -> (u64, u64)
        ensures { IsToClient self.now → IsReceived self.now result }
    {
        match self {
            GivingPart::Client(receiver) => (receiver.frames(), receiver.packets()),
            GivingPart::Line(_) => (0, 0),
        }
    }

    /// The number of the next frame of its line that it fills in the turn, where there is one.
    pub(crate) fn next_filled(&self) -> Option<u8>
        ensures { result ≡ next_filled self.now }
    {
        match self {
            GivingPart::Line(source) => next_of_source(source),
            GivingPart::Client(_) => None,
        }
    }
}

fn next_of_source(source: &TribSource) -> Option<u8>
    ensures { result ≡ some_if (is_some source.now.said && nat_lt source.now.filled (slots_of source.now.slots.kind))
        source.now.filled }
{
    let n = source.filled();
    if source.has_begun() && n < source.slots().kind().slots() {
        Some(n)
    } else {
        None
    }
}

// Its first turn takes nothing.
fn start_line(source: &mut TribSource)
    ensures stands { (port : ℕ) → StandsAfter (tributary_of source.old.slots port) ([] ∷ []) 0 source.new }
    ensures begun { IsSome source.new.said }
    ensures filled { source.new.filled ≡ 0 }
    ensures slots { source.new.slots ≡ source.old.slots }
{
    source.restart();
    source.begin_turn(&[]);
}
