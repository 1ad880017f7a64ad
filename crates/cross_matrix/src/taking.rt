// The part of a pipe that takes from the connection's input.
ghost use Rattle.std.specs.Prelude.{◌≡◌, ◌<◌, ◌≤◌, ◌+◌, ◌*◌, ◌&&◌, ◌==◌, if◌then◌else◌, ℕ, true, false, List, [], Option, IsTrue, length, take, ◌≢◌, nat_lt, option_map};
ghost use Rattle.maintenance_signals.specs.Emitted.{HasEmitted};
ghost use Rattle.maintenance_signals.specs.Stream.{signal_bytes};
ghost use Rattle.maintenance_signals.specs.declared.signal.Signal.{Signal};
ghost use Rattle.odu_client.specs.Framing.{ClientStands, Fills};
ghost use Rattle.packet_text.specs.LinesStand.{lines_view};
ghost use Rattle.odu_client.specs.ClientInput.{packets_begun, is_spent, bad_line, emitted_before, pace_of};
ghost use Rattle.otn_base.specs.LineSlots.{slots_of};
ghost use Rattle.otn_base.specs.declared.limits.TheConstants.{GROUPS, OTU2_SLOTS};
ghost use Rattle.port_base.specs.InPlace.{in_view};
ghost use Rattle.port_base.specs.Views.{InView};
ghost use Rattle.otn_base.specs.Counts.{saturated};
ghost use Rattle.plan_file.specs.declared.connection.Connection.{Connection};
ghost use Rattle.plan_file.specs.declared.connection.FromEnd.{FromEnd};
ghost use Rattle.plan_file.specs.declared.connection.FromEnd.TheVariants as from_end;
ghost use Rattle.device_model.specs.Through.{OwnInput, emits_by, state_by, sink_state};
ghost use Rattle.cross_matrix.specs.InTurn.{some_if, next_taken, may_end, takes_one_slot};
ghost use Rattle.cross_matrix.specs.Parts.{OnSink, IsOfClient, IsTextOver, TakesFrom, HasSlots, IsInputOf, frames_taken, turns_taken, and_frame, line_over, next_turn, TakingStands, TextStands, ClientInStands, OfItsClient};
ghost use Rattle.cross_matrix.specs.Steps.Parts.{TakesAt, OfItsPart, OfOpenPart, OfLinePart, OfDonePart, TextTook};

use crate::FromState;
use maintenance_signals::SignalBytes;
use odtu_columns::TakeFrame;
use odu_client::ClientFramer;
use otn_base::{Burst, Trace};
use packet_text::{Line, PacketLines};
use port_base::{InPlaceOf, Source};
use trib_sink::TribSink;
use tributary_model::SinkState;

/// A client's text, and the frames that are made of it.
#[derive(Drop)]
pub(crate) struct ClientText {
    pub(crate) framer: ClientFramer,
    pub(crate) lines: PacketLines,
    pub(crate) trace: Trace,
    pub(crate) fcs: bool,
}

/// What a pipe takes from: a tributary of a line, a client, or a signal.
#[derive(Drop)]
pub(crate) enum TakingPart {
    Line(TribSink),
    Client(ClientText),
    Signal(SignalBytes),
}

impl TakingPart {
    /// Begins anew, as for another run of the connection.
    pub(crate) fn start(&mut self)
        ensures stands { (from : FromEnd) (x : Connection) (input : OwnInput) → TakesFrom from x self.old
            → IsInputOf from input → TakingStands from x input 0 [] false self.new }
        ensures text { (x : Connection) (n : ℕ) (first : InView) → TakesFrom (from_end.Client n) x self.old
            → ClientInStands x first first [] 0 self.new }
        ensures entry { (from : FromEnd) (x : Connection) → TakesFrom from x self.old → TakesFrom from x self.new }
        ensures taken { frames_taken self.new ≡ 0 }
        ensures slots { (m : ℕ) → HasSlots m self.old → HasSlots m self.new }
    {
        match self {
            TakingPart::Line(sink) => sink.restart(),
            TakingPart::Client(client) => client.start(),
            TakingPart::Signal(stream) => stream.restart(),
        }
    }

    /// Takes frame `n` of the turn of the connection's line.
    pub(crate) fn take_frame<F: TakeFrame>(&mut self, n: u8, frame: &F, expected: u8)
        requires line { OnSink self.old (λ sink. (n < slots_of sink.slots.kind) × (n ≡ sink.taken)) }
        ensures stands { OfOpenPart self.old (λ from at.
            TakesAt from (and_frame (record { frame = F.bytes frame.now; expected = expected }) at) self.new) }
        ensures entry { (from : FromEnd) (x : Connection) → TakesFrom from x self.old → TakesFrom from x self.new }
        ensures taken { frames_taken self.new ≡ frames_taken self.old + 1 }
        ensures slots { (m : ℕ) → HasSlots m self.old → HasSlots m self.new }
    {
        match self {
            TakingPart::Line(sink) => sink.take_frame(n, frame, expected),
            TakingPart::Client(_) => {}
            TakingPart::Signal(_) => {}
        }
    }

    /// Ends a turn of the connection's line: what its sink emits is incoming, in a buffer that it gives in exchange.
    pub(crate) fn end_frames(&mut self, whole: bool, incoming: &mut Burst)
        requires line { OnSink self.old (λ sink. IsTrue whole → sink.taken ≡ slots_of sink.slots.kind) }
        requires room { OnSink self.old (λ sink. incoming.old.room ≡ length sink.slots.list * (GROUPS + 1)) }
        ensures stands { OfLinePart whole self.old (λ from at. TakesAt from (line_over at) self.new) }
        ensures bytes { OfLinePart whole self.old
            (λ from at. incoming.new.bytes ≡ emits_by from at.entry at.input at.turn) }
        ensures entry { (from : FromEnd) (x : Connection) → TakesFrom from x self.old → TakesFrom from x self.new }
        ensures taken { frames_taken self.new ≡ 0 }
        ensures slots { (m : ℕ) → HasSlots m self.old → HasSlots m self.new }
        ensures room_stays { incoming.new.room ≡ incoming.old.room }
    {
        match self {
            TakingPart::Line(sink) => {
                let (mut buffer, _) = incoming.hand_out();
                let emitted = sink.hand_over(whole, &mut buffer);
                incoming.exchange(&mut buffer, emitted);
            }
            TakingPart::Client(_) => {}
            TakingPart::Signal(_) => {}
        }
    }

    /// Gives a line's sink the buffer of `incoming`, in which no bytes are, for the next bytes of its tributary, and
    /// takes another one for it.
    pub(crate) fn swap_spare(&mut self, incoming: &mut Burst)
        requires room { (m : ℕ) × HasSlots m self.old × (incoming.old.room ≡ m * (GROUPS + 1)) }
        requires empty { incoming.old.bytes ≡ [] }
        ensures same { self.new ≡ self.old }
        ensures incoming { incoming.new ≡ incoming.old }
    {
        match self {
            TakingPart::Line(sink) => {
                let (mut buffer, _) = incoming.hand_out();
                sink.swap_spare(&mut buffer);
                incoming.exchange(&mut buffer, 0..0);
            }
            TakingPart::Client(_) => {}
            TakingPart::Signal(_) => {}
        }
    }

    /// Takes so many bytes of a client's stream.
    pub(crate) fn take_client<P: Source>(
        &mut self,
        count: usize,
        place: &mut InPlaceOf<P>,
        incoming: &mut Burst,
    )
        requires room { count ≤ incoming.old.room }
        ensures took { (x : Connection) (first : InView) (read : List ℕ) (n : ℕ) → count ≡ pace_of x.pace n
            → ClientInStands x first (in_view P.Source place.old) read n self.old
            → TextTook x first (in_view P.Source place.new) read n self.old self.new incoming.new.bytes }
        ensures quiet { IsTextOver self.old → place.new ≡ place.old }
        ensures entry { (from : FromEnd) (x : Connection) → TakesFrom from x self.old → TakesFrom from x self.new }
        ensures slots { (m : ℕ) → HasSlots m self.old → HasSlots m self.new }
        ensures room_stays { incoming.new.room ≡ incoming.old.room }
    {
        match self {
            TakingPart::Client(client) => {
                let (mut buffer, _) = incoming.hand_out();
                fill_front(
                    &mut client.framer,
                    &mut client.lines,
                    place,
                    &mut buffer,
                    count,
                );
                incoming.exchange(&mut buffer, 0..count);
            }
            TakingPart::Line(_) => {}
            TakingPart::Signal(_) => {}
        }
    }

    /// Ends a turn: a signal emits so many bytes; a line and a client have had their part of it.
    pub(crate) fn fence(&mut self, count: usize, incoming: &mut Burst)
        requires room { count ≤ incoming.old.room }
        ensures stands { OfDonePart count self.old (λ from at. TakesAt from (next_turn at) self.new) }
        ensures bytes { OfDonePart count self.old (λ from at.
            (at.ended ≡ true → incoming.old.bytes ≡ emits_by from at.entry at.input at.turn)
            → incoming.new.bytes ≡ emits_by from at.entry at.input at.turn) }
        ensures client { IsOfClient self.old → self.new ≡ self.old }
        ensures entry { (from : FromEnd) (x : Connection) → TakesFrom from x self.old → TakesFrom from x self.new }
        ensures taken { frames_taken self.new ≡ frames_taken self.old }
        ensures slots { (m : ℕ) → HasSlots m self.old → HasSlots m self.new }
        ensures room_stays { incoming.new.room ≡ incoming.old.room }
    {
        match self {
            TakingPart::Signal(stream) => {
                let (mut buffer, _) = incoming.hand_out();
                next_front(stream, &mut buffer, count);
                incoming.exchange(&mut buffer, 0..count);
            }
            TakingPart::Line(_) => {}
            TakingPart::Client(_) => {}
        }
    }

    /// What the part takes from is.
    pub(crate) fn from_state(&self) -> FromState
        ensures { OfItsPart self.now
            (λ from at. result ≡ state_by from at.entry at.input (turns_taken at.turn at.ended)) }
    {
        match self {
            TakingPart::Line(sink) => of_sink(sink.state()),
            TakingPart::Client(_) => FromState::Client,
            TakingPart::Signal(_) => FromState::Signal,
        }
    }

    /// A client's packets begun, whether it is spent, and its bad line: none where the part takes from no client.
    pub(crate) fn client_in(&self) -> (u64, bool, Option<u64>)
        ensures { OfItsClient self.now (λ x input n. result ≡ (
          saturated (packets_begun input.packets x.fcs (emitted_before x.pace n)),
          is_spent input x.fcs (emitted_before x.pace n),
          option_map saturated (bad_line input x.fcs (emitted_before x.pace n)),
        )) }
    {
        match self {
            TakingPart::Client(client) => (
                client.framer.packets(),
                client.framer.spent(),
                client.framer.bad(),
            ),
            TakingPart::Line(_) => (0, false, None),
            TakingPart::Signal(_) => (0, false, None),
        }
    }

    /// The number of the next frame that it takes of its line in the turn, where there is one.
    pub(crate) fn next_taken(&self) -> Option<u8>
        ensures { result ≡ next_taken self.now }
    {
        match self {
            TakingPart::Line(sink) => next_of_sink(sink),
            TakingPart::Client(_) => None,
            TakingPart::Signal(_) => None,
        }
    }

    /// Whether it takes of a line, whose turn may end so.
    pub(crate) fn may_end(&self, whole: bool) -> bool
        ensures { result ≡ may_end whole self.now }
    {
        match self {
            TakingPart::Line(sink) => sink_may_end(sink, whole),
            TakingPart::Client(_) => false,
            TakingPart::Signal(_) => false,
        }
    }

    /// Whether it takes of an OTU2, one slot alone.
    pub(crate) fn takes_one_slot(&self) -> bool
        ensures { result ≡ takes_one_slot self.now }
    {
        match self {
            TakingPart::Line(sink) => sink_takes_one_slot(sink),
            TakingPart::Client(_) => false,
            TakingPart::Signal(_) => false,
        }
    }
}

impl ClientText {
    // Begins anew.
    fn start(&mut self)
        ensures stands { (x : Connection) (first : InView) → self.old.trace ≡ x.trace → self.old.fcs ≡ x.fcs
            → TextStands x first first [] 0 self.new }
        ensures trace { self.new.trace ≡ self.old.trace }
        ensures fcs { self.new.fcs ≡ self.old.fcs }
    {
        self.framer.restart(&self.trace, self.fcs);
        self.lines.restart();
    }
}

// The next bytes of a client's stream, so many, to the front of a slice.
fn fill_front<P: Source>(
    framer: &mut ClientFramer,
    lines: &mut PacketLines,
    place: &mut InPlaceOf<P>,
    into: &mut [u8],
    count: usize,
)
    requires { count ≤ length into.old }
    ensures size { length into.new ≡ length into.old }
    ensures fills { (first : InView) (read emitted : List ℕ)
        → ClientStands first (in_view P.Source place.old) read emitted (lines_view lines.old) framer.old
        → Fills first (in_view P.Source place.new) read emitted (take count into.new) (lines_view lines.old)
        (lines_view lines.new) framer.old framer.new }
    ensures over { framer.old.stream.answer ≢ Line.Packet → lines.new ≡ lines.old }
    ensures quiet { framer.old.stream.answer ≢ Line.Packet → place.new ≡ place.old }
{
    framer.fill(lines, place, &mut into[..count]);
}

// The next bytes of a signal's stream, so many, to the front of a slice.
fn next_front(stream: &mut SignalBytes, into: &mut [u8], count: usize)
    requires { count ≤ length into.old }
    ensures size { length into.new ≡ length into.old }
    ensures bytes { (signal : Signal) (emitted : ℕ) → HasEmitted signal emitted stream.old
        → take count into.new ≡ signal_bytes signal emitted count }
    ensures emitted { (signal : Signal) (emitted : ℕ) → HasEmitted signal emitted stream.old
        → HasEmitted signal (emitted + count) stream.new }
{
    stream.next(&mut into[..count]);
}

fn next_of_sink(sink: &TribSink) -> Option<u8>
    ensures { result ≡ some_if (nat_lt sink.now.taken (slots_of sink.now.slots.kind)) sink.now.taken }
{
    let n = sink.taken();
    if n < sink.slots().kind().slots() {
        Some(n)
    } else {
        None
    }
}

fn sink_may_end(sink: &TribSink, whole: bool) -> bool
    ensures { result ≡ (if whole then sink.now.taken == slots_of sink.now.slots.kind else true) }
{
    !whole || sink.taken() == sink.slots().kind().slots()
}

fn sink_takes_one_slot(sink: &TribSink) -> bool
    ensures { result ≡ (slots_of sink.now.slots.kind == OTU2_SLOTS && length sink.now.slots.list == 1) }
{
    sink.slots().is_otu2_slot()
}

fn of_sink(state: SinkState) -> FromState
    ensures { result ≡ sink_state state }
{
    match state {
        SinkState::Waiting => FromState::Waiting,
        SinkState::Up => FromState::Up,
        SinkState::Down => FromState::Down,
    }
}

/// The pace of a turn of the connection: the list is gone round.
pub(crate) fn pace_at(paces: &[u32], turn: u32) -> usize
    ensures { result ≡ pace_of paces.now turn }
{
    if paces.is_empty() {
        return 0;
    }
    paces[turn as usize % paces.len()] as usize
}
