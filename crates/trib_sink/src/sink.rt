// The sink of a tributary.
ghost use Rattle.std.specs.Prelude.{◌≡◌, ◌+◌, ◌-◌, ◌*◌, ◌<◌, ◌≤◌, [], ◌∷◌, ◌++◌, IfOk, IsTrue, length, drop, slice_range, vec_len};
ghost use Rattle.maintenance_signals.specs.declared.signal.Signal.TheVariants.{Ais};
ghost use Rattle.maintenance_signals.specs.Stream.{signal_byte};
ghost use Rattle.otn_base.specs.LineSlots.{slots_of};
ghost use Rattle.otn_base.specs.declared.limits.TheConstants.{GROUPS};
ghost use Rattle.tributary_model.specs.Places.{tributary_of};
ghost use Rattle.tributary_model.specs.Stretches.{state_after};
ghost use Rattle.tributary_model.specs.Emission.{emission};
ghost use Rattle.tributary_model.specs.Machine.{state_of_standing};
ghost use Rattle.trib_sink.specs.Following.{most_of};
ghost use Rattle.trib_sink.specs.Pairs.{pair_after};
ghost use Rattle.trib_sink.specs.Steps.Pairs.{pair_of_standing};

use crate::arrivals::{message_so_far, note_msi};
use crate::follower::Follower;
use crate::turn::hear_turn;
use arrayvec::ArrayVec;
use msi_table::MsiWatch;
use odtu_columns::TakeFrame;
use otn_base::limits::MOST_SLOTS;
use otn_base::{Memory, Slots};
use std::alloc::Global;
use std::marker::Model;
use std::ops::Range;
use tributary_model::{SinkState, Standing};

/// The sink of one tributary of a line. Contracts say after which turns it stands: of which views they
/// were, since it was new or restarted, and which frames of the next turn it has taken.
#[derive(Drop)]
pub struct TribSink {
    slots: Slots,
    port: u8,
    follower: Follower,
    watches: [MsiWatch; MOST_SLOTS],
    taken: u8,
    message: [u8; 6],
    msi: ArrayVec<(u8, u8), MOST_SLOTS>,
}

impl Model for TribSink {
    ghost use Rattle.trib_sink.specs.Sink.{Sink, IsSink};

    ghost Value = { Sink };

    ghost view = { λ s. record { slots = s.slots; port = s.port; following = s.follower; watches = s.watches; taken = s.taken; message = s.message; msi = s.msi.items } };

    ghost invariant = { λ s. IsSink (record { slots = s.slots; port = s.port; following = s.follower; watches = s.watches; taken = s.taken; message = s.message; msi = s.msi.items }) };
}

impl TribSink {
    ghost use Rattle.trib_sink.specs.Sink.{AfterAnyTurns, StandsAfter, ended_view};

    /// A sink of these slots and this tributary port (1 to the number of the line's slots), before its
    /// first turn. Takes all memory that it will ever need, 30,466 bytes a slot; answers `Memory` where there
    /// is none.
    pub fn new(alloc: Global, slots: &Slots, port: u8) -> Result<TribSink, Memory>
        requires low { 1 ≤ port }
        requires high { port ≤ slots_of slots.now.kind }
        ensures stands { IfOk result (λ s. StandsAfter (tributary_of slots.now port) [] [] s) }
        ensures taken { IfOk result (λ s. s.taken ≡ 0) }
        ensures slots { IfOk result (λ s. s.slots ≡ slots.now) }
        ensures port { IfOk result (λ s. s.port ≡ port) }
    {
        let follower = Follower::new(alloc, slots.count() as usize)?;
        let slots = slots.clone()?;
        Ok(TribSink {
            slots,
            port,
            follower,
            watches: [MsiWatch::new(port); MOST_SLOTS],
            taken: 0,
            message: [0; 6],
            msi: ArrayVec::new(),
        })
    }

    /// How the sink stands after the turns that ended.
    pub fn state(&self) -> SinkState
        ensures { AfterAnyTurns self.now (λ own past frames. result ≡ state_after own past) }
    {
        state_of(self.follower.standing())
    }

    /// Cm and CnD of the last turn that ended, where the sink is Up after it: the pair of its message, or where that
    /// was damaged the pair of the turn before it.
    pub fn pair(&self) -> Option<(u16, u16)>
        ensures { AfterAnyTurns self.now (λ own past frames. result ≡ pair_after own past) }
    {
        pair_of(self.follower.standing())
    }

    /// Its slots.
    pub fn slots(&self) -> &Slots
        ensures { result.now ≡ self.now.slots }
    {
        &self.slots
    }

    /// How many frames of the turn it has taken.
    pub fn taken(&self) -> u8
        ensures { result ≡ self.now.taken }
    {
        self.taken
    }

    /// Begins anew, as a new sink of the same slots and port.
    pub fn restart(&mut self)
        ensures stands { StandsAfter (tributary_of self.old.slots self.old.port) [] [] self.new }
        ensures taken { self.new.taken ≡ 0 }
        ensures slots { self.new.slots ≡ self.old.slots }
        ensures port { self.new.port ≡ self.old.port }
    {
        self.follower.restart();
        let watches = [MsiWatch::new(self.port); MOST_SLOTS];
        self.watches = watches;
        self.msi.clear();
        self.taken = 0;
    }

    /// Takes frame `n` (from 0; a multiframe has as many as the line has slots) of a turn, of which `n`
    /// frames are taken, with the MFAS number that is expected of it.
    pub fn take_frame<F: TakeFrame>(&mut self, n: u8, frame: &F, expected: u8)
        requires number { n < slots_of self.old.slots.kind }
        requires taken { n ≡ self.old.taken }
        ensures stands { AfterAnyTurns self.old
            (λ own past frames. StandsAfter own past
            (frames ++ record { frame = F.bytes frame.now; expected = expected } ∷ []) self.new) }
        ensures taken { self.new.taken ≡ self.old.taken + 1 }
        ensures slots { self.new.slots ≡ self.old.slots }
        ensures port { self.new.port ≡ self.old.port }
    {
        self.follower.take_frame(frame, &self.slots);
        self.message = message_so_far(&self.slots, n, frame, self.message);
        note_msi(&self.slots, frame, expected, &mut self.msi);
        self.taken += 1;
    }

    /// Ends a turn: `whole` says that it has a multiframe, all of whose frames were taken. `into` has at its front the
    /// bytes that the turn emits, and the answer is how many they are: at most 15,232 groups and a part of one. What
    /// stands behind them in `into` stays. In a turn without a multiframe no byte that was taken counts.
    pub fn end_turn(&mut self, whole: bool, into: &mut [u8]) -> usize
        requires whole { IsTrue whole → self.old.taken ≡ slots_of self.old.slots.kind }
        requires room { length self.old.slots.list * (GROUPS + 1) ≤ length into.old }
        ensures stands { AfterAnyTurns self.old
            (λ own past frames. StandsAfter own (ended_view own whole frames ∷ past) [] self.new) }
        ensures bytes { AfterAnyTurns self.old
            (λ own past frames. into.new ≡ emission own (signal_byte Ais) past (ended_view own whole frames)
            ++ drop result into.old) }
        ensures count { AfterAnyTurns self.old
            (λ own past frames. result ≡ length (emission own (signal_byte Ais) past (ended_view own whole frames))) }
        ensures within { result ≤ length into.old }
        ensures most { result ≤ most_of (length self.old.slots.list) }
        ensures taken { self.new.taken ≡ 0 }
        ensures slots { self.new.slots ≡ self.old.slots }
        ensures port { self.new.port ≡ self.old.port }
    {
        self.pass_turn(whole);
        copy_front(self.follower.emitted(), into)
    }

    /// Ends a turn as `end_turn` does, without a copy: the bytes that the turn emits stand in what is `buffer`
    /// afterwards, from where to where the answer says. The sink keeps what was `buffer` before, of exactly 15,233
    /// bytes a slot, as its own buffers are.
    pub fn hand_over(&mut self, whole: bool, buffer: &mut Vec<u8>) -> Range<usize>
        requires whole { IsTrue whole → self.old.taken ≡ slots_of self.old.slots.kind }
        requires room { vec_len buffer.old ≡ length self.old.slots.list * (GROUPS + 1) }
        ensures stands { AfterAnyTurns self.old
            (λ own past frames. StandsAfter own (ended_view own whole frames ∷ past) [] self.new) }
        ensures bytes { AfterAnyTurns self.old
            (λ own past frames. slice_range buffer.new.items result.start result.end
            ≡ emission own (signal_byte Ais) past (ended_view own whole frames)) }
        ensures in_order { result.start ≤ result.end }
        ensures within { result.end ≤ vec_len buffer.new }
        ensures most { result.end - result.start ≤ most_of (length self.old.slots.list) }
        ensures room_stays { vec_len buffer.new ≡ vec_len buffer.old }
        ensures taken { self.new.taken ≡ 0 }
        ensures slots { self.new.slots ≡ self.old.slots }
        ensures port { self.new.port ≡ self.old.port }
    {
        self.pass_turn(whole);
        self.follower.hand_over(buffer)
    }

    /// Takes this buffer, of exactly 15,233 bytes a slot, for the next bytes of its tributary, and gives its own in
    /// exchange, where nothing stands in that. The bytes of either are of no account. So a caller may have the next
    /// bytes put where it read last, and fewer buffers go round.
    pub fn swap_spare(&mut self, buffer: &mut Vec<u8>)
        requires room { vec_len buffer.old ≡ length self.old.slots.list * (GROUPS + 1) }
        ensures same { self.new ≡ self.old }
        ensures room_stays { vec_len buffer.new ≡ vec_len buffer.old }
    {
        self.follower.swap_spare(buffer);
    }

    // Ends a turn; what it emits is kept until a frame is taken.
    fn pass_turn(&mut self, whole: bool)
        requires whole { IsTrue whole → self.old.taken ≡ slots_of self.old.slots.kind }
        ensures stands { AfterAnyTurns self.old
            (λ own past frames. StandsAfter own (ended_view own whole frames ∷ past) [] self.new) }
        ensures bytes { AfterAnyTurns self.old
            (λ own past frames. self.new.following.extraction.emitted
            ≡ emission own (signal_byte Ais) past (ended_view own whole frames)) }
        ensures most { length self.new.following.extraction.emitted ≤ most_of (length self.old.slots.list) }
        ensures fresh { self.new.following.extraction.fresh ≡ [] }
        ensures taken { self.new.taken ≡ 0 }
        ensures slots { self.new.slots ≡ self.old.slots }
        ensures port { self.new.port ≡ self.old.port }
    {
        let heard = hear_turn(
            whole,
            &self.slots,
            self.message,
            self.msi.as_slice(),
            &mut self.watches,
            &mut self.follower,
        );
        self.follower.pass(heard);
        self.msi.clear();
        self.taken = 0;
    }
}

// Writes these bytes to the front of a slice, and says how many they are.
fn copy_front(bytes: &[u8], into: &mut [u8]) -> usize
    requires { length bytes.now ≤ length into.old }
    ensures count { result ≡ length bytes.now }
    ensures bytes { into.new ≡ bytes.now ++ drop result into.old }
{
    let count = bytes.len();
    into[..count].copy_from_slice(bytes);
    count
}

// How a sink stands, as a caller sees it.
fn state_of(standing: Standing) -> SinkState
    ensures { result ≡ state_of_standing standing }
{
    match standing {
        Standing::Waiting(_) => SinkState::Waiting,
        Standing::Down => SinkState::Down,
        Standing::Up(_) => SinkState::Up,
    }
}

// The pair of numbers of the last turn, where the sink is Up.
fn pair_of(standing: Standing) -> Option<(u16, u16)>
    ensures { result ≡ pair_of_standing standing }
{
    match standing {
        Standing::Up(said) => Some((said.cm, said.cnd)),
        _ => None,
    }
}
