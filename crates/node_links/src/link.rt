// A connection of a node: what the plan says of it, and its pipe.
ghost use Rattle.std.specs.Prelude.{◌≡◌, ◌<◌, ◌+◌, ◌==◌, ◌^◌, ℕ, true, false, None, Some, IfOk, length, slice_get, get_or, is_some, option_map};
ghost use Rattle.otn_base.specs.Counts.{saturated};
ghost use Rattle.otn_base.specs.declared.kind.PortName.TheVariants.{LineIn as line-in, LineOut as line-out, ClientIn as client-in, ClientOut as client-out};
ghost use Rattle.port_base.specs.InPlace.{in_view};
ghost use Rattle.port_base.specs.OutPlace.{out_view};
ghost use Rattle.odu_client.specs.ClientInput.{bad_line, is_spent, packets_begun};
ghost use Rattle.plan_file.specs.Answer.{fault_in};
ghost use Rattle.plan_file.specs.declared.connection.Connection.{Connection};
ghost use Rattle.device_model.specs.Through.{state_in};
ghost use Rattle.cross_matrix.specs.Pipes.{IsPipeOf};

use crate::entry::copy_of;
use cross_matrix::Pipe;
use device_model::{FromState, accepted_plans};
use odtu_columns::{FillFrame, TakeFrame};
use otn_base::{Memory, PortName};
use plan_file::{Connection, FromEnd, Plan};
use port_base::{InPlaceOf, OutPlaceOf, Sink, Source};
use std::alloc::Global;
use turn_pieces::touches;

/// A connection of a node. Its pipe is the one of its entry: so it makes those calls of the pipe that belong to the
/// ends of the entry, and tests no more than its ports and turns.
#[derive(Drop)]
pub struct Link {
    /// What the plan says of it.
    pub entry: Connection,
    /// What carries its bytes.
    pub pipe: Pipe,
    pub ghost of_entry: { ∥ IsPipeOf entry pipe ∥₁ },
}

impl Link {
    ghost use Rattle.node_links.specs.Steps.LineFrames.{PutsOwn};
    ghost use Rattle.node_links.specs.Links.{IsLinkOf, SameEntry, OfItsClient, OfItsTurns, is_later, is_on, was_on, joins, takes_part};
    ghost use Rattle.node_links.specs.Moves.{TookFrame, GaveFrame, Fences};
    ghost use Rattle.node_links.specs.Steps.LinkMoves.{TookText, GaveText, EndsFrames};
    ghost use Rattle.node_links.specs.LinkEnds.{Starts, whole_for};
    ghost use Rattle.node_links.specs.Retiring.{ends_here};

    /// The link of entry `i`, from 0, of an accepted plan, which is to be started. Takes all memory that it will ever
    /// need; answers `Memory` where there is none.
    pub fn new(alloc: Global, plan: &Plan, i: u32) -> Result<Link, Memory>
        requires accepted { fault_in plan.now ≡ None }
        requires entry { i < length plan.now.connections }
        ensures { (x : Connection) → slice_get plan.now.connections i ≡ Some x → IfOk result (IsLinkOf x) }
    {
        accepted_plans();
        let pipe = Pipe::new(alloc, plan, i)?;
        let entry = copy_of(alloc, &plan.connections.as_slice()[i as usize])?;
        Ok(Link { entry, pipe })
    }

    /// Whether it is active in turn past + 1.
    pub(crate) fn is_on(&self, past: u32) -> bool
        ensures on { result ≡ is_on past self.now }
        ensures fits { result ≡ true → past + 1 < 2 ^ 32 }
    {
        self.entry.start.saturating_sub(1) <= past && past < self.entry.stop
    }

    /// Whether it comes from the port or goes to it, active or not.
    pub fn joins(&self, name: PortName) -> bool
        ensures { result ≡ joins name self.now }
    {
        touches(name, &self.entry)
    }

    /// Whether it is active in turn past + 1, and comes from the port or goes to it.
    pub(crate) fn takes_part(&self, name: PortName, past: u32) -> bool
        ensures { result ≡ takes_part past name self.now }
    {
        self.is_on(past) && self.joins(name)
    }

    /// Takes a frame of line input `a` with the MFAS that is expected of it, if it takes from the line in turn past +
    /// 1.
    pub(crate) fn take_frame<F: TakeFrame>(&mut self, a: u8, past: u32, frame: &F, expected: u8)
        ensures { TookFrame (takes_part past (line-in a) self.old)
            (record { frame = F.bytes frame.now; expected = expected }) self.old self.new }
    {
        if !self.takes_part(PortName::LineIn(a), past) {
            return;
        }
        if let Some(n) = self.pipe.next_taken() {
            self.pipe.take_frame(n, frame, expected);
        }
    }

    /// Fills its own places in a frame of line output `b`, if it gives to the line in turn past + 1.
    pub(crate) fn fill_frame<F: FillFrame>(&mut self, b: u8, past: u32, frame: &mut F)
        ensures gave { (n : ℕ) → GaveFrame (takes_part past (line-out b) self.old) n self.old self.new }
        ensures puts { PutsOwn (takes_part past (line-out b) self.old) self.old (F.bytes frame.old)
            (F.bytes frame.new) }
    {
        if !self.takes_part(PortName::LineOut(b), past) {
            return;
        }
        if let Some(n) = self.pipe.next_filled() {
            self.pipe.fill_frame(n, frame);
        }
    }

    /// Takes from its client what turn past + 1, in which it is active, brings.
    pub(crate) fn take_client<P: Source>(&mut self, past: u32, place: &mut InPlaceOf<P>)
        requires on { is_on past self.old ≡ true }
        requires client { (n : ℕ) × (joins (client-in n) self.old ≡ true) }
        ensures { TookText past self.old (in_view P.Source place.old) self.new (in_view P.Source place.new) }
    {
        prove!(self.is_on(past));
        self.pipe.take_client(past + 1, place);
    }

    /// Gives its client what turn past + 1 brings it.
    pub(crate) fn give_client<K: Sink>(&mut self, place: &mut OutPlaceOf<K>)
        requires client { (n : ℕ) × (joins (client-out n) self.old ≡ true) }
        ensures { GaveText self.old (out_view K.Sink place.old) self.new (out_view K.Sink place.new) }
    {
        self.pipe.give_client(place);
    }

    /// Ends turn past + 1: `wholes` says of each line input whether it has a multiframe in it.
    pub(crate) fn fence(&mut self, past: u32, wholes: &[bool])
        ensures { Fences past (whole_for self.old.entry.from wholes.now) self.old self.new }
    {
        if self.is_on(past) {
            self.end_frames(wholes);
            self.pipe.fence(past + 1);
        }
    }

    // The turn of its line ends, where it comes from one.
    fn end_frames(&mut self, wholes: &[bool])
        ensures same { SameEntry self.old self.new }
        ensures ends { EndsFrames self.old.entry.from (whole_for self.old.entry.from wholes.now) self.old.pipe
            self.new.pipe }
    {
        let a = match &self.entry.from {
            FromEnd::Line(a, ..) => *a,
            FromEnd::Client(_) => return,
            FromEnd::Signal(_) => return,
        };
        let whole = is_whole(a, wholes);
        if self.pipe.may_end(whole) {
            self.pipe.end_frames(whole);
        }
    }

    /// The numbers of its client input so far, in turn past + 1: none before its first turn.
    pub fn client_in(&self, past: u32) -> (u64, bool, Option<u64>)
        requires client { (n : ℕ) × (joins (client-in n) self.now ≡ true) }
        ensures later { is_later past self.now ≡ true → result ≡ (0, false, None) }
        ensures started { is_later past self.now ≡ false → OfItsClient self.now (λ x input emitted. result ≡ (
          saturated (packets_begun input.packets x.fcs emitted),
          is_spent input x.fcs emitted,
          option_map saturated (bad_line input x.fcs emitted),
        )) }
    {
        if self.is_later(past) {
            (0, false, None)
        } else {
            self.pipe.client_in()
        }
    }

    // Whether its first turn comes after turn past + 1.
    fn is_later(&self, past: u32) -> bool
        ensures { result ≡ is_later past self.now }
    {
        past < self.entry.start && 1 < self.entry.start - past
    }

    /// What it comes from is after the last turn that is done, if it was active in that.
    pub fn last_state(&self, past: u32) -> Option<FromState>
        ensures active { is_some result ≡ was_on past self.now }
        ensures state { was_on past self.now ≡ true
            → OfItsTurns self.now (λ x input turns. result ≡ Some (state_in x input turns)) }
    {
        if self.was_on(past) {
            Some(self.pipe.from_state())
        } else {
            None
        }
    }

    // Whether it was active in the last turn that is done.
    fn was_on(&self, past: u32) -> bool
        ensures { result ≡ was_on past self.now }
    {
        1 <= past && self.entry.start <= past && past <= self.entry.stop
    }

    /// Begins, if its first turn is turn past + 1.
    pub fn start_in(&mut self, past: u32)
        ensures { Starts past self.old self.new }
    {
        if self.starts_in(past) {
            self.pipe.start();
        }
    }

    // Whether its first turn is turn past + 1.
    fn starts_in(&self, past: u32) -> bool
        ensures { result ≡ (self.now.entry.start == past + 1) }
    {
        past < self.entry.start && self.entry.start - past == 1
    }

    /// Whether it stops in turn past + 1 and retires.
    pub(crate) fn ends_here(&self, past: u32) -> bool
        ensures { result ≡ ends_here past self.now }
    {
        self.entry.retire && (past < self.entry.stop && self.entry.stop - past == 1)
    }
}

// Whether line input `a` has a multiframe in the turn.
fn is_whole(a: u8, wholes: &[bool]) -> bool
    ensures { result ≡ get_or wholes.now a false }
{
    (a as usize) < wholes.len() && wholes[a as usize]
}
