// The turns of the command.
ghost use Rattle.std.specs.Prelude.{◌≡◌, ◌+◌, ◌≤◌, ℕ, List, [], ◌∷◌, ◌++◌, IfOk, length, take, vec_len};
ghost use Rattle.otn_base.specs.declared.limits.TheConstants.{GROUPS, NOMINAL};
ghost use Rattle.port_base.specs.Racks.{bays_view};
ghost use Rattle.port_base.specs.Views.{BaysView};
ghost use Rattle.client_list.specs.ClientLists.{IsClientList};
ghost use Rattle.bundle_command.specs.BundleStream.{first_slot};
ghost use Rattle.bundle_command.specs.Steps.Bundled.{CanTurn, TurnsGone};
ghost use Rattle.bundle_command.specs.Steps.Framed.{AreReady, FramesStand, OnlyInputs};

use crate::framing::Framing;
use otn_base::limits::{GROUPS, NOMINAL};
use otn_base::{LineKind, Memory, Slots};
use port_base::{Rack, Sink, Source};
use std::alloc::{AllocError, Global};
use tributary_line::Feed;

/// The channels in their client frames, and the ODU0's source on the line.
#[derive(Drop)]
pub(crate) struct Bundling {
    pub(crate) framing: Framing,
    pub(crate) feed: Feed,
}

impl Bundling {
    /// The parts before the first turn. Takes all memory that they will ever need; answers `Memory` where there is
    /// none.
    pub(crate) fn new(alloc: Global, clients: &[u8]) -> Result<Bundling, Memory>
        requires { IsClientList clients.now }
        ensures gone { IfOk result (λ parts. (first : BaysView) → TurnsGone clients.now first first 0 parts) }
        ensures source { IfOk result (λ parts. parts.feed.source.slots
            ≡ record { kind = LineKind.Otu2; list = 1 ∷ [] }) }
    {
        let framing = Framing::new(alloc, clients)?;
        let feed = Feed::new(alloc, 1, &first_slot())?;
        Ok(Bundling { framing, feed })
    }

    /// A turn: the source takes the next 15,168 bytes of the frames, by way of the room, and the line's frames are
    /// written.
    pub(crate) fn turn<I: Source, O: Sink>(&mut self, room: &mut Vec<u8>, bays: &mut Rack<I, O>)
        requires ready { CanTurn (bays_view I.Source O.Sink bays.old) self.old }
        requires source { self.old.feed.source.slots ≡ record { kind = LineKind.Otu2; list = 1 ∷ [] } }
        requires room { vec_len room.old ≡ GROUPS + 1 }
        ensures gone { (clients : List ℕ) (first : BaysView) (t : ℕ)
            → TurnsGone clients first (bays_view I.Source O.Sink bays.old) t self.old
            → TurnsGone clients first (bays_view I.Source O.Sink bays.new) (t + 1) self.new }
        ensures source { self.new.feed.source.slots ≡ self.old.feed.source.slots }
        ensures room { vec_len room.new ≡ vec_len room.old }
    {
        fill_front(&mut self.framing, room, bays);
        self.feed.turn(room, 0..NOMINAL, bays.line_out_mut(0));
    }
}

// The next bytes of the frames, those of a turn, to the front of a slice.
fn fill_front<I: Source, O: Sink>(framing: &mut Framing, into: &mut [u8], bays: &mut Rack<I, O>)
    requires ready { AreReady (bays_view I.Source O.Sink bays.old) framing.old }
    requires room { NOMINAL ≤ length into.old }
    ensures size { length into.new ≡ length into.old }
    ensures stands { (clients : List ℕ) (first : BaysView) (due : List ℕ)
        → FramesStand clients first (bays_view I.Source O.Sink bays.old) due framing.old
        → FramesStand clients first (bays_view I.Source O.Sink bays.new) (due ++ take NOMINAL into.new) framing.new }
    ensures alone { OnlyInputs (bays_view I.Source O.Sink bays.old) (bays_view I.Source O.Sink bays.new) }
{
    framing.fill(bays, &mut into[..NOMINAL]);
}

/// Takes room for what a turn carries.
pub(crate) fn turn_room(alloc: Global) -> Result<Vec<u8>, AllocError>
    ensures { IfOk result (λ room. vec_len room ≡ GROUPS + 1) }
{
    vec![in alloc; 0; GROUPS + 1]
}

// Slot 1 of an OTU2.
fn first_slot() -> Slots
    ensures { result ≡ record { kind = LineKind.Otu2; list = 1 ∷ [] } }
{
    match Slots::new(&[1], LineKind::Otu2) {
        Some(slots) => slots,
        None => unreachable!(),
    }
}
