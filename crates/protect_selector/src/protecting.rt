// The turns of the command: two sinks, the choice between them, and a source.
ghost use Rattle.std.specs.Prelude.{◌≡◌, ◌≢◌, ◌+◌, ◌-◌, ◌*◌, ◌<◌, ◌≤◌, ℕ, suc, List, [], ◌∷◌, ◌++◌, IfOk, drop, length, slice_range, vec_len};
ghost use Rattle.otn_base.specs.declared.limits.TheConstants.{GROUPS, MOST_TURNS, OTU2_SLOTS};
ghost use Rattle.port_base.specs.InPlace.{in_view};
ghost use Rattle.port_base.specs.OutPlace.{out_view};
ghost use Rattle.port_base.specs.Given.{Gained};
ghost use Rattle.port_base.specs.Views.{InView, OutView};
ghost use Rattle.tributary_model.specs.Places.{Tributary, tributary_of};
ghost use Rattle.tributary_line.specs.FeedTurn.{FeedStands, Completes};

use crate::report_line::write_switch;
use crate::selector::Selector;
use crate::side::{Choice, Side};
use otn_base::{LineKind, Memory, Slots};
use port_base::{OutPlaceOf, Rack, Sink, Source, Written};
use std::alloc::Global;
use std::ops::Range;
use tributary_line::{Feed, Tap};

/// The sinks of a tributary on two lines, the selector between them, and its source on a line.
#[derive(Drop)]
pub(crate) struct Protecting {
    pub(crate) working: Tap,
    pub(crate) protection: Tap,
    pub(crate) selector: Selector,
    pub(crate) feed: Feed,
}

ghost use Rattle.port_base.specs.PortViews.{sink_view};
ghost use Rattle.port_base.specs.Bytes.{HasFailed};
ghost use Rattle.port_base.specs.Racks.{bays_view};
ghost use Rattle.tributary_model.specs.Laws.{IsTributary};
ghost use Rattle.protect_selector.specs.OfLines.{bytes_of};
ghost use Rattle.protect_selector.specs.Protecting.{Ends, OnlyProtected, ends_of};
ghost use Rattle.protect_selector.specs.Steps.Protecting.{AreReady, OfTheirLines, TurnGone};
ghost use Rattle.protect_selector.specs.Steps.Protecting.{TurnsGone};

impl Protecting {
    /// The parts for a tributary of these slots and this tributary port, 1 to 8, before the first turn, with so many
    /// turns of waiting to restore. Takes all memory that they will ever need; answers `Memory` where there is none.
    pub(crate) fn new(
        alloc: Global,
        port: u8,
        slots: &Slots,
        wait: u32,
    ) -> Result<Protecting, Memory>
        requires low { 1 ≤ port }
        requires high { port ≤ OTU2_SLOTS }
        requires plain { slots.now.kind ≡ LineKind.Otu2 }
        ensures gone { IfOk result (λ parts. (first : Ends)
            → TurnsGone (tributary_of slots.now port) wait first first 0 parts) }
        ensures tributary { IfOk result (λ _. IsTributary (tributary_of slots.now port)) }
        ensures ready { IfOk result AreReady }
        ensures slots { IfOk result (λ parts. parts.feed.source.slots ≡ slots.now) }
    {
        let working = Tap::new(alloc, port, slots)?;
        let protection = Tap::new(alloc, port, slots)?;
        let selector = Selector::new(slots.count(), wait);
        let feed = Feed::new(alloc, port, slots)?;
        Ok(Protecting {
            working,
            protection,
            selector,
            feed,
        })
    }

    /// Turn t + 1: the sinks see a turn of their lines each, the choice is told where it is a switch, and what is
    /// chosen goes on. Where the report fails nothing goes on.
    pub(crate) fn turn<I: Source, O: Sink, K: Sink>(
        &mut self,
        t: u32,
        working_room: &mut Vec<u8>,
        protection_room: &mut Vec<u8>,
        bays: &mut Rack<I, O>,
        report: &mut K,
    ) -> Written
        requires ready { AreReady self.old }
        requires working_room { vec_len working_room.old ≡ length self.old.feed.source.slots.list * (GROUPS + 1) }
        requires protection_room { vec_len protection_room.old ≡ length self.old.feed.source.slots.list * (GROUPS + 1) }
        requires turn { t < MOST_TURNS }
        ensures gone { OfTheirLines (ends_of (bays_view I.Source O.Sink bays.old) (sink_view K.Sink report.old)) t
            self.old (λ own n first working protection. TurnGone result own n first
            (ends_of (bays_view I.Source O.Sink bays.new) (sink_view K.Sink report.new))
            working protection t self.new) }
        ensures ready { AreReady self.new }
        ensures slots { self.new.feed.source.slots ≡ self.old.feed.source.slots }
        ensures working_stays { vec_len working_room.new ≡ vec_len working_room.old }
        ensures protection_stays { vec_len protection_room.new ≡ vec_len protection_room.old }
        ensures alone { OnlyProtected (bays_view I.Source O.Sink bays.old) (bays_view I.Source O.Sink bays.new) }
        ensures cause { result ≡ Written.Lost → HasFailed (K.faults report.old) (K.faults report.new) }
        ensures well { result ≢ Written.Lost → K.faults report.new ≡ K.faults report.old }
    {
        let working = self.working.turn(bays.line_in_mut(0), working_room);
        let protection = self.protection.turn(bays.line_in_mut(1), protection_room);
        let choice = self.selector.pick(
            self.working.state(),
            working.end - working.start,
            self.protection.state(),
            protection.end - protection.start,
        );
        if write_switch(report, t, choice) == Written::Lost {
            return Written::Lost;
        }
        give_on(
            &mut self.feed,
            choice,
            working,
            protection,
            working_room,
            protection_room,
            bays.line_out_mut(0),
        );
        Written::Whole
    }
}

// The source takes the bytes of the side, which stand in one of the buffers, without those that are skipped: the frames
// of a turn are written.
fn give_on<O: Sink>(
    feed: &mut Feed,
    choice: Choice,
    working: Range<usize>,
    protection: Range<usize>,
    working_room: &mut Vec<u8>,
    protection_room: &mut Vec<u8>,
    place: &mut OutPlaceOf<O>,
)
    requires working_order { working.start ≤ working.end }
    requires protection_order { protection.start ≤ protection.end }
    requires working_within { working.end ≤ vec_len working_room.old }
    requires protection_within { protection.end ≤ vec_len protection_room.old }
    requires working_room { vec_len working_room.old ≡ length feed.old.source.slots.list * (GROUPS + 1) }
    requires protection_room { vec_len protection_room.old ≡ length feed.old.source.slots.list * (GROUPS + 1) }
    requires plain { feed.old.source.slots.kind ≡ LineKind.Otu2 }
    requires skip { choice.skip ≤ length (bytes_of choice.side
        (slice_range working_room.old.items working.start working.end)
        (slice_range protection_room.old.items protection.start protection.end)) }
    ensures stands { let bytes : List ℕ = drop choice.skip
        (bytes_of choice.side (slice_range working_room.old.items working.start working.end)
        (slice_range protection_room.old.items protection.start protection.end)) in
        (own : Tributary) (first : OutView) (turns : List (List ℕ)) → FeedStands own first (out_view O.Sink place.old) turns feed.old
        → Completes own turns bytes → FeedStands own first (out_view O.Sink place.new) (turns ++ bytes ∷ []) feed.new }
    ensures slots { feed.new.source.slots ≡ feed.old.source.slots }
    ensures working_stays { vec_len working_room.new ≡ vec_len working_room.old }
    ensures protection_stays { vec_len protection_room.new ≡ vec_len protection_room.old }
    ensures gained { (written : List ℕ) × Gained (out_view O.Sink place.old) written (out_view O.Sink place.new) }
{
    match choice.side {
        Side::Working => feed.turn(
            working_room,
            working.start + choice.skip..working.end,
            place,
        ),
        Side::Protection => feed.turn(
            protection_room,
            protection.start + choice.skip..protection.end,
            place,
        ),
    }
}
