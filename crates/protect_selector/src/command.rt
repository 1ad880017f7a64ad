// The command: one tributary of two lines goes on, by the better one of them.
ghost use Rattle.std.specs.Prelude.{◌≡◌, ◌≢◌, ◌+◌, ◌*◌, ◌≤◌, ℕ, IfOk, length, vec_len};
ghost use Rattle.otn_base.specs.declared.limits.TheConstants.{GROUPS, MOST_TURNS, OTU2_SLOTS};
ghost use Rattle.port_base.specs.Bytes.{HasFailed};
ghost use Rattle.port_base.specs.PortViews.{sink_view};
ghost use Rattle.port_base.specs.Racks.{bays_view};
ghost use Rattle.tributary_model.specs.Laws.{IsTributary};
ghost use Rattle.tributary_model.specs.Places.{Tributary, tributary_of};
ghost use Rattle.protect_selector.specs.Protecting.{OnlyProtected, ends_of};
ghost use Rattle.protect_selector.specs.Steps.Protecting.{AreReady, TurnsGone};
ghost use Rattle.protect_selector.specs.ProtectLeft.{ProtectRan};

use crate::protecting::Protecting;
use crate::settling::settle;
use otn_base::limits::GROUPS;
use otn_base::{LineKind, Slots};
use port_base::{Ended, Rack, Sink, Source, Written};
use std::alloc::{AllocError, Global};

/// Takes the tributary of these slots and this tributary port, 1 to 8, from line input 0, the working line, and from
/// line input 1, the protection line, in each of so many turns, 1 to 16,384, and puts the better one on line output 0,
/// with the same slots and port: all are plain OTU2 lines. It goes back to working once that was Up for `wait` turns in
/// a row; never, where `wait` is 0. The report has a line for each switch, which is written when it happens; a write of
/// it that fails ends the command at once. A line that is dead or has ended stops nothing. After the last turn both
/// lines are asked for one byte more.
pub fn protect<I: Source, O: Sink, K: Sink>(
    alloc: Global,
    port: u8,
    slots: &Slots,
    turns: u32,
    wait: u32,
    bays: &mut Rack<I, O>,
    report: &mut K,
) -> Ended
    requires low { 1 ≤ port }
    requires high { port ≤ OTU2_SLOTS }
    requires plain { slots.now.kind ≡ LineKind.Otu2 }
    requires turns { turns ≤ MOST_TURNS }
    ensures memory { result ≡ Ended.Memory → (bays.new ≡ bays.old) × (report.new ≡ report.old) }
    ensures ran { result ≢ Ended.Memory → ProtectRan (tributary_of slots.now port) turns wait
        (ends_of (bays_view I.Source O.Sink bays.old) (sink_view K.Sink report.old)) (ends_of (bays_view I.Source O.Sink bays.new) (sink_view K.Sink report.new)) result }

    // all places but these three are as they were; the report's count of faults rose or stands at its end where it
    // ended the command, and else it is as it was
    ensures alone { OnlyProtected (bays_view I.Source O.Sink bays.old) (bays_view I.Source O.Sink bays.new) }
    ensures cause { result ≡ Ended.ReportFault → HasFailed (K.faults report.old) (K.faults report.new) }
    ensures well { result ≢ Ended.ReportFault → K.faults report.new ≡ K.faults report.old }
{
    let Ok(mut parts) = Protecting::new(alloc, port, slots, wait) else {
        return Ended::Memory;
    };
    let Ok(mut working_room) = turn_room(alloc, slots) else {
        return Ended::Memory;
    };
    let Ok(mut protection_room) = turn_room(alloc, slots) else {
        return Ended::Memory;
    };
    run_turns(
        &mut parts,
        turns,
        &mut working_room,
        &mut protection_room,
        bays,
        report,
    )
}

// Takes room for what a turn emits: 15,233 bytes a slot.
fn turn_room(alloc: Global, slots: &Slots) -> Result<Vec<u8>, AllocError>
    ensures { IfOk result (λ room. vec_len room ≡ length slots.now.list * (GROUPS + 1)) }
{
    vec![in alloc; 0; slots.count() as usize * (GROUPS + 1)]
}

// The turns, with the parts before the first one and a buffer for each sink, as large as its own.
fn run_turns<I: Source, O: Sink, K: Sink>(
    parts: &mut Protecting,
    turns: u32,
    working_room: &mut Vec<u8>,
    protection_room: &mut Vec<u8>,
    bays: &mut Rack<I, O>,
    report: &mut K,
) -> Ended
    requires ready { AreReady parts.old }
    requires working_room { vec_len working_room.old ≡ length parts.old.feed.source.slots.list * (GROUPS + 1) }
    requires protection_room { vec_len protection_room.old ≡ length parts.old.feed.source.slots.list * (GROUPS + 1) }
    requires turns { turns ≤ MOST_TURNS }
    ensures ran { (own : Tributary) (n : ℕ) → IsTributary own
        → TurnsGone own n (ends_of (bays_view I.Source O.Sink bays.old) (sink_view K.Sink report.old))
        (ends_of (bays_view I.Source O.Sink bays.old) (sink_view K.Sink report.old)) 0 parts.old
        → ProtectRan own turns n (ends_of (bays_view I.Source O.Sink bays.old) (sink_view K.Sink report.old))
        (ends_of (bays_view I.Source O.Sink bays.new) (sink_view K.Sink report.new)) result }
    ensures some { result ≢ Ended.Memory }
    ensures alone { OnlyProtected (bays_view I.Source O.Sink bays.old) (bays_view I.Source O.Sink bays.new) }
    ensures cause { result ≡ Ended.ReportFault → HasFailed (K.faults report.old) (K.faults report.new) }
    ensures well { result ≢ Ended.ReportFault → K.faults report.new ≡ K.faults report.old }
{
    for t in 0..turns {
        if parts.turn(t, working_room, protection_room, bays, report) == Written::Lost {
            return Ended::ReportFault;
        }
    }
    settle(parts, bays)
}
