// The command: packets of several clients go as the channels of one ODU0.
ghost use Rattle.std.specs.Prelude.{◌≡◌, ◌≢◌, ◌+◌, ◌<◌, ◌≤◌, ℕ, List, [], ◌∷◌, length, vec_len};
ghost use Rattle.otn_base.specs.declared.limits.TheConstants.{GROUPS, MOST_TURNS};
ghost use Rattle.port_base.specs.Bytes.{HasFailed};
ghost use Rattle.port_base.specs.PortViews.{sink_view};
ghost use Rattle.port_base.specs.Racks.{bays_view};
ghost use Rattle.port_base.specs.Views.{BaysView};
ghost use Rattle.client_list.specs.ClientLists.{IsClientList};
ghost use Rattle.bundle_command.specs.BundleLeft.{BundleRan, OnlyBundled};
ghost use Rattle.bundle_command.specs.Steps.Bundled.{CanTurn, TurnsGone};

use crate::bundling::{Bundling, turn_room};
use crate::report_line::write_channels;
use crate::settling::{ended, settle};
use otn_base::LineKind;
use port_base::{Ended, Rack, Sink, Source, Written};
use std::alloc::Global;

/// Puts the packets of these clients, of which there is one at least and whose numbers rise, 0 to 15, on line output 0
/// for so many turns, 1 to 16,384: as the channels of a linear extension header, each with its client's number, in an
/// ODU0 in slot 1, tributary port 1, of a plain OTU2. After the last turn each client whose last answer was a packet is
/// asked once more. Then the report gets a line for each channel: its packets that are begun, and how its client's
/// place is.
pub fn bundle<I: Source, O: Sink, K: Sink>(
    alloc: Global,
    clients: &[u8],
    turns: u32,
    bays: &mut Rack<I, O>,
    report: &mut K,
) -> Ended
    requires clients { IsClientList clients.now }
    requires some { 1 ≤ turns }
    requires turns { turns ≤ MOST_TURNS }
    ensures memory { result ≡ Ended.Memory → (bays.new ≡ bays.old) × (report.new ≡ report.old) }
    ensures ran { result ≢ Ended.Memory → BundleRan clients.now turns (bays_view I.Source O.Sink bays.old)
        (bays_view I.Source O.Sink bays.new)
        (sink_view K.Sink report.old) (sink_view K.Sink report.new) result }

    // all other places are as they were; the report's count of faults rose or stands at its end where a write of it
    // failed, and else it is as it was
    ensures alone { OnlyBundled clients.now (bays_view I.Source O.Sink bays.old) (bays_view I.Source O.Sink bays.new) }
    ensures cause { result ≡ Ended.ReportFault → HasFailed (K.faults report.old) (K.faults report.new) }
    ensures well { result ≢ Ended.ReportFault → K.faults report.new ≡ K.faults report.old }
{
    let Ok(mut parts) = Bundling::new(alloc, clients) else {
        return Ended::Memory;
    };
    let Ok(mut room) = turn_room(alloc) else {
        return Ended::Memory;
    };
    run_turns(&mut parts, turns, &mut room, bays);
    finish(&mut parts, turns, bays, report)
}

// The turns, with the parts before the first one and a buffer for a turn's bytes.
fn run_turns<I: Source, O: Sink>(
    parts: &mut Bundling,
    turns: u32,
    room: &mut Vec<u8>,
    bays: &mut Rack<I, O>,
)
    requires ready { CanTurn (bays_view I.Source O.Sink bays.old) parts.old }
    requires source { parts.old.feed.source.slots ≡ record { kind = LineKind.Otu2; list = 1 ∷ [] } }
    requires room { vec_len room.old ≡ GROUPS + 1 }
    ensures gone { (clients : List ℕ) (first : BaysView)
        → TurnsGone clients first (bays_view I.Source O.Sink bays.old) 0 parts.old
        → TurnsGone clients first (bays_view I.Source O.Sink bays.new) turns parts.new }
{
    for _ in 0..turns {
        parts.turn(room, bays);
    }
}

// Behind the last turn: what clients have yet, the report, and how the command ended.
fn finish<I: Source, O: Sink, K: Sink>(
    parts: &mut Bundling,
    turns: u32,
    bays: &mut Rack<I, O>,
    report: &mut K,
) -> Ended
    requires ready { CanTurn (bays_view I.Source O.Sink bays.old) parts.old }
    requires some { 1 ≤ turns }
    requires turns { turns ≤ MOST_TURNS }
    ensures ran { (clients : List ℕ) (first : BaysView)
        → TurnsGone clients first (bays_view I.Source O.Sink bays.old) turns parts.old
        → BundleRan clients turns first (bays_view I.Source O.Sink bays.new) (sink_view K.Sink report.old)
        (sink_view K.Sink report.new) result
        × OnlyBundled clients first (bays_view I.Source O.Sink bays.new) }
    ensures some { result ≢ Ended.Memory }
    ensures cause { result ≡ Ended.ReportFault → HasFailed (K.faults report.old) (K.faults report.new) }
    ensures well { result ≢ Ended.ReportFault → K.faults report.new ≡ K.faults report.old }
{
    settle(&mut parts.framing.weaving, bays);
    if write_channels(&parts.framing.weaving.channels, bays, report) == Written::Lost {
        return Ended::ReportFault;
    }
    ended(&parts.framing.weaving, turns, bays)
}
