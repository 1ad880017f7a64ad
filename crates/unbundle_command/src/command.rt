// The command: the channels of a line go to client outputs.
ghost use Rattle.std.specs.Prelude.{◌≡◌, ◌≢◌, ◌+◌, ◌≤◌, ℕ, IfOk, vec_len};
ghost use Rattle.otn_base.specs.declared.limits.TheConstants.{GROUPS, MOST_TURNS};
ghost use Rattle.port_base.specs.Bytes.{HasFailed};
ghost use Rattle.port_base.specs.PortViews.{sink_view};
ghost use Rattle.port_base.specs.Racks.{bays_view};
ghost use Rattle.port_base.specs.Views.{BaysView};
ghost use Rattle.unbundle_command.specs.Unbundling.{OnlyUnbundled};
ghost use Rattle.unbundle_command.specs.Steps.Unbundling.{IsReady, TurnsGone};
ghost use Rattle.unbundle_command.specs.UnbundleLeft.{UnbundleRan};

use crate::settling::settle;
use crate::unbundling::Unbundling;
use otn_base::limits::GROUPS;
use port_base::{Ended, Rack, Sink, Source};
use std::alloc::{AllocError, Global};

/// Takes the ODU0 of slot 1 and port 1 from line input 0, a plain OTU2, in each of so many turns, 1 to 16,384, and
/// finds the linear GFP frames in its client frames. The packets of channels 0 to 15 are written, a line of hex digits
/// each, to the client outputs of these numbers. After the last turn the line is asked for one byte more. The report
/// then has a line for each of these channels on which something arrived, with the numbers of its packets and of its
/// losses, whatever its client output is; the last line tells how much arrived on other channels. A line or an output
/// that is dead, or has ended, stops nothing.
pub fn unbundle<I: Source, O: Sink, K: Sink>(
    alloc: Global,
    turns: u32,
    bays: &mut Rack<I, O>,
    report: &mut K,
) -> Ended
    requires turns { turns ≤ MOST_TURNS }
    ensures memory { result ≡ Ended.Memory → (bays.new ≡ bays.old) × (report.new ≡ report.old) }
    ensures ran { result ≢ Ended.Memory → UnbundleRan turns (bays_view I.Source O.Sink bays.old)
        (bays_view I.Source O.Sink bays.new)
        (sink_view K.Sink report.old) (sink_view K.Sink report.new) result }

    // the report's count of faults rose or stands at its end where its write failed, and else it is as it was; all
    // places but line input 0 and the client outputs are as they were
    ensures cause { result ≡ Ended.ReportFault → HasFailed (K.faults report.old) (K.faults report.new) }
    ensures well { result ≢ Ended.ReportFault → K.faults report.new ≡ K.faults report.old }
    ensures alone { OnlyUnbundled (bays_view I.Source O.Sink bays.old) (bays_view I.Source O.Sink bays.new) }
{
    let Ok(mut parts) = Unbundling::new(alloc) else {
        return Ended::Memory;
    };
    let Ok(mut room) = turn_room(alloc) else {
        return Ended::Memory;
    };
    run_turns(&mut parts, turns, &mut room, bays);
    settle(&mut parts, bays, report)
}

// Takes room for what a turn emits: 15,233 bytes.
fn turn_room(alloc: Global) -> Result<Vec<u8>, AllocError>
    ensures { IfOk result (λ room. vec_len room ≡ GROUPS + 1) }
{
    vec![in alloc; 0; GROUPS + 1]
}

// The turns, with the parts before the first one and a buffer as large as the sink's own.
fn run_turns<I: Source, O: Sink>(
    parts: &mut Unbundling,
    turns: u32,
    room: &mut Vec<u8>,
    bays: &mut Rack<I, O>,
)
    requires ready { IsReady parts.old }
    requires room { vec_len room.old ≡ GROUPS + 1 }
    ensures gone { (first : BaysView) → TurnsGone first (bays_view I.Source O.Sink bays.old) 0 parts.old
        → TurnsGone first (bays_view I.Source O.Sink bays.new) turns parts.new }
    ensures ready { IsReady parts.new }
    ensures alone { OnlyUnbundled (bays_view I.Source O.Sink bays.old) (bays_view I.Source O.Sink bays.new) }
{
    for _ in 0..turns {
        parts.turn(room, bays);
    }
}
