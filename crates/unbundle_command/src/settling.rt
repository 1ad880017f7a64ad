// The end of the command: whether the line has more than its turns want, the report, and whether a place is dead.
ghost use Rattle.std.specs.Prelude.{◌≡◌, ◌≢◌, ◌<◌, ◌≤◌, ℕ, true, false};
ghost use Rattle.otn_base.specs.declared.limits.TheConstants.{CLIENTS, MOST_TURNS};
ghost use Rattle.port_base.specs.PortViews.{sink_view};
ghost use Rattle.port_base.specs.Bytes.{HasFailed};
ghost use Rattle.port_base.specs.Racks.{bays_view};
ghost use Rattle.port_base.specs.Views.{BaysView, Dead, client_out_at};
ghost use Rattle.unbundle_command.specs.Steps.Receiving.{channel_at};
ghost use Rattle.unbundle_command.specs.Unbundling.{OnlyUnbundled};
ghost use Rattle.unbundle_command.specs.Steps.Unbundling.{TurnsGone, IsReady, DeadChannel, HasDead, IsDeadAt};
ghost use Rattle.unbundle_command.specs.UnbundleLeft.{UnbundleRan};

use crate::outputs::Outputs;
use crate::report::write_report;
use crate::unbundling::Unbundling;
use otn_base::limits::CLIENTS;
use port_base::{Ended, Rack, Sink, Source, Written};
use tributary_line::{ended_by, is_dead_in, is_dead_out};

/// After the last turn: the line is asked for one byte more, where its end was not seen; all lines of packets leave,
/// and the report is written. Says how the command ended.
pub(crate) fn settle<I: Source, O: Sink, K: Sink>(
    parts: &mut Unbundling,
    bays: &mut Rack<I, O>,
    report: &mut K,
) -> Ended
    requires ready { IsReady parts.old }
    ensures ran { (first : BaysView) (turns : ℕ) → turns ≤ MOST_TURNS
        → TurnsGone first (bays_view I.Source O.Sink bays.old) turns parts.old
        → UnbundleRan turns first (bays_view I.Source O.Sink bays.new) (sink_view K.Sink report.old)
        (sink_view K.Sink report.new) result }
    ensures some { result ≢ Ended.Memory }
    ensures cause { result ≡ Ended.ReportFault → HasFailed (K.faults report.old) (K.faults report.new) }
    ensures well { result ≢ Ended.ReportFault → K.faults report.new ≡ K.faults report.old }
    ensures alone { OnlyUnbundled (bays_view I.Source O.Sink bays.old) (bays_view I.Source O.Sink bays.new) }
{
    let more = parts.tap.ask_more(bays.line_in_mut(0));
    parts.outputs.flush(bays);
    if write_report(&parts.outputs, report) == Written::Lost {
        return Ended::ReportFault;
    }
    ended_by(has_dead(&parts.outputs, bays), more)
}

// Whether the line is dead, or a client output of whose channel a packet arrived.
fn has_dead<I: Source, O: Sink>(outputs: &Outputs, bays: &Rack<I, O>) -> bool
    ensures some { result ≡ true → HasDead outputs.now.channels (bays_view I.Source O.Sink bays.now) }
    ensures none { result ≡ false → HasDead outputs.now.channels (bays_view I.Source O.Sink bays.now) → ⊥ }
{
    is_dead_in(bays.line_in(0)) || has_dead_output(outputs, bays)
}

// Whether a client output is dead of whose channel a packet arrived.
fn has_dead_output<I: Source, O: Sink>(outputs: &Outputs, bays: &Rack<I, O>) -> bool
    ensures some { result ≡ true → DeadChannel CLIENTS outputs.now.channels (bays_view I.Source O.Sink bays.now) }
    ensures none { result ≡ false → DeadChannel CLIENTS outputs.now.channels (bays_view I.Source O.Sink bays.now) → ⊥ }
{
    for cid in 0..CLIENTS as u8 {
        if is_dead_channel(outputs, cid, bays) {
            return true;
        }
    }
    false
}

// Whether that of this channel is.
fn is_dead_channel<I: Source, O: Sink>(outputs: &Outputs, cid: u8, bays: &Rack<I, O>) -> bool
    requires { cid < CLIENTS }
    ensures some { result ≡ true → IsDeadAt cid outputs.now.channels (bays_view I.Source O.Sink bays.now) }
    ensures none { result ≡ false → IsDeadAt cid outputs.now.channels (bays_view I.Source O.Sink bays.now) → ⊥ }
{
    outputs.channel(cid).packets() > 0 && is_dead_out(bays.client_out(cid))
}
