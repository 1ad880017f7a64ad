// The command `pull`: what the sink of a tributary on a line emits, turn by turn.
ghost use Rattle.std.specs.Prelude.{◌≡◌, ◌≢◌, ◌≤◌, ℕ, List, IfOk, Some};
ghost use Rattle.port_base.specs.InPlace.{in_view};
ghost use Rattle.port_base.specs.Views.{InView};
ghost use Rattle.otn_base.specs.declared.limits.TheConstants.{OTU2_SLOTS};
ghost use Rattle.port_base.specs.PortViews.{SinkView, sink_view};
ghost use Rattle.tributary_model.specs.Places.{tributary_of};
ghost use Rattle.port_base.specs.Writes.{Gains};
ghost use Rattle.command_base.specs.Ends.{ReportAfter};
ghost use Rattle.command_base.specs.Steps.Ends.{step_of};
ghost use Rattle.line_side.specs.LineForm.{plain_otu2};
ghost use Rattle.line_commands.specs.PullReport.{tributary};
ghost use Rattle.line_commands.specs.PullRuns.{PullEnded};
ghost use Rattle.line_commands.specs.Steps.PullRuns.{IsReady, IsNew, own_of};

use otn_base::limits::GROUPS;
use otn_base::{LineKind, Memory, Slots};
use port_base::{Ended, InPlaceOf, Sink, Source, Written, write_whole};
use std::alloc::Global;
use tributary_line::{After, Tap, Walker, after_turn, end_walk, walk};

// A sink on the line, and room for what it emits in a turn: 15,233 bytes a slot.
#[derive(Drop)]
struct Pulling {
    tap: Tap,
    room: Vec<u8>,
}

/// Writes what a sink of these slots and this tributary port, 1 to 8, emits in each turn of the line, up to and with
/// the turn in which the line ended, of 16,384 turns at most. Where its end was not seen and it is not dead, it is then
/// asked for one byte more. A write that fails ends it at once.
pub fn write_pull<I: Source, K: Sink>(
    alloc: Global,
    port: u8,
    slots: &Slots,
    line: &mut InPlaceOf<I>,
    report: &mut K,
) -> Ended
    requires low { 1 ≤ port }
    requires high { port ≤ OTU2_SLOTS }
    requires plain { slots.now.kind ≡ LineKind.Otu2 }
    ensures memory { result ≡ Ended.Memory → (line.new ≡ line.old) × (report.new ≡ report.old) }
    ensures run { result ≢ Ended.Memory → PullEnded (tributary port slots.now.list) (in_view I.Source line.old)
        (in_view I.Source line.new) (K.got report.old) (K.got report.new) result }
    ensures report { ReportAfter (Some result) (sink_view K.Sink report.old) (sink_view K.Sink report.new) }
{
    let Ok(mut pulling) = new_pulling(alloc, port, slots) else {
        return Ended::Memory;
    };
    write_turns(&mut pulling, line, report)
}

// It, before the line's first turn.
fn new_pulling(alloc: Global, port: u8, slots: &Slots) -> Result<Pulling, Memory>
    requires low { 1 ≤ port }
    requires high { port ≤ OTU2_SLOTS }
    requires plain { slots.now.kind ≡ LineKind.Otu2 }
    ensures ready { IfOk result IsReady }
    ensures own { IfOk result (λ pulling. own_of pulling ≡ tributary_of slots.now port) }
    ensures new { IfOk result IsNew }
{
    let tap = Tap::new(alloc, port, slots)?;
    let room = vec![in alloc; 0; slots.count() as usize * (GROUPS + 1)]?;
    Ok(Pulling { tap, room })
}

// The turns, and how the command ends.
fn write_turns<I: Source, K: Sink>(
    pulling: &mut Pulling,
    line: &mut InPlaceOf<I>,
    report: &mut K,
) -> Ended
    requires ready { IsReady pulling.old }
    requires new { IsNew pulling.old }
    ensures run { PullEnded (own_of pulling.old) (in_view I.Source line.old) (in_view I.Source line.new)
        (K.got report.old) (K.got report.new) result }
    ensures report { ReportAfter (Some result) (sink_view K.Sink report.old) (sink_view K.Sink report.new) }
    ensures some { result ≢ Ended.Memory }
{
    let Some(_) = walk(pulling, line, report) else {
        return Ended::ReportFault;
    };
    let input = pulling.tap.line();
    end_walk(input.end_seen(), input.rest(), line)
}

// Writes what the sink emits in a turn.
fn write_emitted<K: Sink>(report: &mut K, bytes: &[u8]) -> Written
    ensures got { Gains result (K.got report.old) bytes.now (K.got report.new) }
    ensures report { ReportAfter (step_of result) (sink_view K.Sink report.old) (sink_view K.Sink report.new) }
{
    write_whole(report, bytes)
}

impl Walker for Pulling {
    ghost use Rattle.line_side.specs.LineForm.{plain_otu2};
    ghost use Rattle.line_commands.specs.Steps.PullRuns.{IsReady, PullHolds, PullLost};

    ghost form = { λ _. plain_otu2 };

    ghost line = { λ p. p.tap.line };

    ghost ready = { IsReady };

    ghost holds = { PullHolds };

    ghost lost = { PullLost };

    fn turn<I: Source, K: Sink>(
        &mut self,
        _t: u32,
        place: &mut InPlaceOf<I>,
        report: &mut K,
    ) -> After {
        let emitted = self.tap.turn(place, &mut self.room);
        let written = write_emitted(report, &self.room[emitted]);
        after_turn(written, self.tap.line().ended())
    }
}
