// The command `trial`: packets of eight clients, through four runs in a row.
ghost use Rattle.std.specs.Prelude.{◌≡◌, IfErr, IfOk, string_bytes};
ghost use Rattle.port_base.specs.PortViews.{sink_view};
ghost use Rattle.port_base.specs.Racks.{bays_view};
ghost use Rattle.trial_command.specs.TrialAnswers.{TrialRan, trial_status};
ghost use Rattle.trial_plans.specs.TrialPlans.{trial_clients};
ghost use Rattle.trial_command.specs.Steps.TrialRuns.{AllClientsLive, ClientsTold};

use crate::carried::{first_run, last_run, middle_run};
use crate::lines::{line_of_check, line_of_client};
use crate::places::{Memories, TEXT_ROOM, TextSink, rooms_suffice, text_of};
use bounded_ports::BoundedSink;
use command_base::Status;
use otn_base::Memory;
use port_base::{Chooser, MemSource, Sink, Source, Written, write_whole};
use std::alloc::Global;
use trial_plans::CLIENTS;

/// The answer of the top call to a `trial` whose report was written so, or for which there was no memory.
pub fn status_of_trial(answer: Result<Written, Memory>) -> Status
    ensures { result ≡ trial_status answer }
{
    match answer {
        Ok(Written::Whole) => Status::Done,
        Ok(Written::Lost) => Status::ReportFault,
        Err(Memory) => Status::Memory,
    }
}

/// Draws packets for eight clients by the number, carries them through four nodes in a row over ports in memory, in an
/// order that the chooser says, and writes the checks of the three line files and what came back. No output of the
/// trial is ever full, so none dies, and `Memory` is answered for want of memory alone. After it the report is as it
/// was; the chooser may have been asked by then.
pub fn run_trial<C: Chooser, K: Sink>(
    alloc: Global,
    number: u64,
    chooser: &mut C,
    report: &mut K,
) -> Result<Written, Memory>
    ensures memory { IfErr result (λ _. report.new ≡ report.old) }
    ensures ran { IfOk result (λ written. TrialRan number written (sink_view K.Sink report.old)
        (sink_view K.Sink report.new) (C.asked chooser.old) (C.asked chooser.new)) }
{
    let first = first_run(alloc, number, chooser)?;
    let mut text = line_of_check(alloc, 0, &first)?;
    let second = middle_run(alloc, 1, first, chooser)?;
    text.push_str(&line_of_check(alloc, 1, &second)?)?;
    let third = middle_run(alloc, 2, second, chooser)?;
    text.push_str(&line_of_check(alloc, 2, &third)?)?;
    let bays = last_run(alloc, third, chooser)?;
    rooms_suffice();
    text.push_str(&lines_of_clients(alloc, &bays)?)?;
    Ok(write_whole(report, text.as_bytes()))
}

// The lines of the clients, by the texts that they got. All their places live.
fn lines_of_clients(alloc: Global, bays: &Memories<TextSink>) -> Result<String, Memory>
    requires { AllClientsLive (bays_view ⟦<MemSource as Source>⟧ ⟦<BoundedSink<TEXT_ROOM> as Sink>⟧ bays.now) }
    ensures { IfOk result (λ lines. ClientsTold trial_clients
        (bays_view ⟦<MemSource as Source>⟧ ⟦<BoundedSink<TEXT_ROOM> as Sink>⟧ bays.now) (string_bytes lines)) }
{
    let mut lines = String::new(alloc);
    for c in 0..CLIENTS {
        let text = text_of(bays.client_out(c));
        let line = line_of_client(alloc, c, text)?;
        lines.push_str(&line)?;
    }
    Ok(lines)
}
