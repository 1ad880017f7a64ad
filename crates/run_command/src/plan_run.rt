// The command `run`: a plan is carried over the places, and reported.
ghost use Rattle.std.specs.Prelude.{◌≡◌, IfErr, IfOk, None};
ghost use Rattle.port_base.specs.PortViews.{sink_view};
ghost use Rattle.port_base.specs.Racks.{bays_view};
ghost use Rattle.plan_file.specs.Answer.{fault_in};
ghost use Rattle.command_base.specs.Device.{Stays, device};
ghost use Rattle.run_command.specs.PlanRuns.{run_status};
ghost use Rattle.run_command.specs.Steps.PlanRuns.{PlanCarried};
ghost use Rattle.run_command.specs.RunAnswers.{RunAnswers, outcome_status};
ghost use Rattle.command_base.specs.AnswerWords.{IsRefusal};

use arrayvec::ArrayString;
use check_command::{Planned, read_plan};
use command_base::Status;
use node_core::{Node, Outcome, carry_node};
use otn_base::Memory;
use plan_file::{Plan, PlanError};
use port_base::{Chooser, Rack, Sink, Source, Written, write_whole};
use run_report::put_report;
use std::alloc::Global;

/// How `run` ended, once it had its memory.
#[derive(Clone, Copy, Debug, PartialEq, Eq)]
pub enum Ran {
    /// The plan was carried, with this outcome, and its report is written.
    Carried(Outcome),
    /// The plan breaks this rule first, at this place.
    Refused(PlanError, u64),
    /// A read of the plan failed.
    PlanFault,
    /// The plan was carried, and a write of its report failed.
    ReportFault,
}

/// The answer of the top call to a `run` that ended so, or for which there was no memory.
pub fn status_of_run(answer: Result<Ran, Memory>) -> Status
    ensures { result ≡ run_status answer }
{
    match answer {
        Ok(Ran::Carried(outcome)) => status_of_outcome(outcome),
        Ok(Ran::Refused(error, place)) => Status::Plan(error, place),
        Ok(Ran::PlanFault) => Status::PlanFault,
        Ok(Ran::ReportFault) => Status::ReportFault,
        Err(Memory) => Status::Memory,
    }
}

fn status_of_outcome(outcome: Outcome) -> Status
    ensures { result ≡ outcome_status outcome }
{
    match outcome {
        Outcome::Done => Status::Done,
        Outcome::Unfinished => Status::Unfinished,
        Outcome::Cut => Status::Cut,
    }
}

/// Reads the plan, and where it is accepted carries it over the places, in an order that the chooser says, and writes
/// its report.
pub fn run_plan<P: Source, K: Sink, C: Chooser, I: Source, O: Sink>(
    alloc: Global,
    plan: &mut P,
    bays: &mut Rack<I, O>,
    chooser: &mut C,
    report: &mut K,
) -> Result<Ran, Memory>
    ensures ran { RunAnswers (device P.Source K.Sink I.Source O.Sink plan.old bays.old report.old)
        (device P.Source K.Sink I.Source O.Sink plan.new bays.new report.new)
        (C.asked chooser.old) (C.asked chooser.new) (run_status result) }
    ensures stays { Stays (device P.Source K.Sink I.Source O.Sink plan.old bays.old report.old)
        (device P.Source K.Sink I.Source O.Sink plan.new bays.new report.new) }
    ensures refused { IsRefusal (run_status result) → (bays.new ≡ bays.old) × (report.new ≡ report.old)
        × (chooser.new ≡ chooser.old) }
{
    match read_plan(alloc, plan)? {
        Planned::Accepted(plan) => carry_plan(alloc, &plan, bays, chooser, report),
        Planned::Refused(error, place) => Ok(Ran::Refused(error, place)),
        Planned::Fault => Ok(Ran::PlanFault),
    }
}

// Carries an accepted plan, and writes its report. All memory is taken before the first step.
fn carry_plan<K: Sink, C: Chooser, I: Source, O: Sink>(
    alloc: Global,
    plan: &Plan,
    bays: &mut Rack<I, O>,
    chooser: &mut C,
    report: &mut K,
) -> Result<Ran, Memory>
    requires accepted { fault_in plan.now ≡ None }
    ensures memory { IfErr result (λ _. (bays.new ≡ bays.old) × (report.new ≡ report.old)
        × (chooser.new ≡ chooser.old)) }
    ensures ran { IfOk result (PlanCarried plan.now (bays_view I.Source O.Sink bays.old)
        (bays_view I.Source O.Sink bays.new) (sink_view K.Sink report.old) (sink_view K.Sink report.new)
        (C.asked chooser.old) (C.asked chooser.new)) }
{
    let mut text = ArrayString::new();
    let mut node = Node::build(alloc, plan)?;
    let numbers = carry_node(&mut node, bays, chooser);
    put_report(&mut text, plan, &numbers, bays);
    match write_whole(report, text.as_bytes()) {
        Written::Whole => Ok(Ran::Carried(numbers.outcome)),
        Written::Lost => Ok(Ran::ReportFault),
    }
}
