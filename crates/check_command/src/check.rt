// The command `check`: whether the plan is one, and how large.
ghost use Rattle.std.specs.Prelude.{◌≡◌, IfOk, string_bytes};
ghost use Rattle.port_base.specs.PortViews.{source_view, sink_view, SinkLater};
ghost use Rattle.check_command.specs.PlanCheck.{CheckRun, check_status, plan_text};
ghost use Rattle.check_command.specs.Steps.PlanCheck.{PlanTold};
ghost use Rattle.command_base.specs.AnswerWords.{CountsBy, IsRefusal};

use crate::plan_text::{Planned, read_plan};
use command_base::Status;
use otn_base::Memory;
use plan_file::{Plan, PlanError};
use port_base::{Sink, Source, Written, write_whole};
use std::alloc::{AllocError, Global};

/// How `check` ended, once it had its memory.
#[derive(Clone, Copy, Debug, PartialEq, Eq)]
pub enum Checked {
    /// The plan is accepted, and its line is written.
    Told,
    /// The plan breaks this rule first, at this place.
    Refused(PlanError, u64),
    /// A read of the plan failed.
    PlanFault,
    /// A write of the report failed.
    ReportFault,
}

/// The answer of the top call to a `check` that ended so, or for which there was no memory.
pub fn status_of_check(answer: Result<Checked, Memory>) -> Status
    ensures { result ≡ check_status answer }
{
    match answer {
        Ok(Checked::Told) => Status::Done,
        Ok(Checked::Refused(error, place)) => Status::Plan(error, place),
        Ok(Checked::PlanFault) => Status::PlanFault,
        Ok(Checked::ReportFault) => Status::ReportFault,
        Err(Memory) => Status::Memory,
    }
}

/// Reads the plan, of 1,048,576 bytes at most and one more that shows that it is longer, and writes
/// `plan connections N turns T` where it is accepted.
pub fn check_plan<P: Source, K: Sink>(
    alloc: Global,
    plan: &mut P,
    report: &mut K,
) -> Result<Checked, Memory>
    ensures run { CheckRun (source_view P.Source plan.old) (source_view P.Source plan.new) (sink_view K.Sink report.old)
        (sink_view K.Sink report.new) (check_status result) }
    ensures refused { IsRefusal (check_status result) → report.new ≡ report.old }
{
    match read_plan(alloc, plan)? {
        Planned::Accepted(plan) => tell_plan(alloc, &plan, report),
        Planned::Refused(error, place) => Ok(Checked::Refused(error, place)),
        Planned::Fault => Ok(Checked::PlanFault),
    }
}

// Writes how large an accepted plan is.
fn tell_plan<K: Sink>(alloc: Global, plan: &Plan, report: &mut K) -> Result<Checked, Memory>
    ensures told { PlanTold (check_status result) plan.now (K.got report.old) (K.got report.new) }
    ensures later { SinkLater (sink_view K.Sink report.old) (sink_view K.Sink report.new) }
    ensures counts { CountsBy Status.ReportFault (check_status result) (K.faults report.old) (K.faults report.new) }
    ensures refused { IsRefusal (check_status result) → report.new ≡ report.old }
{
    let line = plan_line(alloc, plan)?;
    match write_whole(report, line.as_bytes()) {
        Written::Whole => Ok(Checked::Told),
        Written::Lost => Ok(Checked::ReportFault),
    }
}

// The line that says how large a plan is.
fn plan_line(alloc: Global, plan: &Plan) -> Result<String, AllocError>
    ensures { IfOk result (λ line. string_bytes line ≡ plan_text plan.now) }
{
    let connections = plan.connections.as_slice().len();
    let turns = plan.turns;
    format!(in alloc; "plan connections {connections} turns {turns}\n")
}
