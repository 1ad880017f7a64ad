// A call of the library.
ghost use Rattle.std.specs.Prelude.{◌≡◌, ◌≢◌, ◌≤◌, ◌⊎◌, IfOk, length};
ghost use Rattle.port_base.specs.PortViews.{sink_view};
ghost use Rattle.port_base.specs.Racks.{bays_view};
ghost use Rattle.otn_c.specs.Calls.{CallEnds, Called, IsHandedOut, IsNoCall, Tells, no_call, no_memory};

use crate::answer::Answer;
use crate::answered::answer;
use crate::blocks::put;
use crate::outputs::{PORTS, put_outputs};
use crate::places::{Places, places_of};
use crate::rooms::rooms_of;
use crate::words::words_of;
use crate::{GrowingSink, SliceSource};
use line_tool::Status;
use otn_base::Memory;
use port_base::{Sink, Source};
use std::alloc::Global;

// The answer where there was no memory.
const NO_MEMORY: u32 = 7;

// The answer where there was too little room for the outputs or the report.
const NO_ROOM: u32 = 8;

// The answer to what is no call.
const NO_CALL: u32 = 9;

/// Answers the words over the inputs, with the plan, and hands out what outputs and report got; or says that this is no
/// call, or that there was no memory.
pub(crate) fn answer_call(
    alloc: Global,
    words: &[u8],
    plan: &[u8],
    inputs: &[u8],
    ends: &[usize],
    present: &[u8],
    outputs: &mut [u8],
    output_ends: &mut [usize],
    report: &mut [u8],
    told: &mut Answer,
) -> u32
    ensures called { result ≢ no_memory → result ≢ no_call
        → Called words.now plan.now inputs.now ends.now present.now result told.new outputs.new output_ends.new
        report.new }
    ensures none { result ≡ no_call → IsNoCall words.now inputs.now ends.now present.now output_ends.old }
    ensures refused { IsNoCall words.now inputs.now ends.now present.now output_ends.old
        → (result ≡ no_call) ⊎ (result ≡ no_memory) }
    ensures codes { result ≤ no_call }
{
    if ends.len() != PORTS || present.len() != PORTS || output_ends.len() != PORTS {
        return NO_CALL;
    }
    match call(
        alloc,
        words,
        plan,
        inputs,
        ends,
        present,
        outputs,
        output_ends,
        report,
        told,
    ) {
        Ok(code) => code,
        Err(Memory) => NO_MEMORY,
    }
}

// Answers the words over the inputs, with the plan, and hands out what outputs and report got.
fn call(
    alloc: Global,
    words: &[u8],
    plan: &[u8],
    inputs: &[u8],
    ends: &[usize],
    present: &[u8],
    outputs: &mut [u8],
    output_ends: &mut [usize],
    report: &mut [u8],
    told: &mut Answer,
) -> Result<u32, Memory>
    requires ends { length ends.now ≡ 20 }
    requires present { length present.now ≡ 20 }
    requires output_ends { length output_ends.old ≡ 20 }
    ensures { IfOk result (λ code. CallEnds words.now plan.now inputs.now ends.now present.now code told.new outputs.new
        output_ends.new report.new) }
{
    let Some(list) = words_of(alloc, words)? else {
        return Ok(NO_CALL);
    };
    let rooms = rooms_of(alloc, &list, plan, ends)?;
    let Some(mut bays) = places_of(alloc, inputs, ends, present, &rooms)? else {
        return Ok(NO_CALL);
    };
    let mut got = GrowingSink::new(alloc);
    let status = answer(alloc, &list, plan, &mut bays, &mut got);
    let code = hand_out(status, &bays, &got, outputs, output_ends, report, told)?;
    Ok(code)
}

// Hands out what outputs and report got, where there is room for all of it, and tells how much it is.
fn hand_out(
    status: Status,
    bays: &Places<'_>,
    got: &GrowingSink,
    outputs: &mut [u8],
    output_ends: &mut [usize],
    report: &mut [u8],
    told: &mut Answer,
) -> Result<u32, Memory>
    requires ends { length output_ends.old ≡ 20 }
    ensures { IfOk result (λ code. IsHandedOut code status
        (bays_view ⟦<SliceSource<'static> as Source>⟧ ⟦<GrowingSink as Sink>⟧ bays.now)
        (sink_view ⟦<GrowingSink as Sink>⟧ got.now)
        told.new outputs.new output_ends.new report.new) }
{
    let Some(total) = put_outputs(bays, outputs, output_ends) else {
        return Err(Memory);
    };
    let bytes = got.bytes();
    *told = told_of(status, bytes.len(), total);
    if outputs.len() < total || report.len() < bytes.len() {
        return Ok(NO_ROOM);
    }
    put(report, 0, bytes);
    Ok(told.status)
}

// What is told of a status, beside how many bytes there are.
fn told_of(status: Status, report: usize, outputs: usize) -> Answer
    ensures tells { Tells status result }
    ensures report { result.report ≡ report }
    ensures outputs { result.outputs ≡ outputs }
{
    let (rule, place) = match status {
        Status::Plan(error, place) => (error.code() as u32, place),
        _ => (0, 0),
    };
    Answer {
        status: status.code() as u32,
        rule,
        place,
        report,
        outputs,
    }
}
