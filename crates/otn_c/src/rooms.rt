// How much room is made for each output before a run, by its plan and by where its inputs end.
ghost use Rattle.std.specs.Prelude.{◌≡◌, ◌≤◌, IfOk, length};

use crate::outputs::PORTS;
use otn_base::Memory;
use otn_base::limits::{CLIENT_PAYLOAD_BYTES, LINE_FRAME_BYTES, LINES, OTU2_SLOTS, OTU3_SLOTS};
use plan_file::{Connection, FromEnd, LineList, NoPlan, Plan, ToEnd};
use std::alloc::Global;

/// How many bytes each output gets at most, lines and then clients: of a run by its plan and by where its inputs end,
/// and 0 of other commands.
pub(crate) fn rooms_of(
    alloc: Global,
    words: &[String],
    plan: &[u8],
    ends: &[usize],
) -> Result<Vec<usize>, Memory>
    ensures { IfOk result (λ rooms. length rooms.items ≡ 20) }
{
    let plan = plan_of(alloc, words, plan)?;
    let mut rooms = Vec::new(alloc);
    for output in 0..PORTS {
        rooms.push(room_by(&plan, output, ends))?;
    }
    Ok(rooms)
}

// The plan of a run; none of other commands, and none where the text is refused.
fn plan_of(alloc: Global, words: &[String], plan: &[u8]) -> Result<Option<Plan>, Memory> {
    if !runs_a_plan(words) {
        return Ok(None);
    }
    match Plan::read(alloc, plan) {
        Ok(plan) => Ok(Some(plan)),
        Err(NoPlan::Refused(..)) => Ok(None),
        Err(NoPlan::Memory) => Err(Memory),
    }
}

// Whether the words are those of a run, or begin as they do.
fn runs_a_plan(words: &[String]) -> bool {
    matches!(words.first(), Some(word) if word.as_str() == "run")
}

// How many bytes an output gets at most where there is a plan.
fn room_by(plan: &Option<Plan>, output: usize, ends: &[usize]) -> usize {
    match plan {
        Some(plan) => room_at(plan, output, ends),
        None => 0,
    }
}

// The output that a connection goes to, among lines and clients.
fn output_of(x: &Connection) -> usize {
    match &x.to {
        ToEnd::Line(b, _, _) => *b as usize,
        ToEnd::Client(n) => LINES + *n as usize,
    }
}

// How many bytes an output gets at most, by the first connection that goes to it.
fn room_at(plan: &Plan, output: usize, ends: &[usize]) -> usize {
    for x in plan.connections.as_slice() {
        if output_of(x) == output {
            return room_of(plan, x, ends);
        }
    }
    0
}

// How many bytes the output of a connection gets at most: so much is asked for at once, and each page is made when it
// is first written.
fn room_of(plan: &Plan, connection: &Connection, ends: &[usize]) -> usize {
    match &connection.to {
        ToEnd::Line(b, _, _) => frames_of(plan.turns, &plan.otu3_out, *b).saturating_mul(
            LINE_FRAME_BYTES,
        ),
        ToEnd::Client(_) => text_of(plan, connection, ends),
    }
}

// Frames of a line in all turns of a plan.
fn frames_of(turns: u32, otu3: &LineList, line: u8) -> usize {
    (turns as usize).saturating_mul(slots_of(otu3, line))
}

// Slots of a line, and frames in its multiframe.
fn slots_of(otu3: &LineList, line: u8) -> usize
    ensures { 8 ≤ result }
{
    if otu3.as_slice().contains(&line) {
        OTU3_SLOTS
    } else {
        OTU2_SLOTS
    }
}

// Bytes of a client's text at most: two digits for each byte of its slots, in each frame that its line has. A packet
// stands with eight bytes and more about it, so its line feed is counted too.
fn text_of(plan: &Plan, connection: &Connection, ends: &[usize]) -> usize {
    match &connection.from {
        FromEnd::Line(a, _, slots) => {
            let frames = frames_of(plan.turns, &plan.otu3_in, *a).min(
                size_of(ends, *a as usize) / LINE_FRAME_BYTES,
            );
            let payload = frames.saturating_mul(CLIENT_PAYLOAD_BYTES);
            let own = payload / slots_of(&plan.otu3_in, *a);
            own.saturating_mul(slots.as_slice().len()).saturating_mul(2)
        }
        FromEnd::Client(n) => size_of(ends, LINES + *n as usize),
        FromEnd::Signal(_) => 0,
    }
}

// Bytes of input n.
fn size_of(ends: &[usize], n: usize) -> usize {
    let end = end_of(ends, n);
    if n == 0 {
        return end;
    }
    end.saturating_sub(end_of(ends, n - 1))
}

// Where input n ends, by what was handed in.
fn end_of(ends: &[usize], n: usize) -> usize {
    match ends.get(n) {
        Some(end) => *end,
        None => 0,
    }
}
