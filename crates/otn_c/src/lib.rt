//! `otn` in the process that calls it, over bytes in memory: the static library behind `include/otn.h`.
//!
//! - `call`: a call, from the bytes that it is handed to those that it hands out.
//! - `answer`: what it tells beside the bytes.
//! - `answered`: its words, answered over places in memory.
//! - `node_calls`: the calls of a node that is driven turn by turn.
//! - `places`, `outputs`: the places of its inputs and outputs, and what the outputs got.
//! - `blocks`: parts that lie one behind the other in one slice.
//! - `growing_sink`: a sink in memory that grows.
//! - `laws`: the promise of isolation, of any two calls, by their bytes alone.
//! - `rooms`: how much room is made for each output before a run.
//! - `slice_source`: a source over bytes that are lent.
//! - `version`: the version of the library.
//! - `words`: the words of a line.
#![tactic(auto)]

ghost use Rattle.std.specs.Prelude.{◌≡◌, ◌≢◌, ◌≤◌, ◌⊎◌};
ghost use Rattle.otn_c.specs.Calls.{Called, IsNoCall, PlanOverBytes, PullOverBytes, SlotOverBytes, no_call, no_memory};

mod answer;
mod answered;
mod blocks;
mod call;
mod growing_sink;
mod laws;
mod node_calls;
mod outputs;
mod places;
mod rooms;
mod slice_source;
#[cfg(test)]
mod tests;
mod version;
mod words;

pub use answer::Answer;
use call::answer_call;
pub use growing_sink::GrowingSink;
pub use laws::headline_of_bytes;
use line_tool::{check_of_text, pull_of_given, run_of_text, slot_of_given};
pub use node_calls::{
    otn_close, otn_end, otn_hand_in, otn_lack, otn_left, otn_open, otn_report, otn_turn,
};
pub use slice_source::SliceSource;
use std::alloc::Global;
pub use version::otn_version;

/// Carries out a command of the program, over the bytes that it is handed. `run --pcap` is `run` here: clients bring
/// and get texts.
///
/// `words` are the words of a command with a blank between each two, as `run --order 7`. The 20 inputs, lines 0 to 3
/// and clients 0 to 15, stand one behind the other in `inputs`: input n ends before place `ends[n]` of it, and is there
/// where `present[n]` is not 0. What the 20 outputs got, in the same order, is put into `outputs`, and `output_ends`
/// says where each ends; what the report got is put to the front of `report`, and `told` says how long it is. Nothing
/// is kept from one call to the next.
///
/// The answer is the status of the command, 0 to 7 (`Status`). It is 8 where `outputs` or `report` has too little room:
/// `told` and `output_ends` say how much is wanted, and what the two hold is open. It is 9 where `ends`, `present` or
/// `output_ends` has not 20 members, `words` are no UTF-8, or an input ends before it begins or behind the block. At 7
/// there may have been no memory for the call itself, and what was handed out is open.
#[unsafe(no_mangle)]
pub extern "C" fn otn_run(
    alloc: Global,
    words: &[u8],
    plan: &[u8],
    inputs: &[u8],
    ends: &[usize],
    present: &[u8],
    outputs: &mut [u8],
    output_ends: &mut [usize],
    report: &mut [u8],
    told: &mut Answer,
) -> u32
    // The command is answered for over these bytes, and what its outputs and report got is handed out.
    ensures called { result ≢ no_memory → result ≢ no_call
        → Called words.now plan.now inputs.now ends.now present.now result told.new outputs.new output_ends.new
        report.new }
    // What is no call is refused, where there is memory to find it, and nothing else is.
    ensures none { result ≡ no_call → IsNoCall words.now inputs.now ends.now present.now output_ends.old }
    ensures refused { IsNoCall words.now inputs.now ends.now present.now output_ends.old
        → (result ≡ no_call) ⊎ (result ≡ no_memory) }
    ensures codes { result ≤ no_call }
    // Of `slot K`, by the bytes alone: the report is the slot's payload bytes in each whole frame of input 0.
    ensures slot { SlotOverBytes words.now inputs.now ends.now present.now result told.new report.new }
    // Of `pull PORT K,K`: what the sink of that tributary emits in each turn of input 0.
    ensures pull { PullOverBytes words.now inputs.now ends.now present.now result told.new report.new }
    // Of `check` and `run`: whether the text is a plan, and which rule it breaks first, and where.
    ensures plan { PlanOverBytes words.now plan.now result told.new report.new }
{
    slot_of_given();
    pull_of_given();
    check_of_text();
    run_of_text();
    answer_call(
        alloc,
        words,
        plan,
        inputs,
        ends,
        present,
        outputs,
        output_ends,
        report,
        told,
    )
}
