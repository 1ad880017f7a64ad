// A live node, and what is called of it.
ghost use Rattle.std.specs.Prelude.{◌≡◌, ◌≢◌, ◌≤◌, ◌<◌, [], Err, IfOk, MatchOption, MatchResult, None, Ok, is_some, nat_lt, true};
ghost use Rattle.plan_file.specs.Answer.{fault_in, plan_of_text};
ghost use Rattle.live_calls.specs.Held.{GoesFrom, IsReportOf, IsUntouched, Opened, OpenedPlan, Reports, Settles, Takes, TurnsOn, output_kept};

use arrayvec::ArrayString;
use device_model::RunNumbers;
use live_node::{HandedIn, Lack, LiveNode, Turned};
use otn_base::Memory;
use otn_base::limits::LINES;
use plan_file::{NoPlan, Plan};
use run_report::REPORT_BYTES;
use std::alloc::Global;

/// Inputs, and outputs, of a node: lines 0 to 3 and then clients 0 to 15, by numbers from 0.
pub const PORTS: u32 = 20;

/// A live node, and the numbers of its run once that is over and was reported.
#[derive(Drop)]
pub struct HeldNode {
    /// The node.
    pub live: LiveNode,
    /// The numbers of its run, once all turns were done and a report was made.
    pub ended: Option<RunNumbers>,
}

impl HeldNode {
    /// A node of the plan that the text says, before its first turn. What leaves in that is there. A text that is no
    /// plan is refused with the rule that it breaks first, and where.
    #[tactic(auto, using(crate::proofs::Opening::opened_of, crate::proofs::Opening::not_refused))]
    pub fn open(alloc: Global, text: &[u8]) -> Result<HeldNode, NoPlan>
        ensures opened { IfOk result (Opened text.now) }
        ensures refused { (broken : NoPlan) → result ≡ Err broken → broken ≢ NoPlan.Memory
            → plan_of_text text.now ≡ Err broken }
    {
        match Plan::read(alloc, text) {
            Ok(plan) => open_plan(alloc, plan),
            Err(broken) => Err(broken),
        }
    }

    /// Hands in bytes at input `input`, behind all others of it: whole frames of a line, whole lines of a client's
    /// text. Where it does not answer that they are taken, nothing is handed in.
    #[tactic(auto, using(crate::proofs::Calls::takes_line, crate::proofs::Calls::takes_packets))]
    pub fn hand_in(&mut self, input: u32, bytes: &[u8]) -> Result<HandedIn, Memory>
        ensures taken { result ≡ Ok HandedIn.Taken → Takes input bytes.now self.old self.new }
        ensures still { result ≢ Ok HandedIn.Taken → IsUntouched self.old self.new }
    {
        if input < LINES as u32 {
            return self.live.hand_in_line(input as u8, bytes);
        }
        if input < PORTS {
            return self
                .live
                .hand_in_client((input - LINES as u32) as u8, bytes);
        }
        Ok(HandedIn::NoInput)
    }

    /// Ends input `input`: no more comes. False where there is no such input.
    pub fn end_input(&mut self, input: u32) -> bool
        ensures there { result ≡ nat_lt input 20 }
        ensures still { IsUntouched self.old self.new }
    {
        if input < LINES as u32 {
            self.live.end_line(input as u8);
            return true;
        }
        if input < PORTS {
            self.live.end_client((input - LINES as u32) as u8);
            return true;
        }
        false
    }

    /// What input `input` lacks for the next turn, where it is a client: the bytes of a packet, and then so many empty
    /// lines.
    pub fn lack(&self, input: u32) -> Lack {
        if LINES as u32 <= input && input < PORTS {
            self.live.client_lack((input - LINES as u32) as u8)
        } else {
            Lack {
                packet: 0,
                lines: 0,
            }
        }
    }

    /// Does a turn over what was handed in, and makes what leaves in the next one. What left in this one is let go of.
    /// It answers `Memory` where there was none for what leaves.
    pub fn do_turn(&mut self) -> Result<Turned, Memory>
        ensures goes { GoesFrom self.old self.new }
        ensures done { result ≡ Ok Turned.Done → TurnsOn self.old self.new }
        ensures over { result ≡ Ok Turned.Over → self.old.live.node.turns ≤ self.old.live.node.past }
        ensures still { (turned : Turned) → result ≡ Ok turned → turned ≢ Turned.Done
            → IsUntouched self.old self.new }
    {
        self.live.do_turn()
    }

    /// What leaves at output `output` in the next turn. None where there is no such output.
    pub fn output(&self, output: u32) -> Option<&[u8]>
        ensures { MatchOption result (20 ≤ output) (λ bytes. (output < 20)
            × (bytes.now ≡ output_kept self.now output)) }
    {
        if output < LINES as u32 {
            return Some(self.live.line_out(output as u8));
        }
        if output < PORTS {
            return Some(self.live.client_out((output - LINES as u32) as u8));
        }
        None
    }

    /// Puts the report into the empty text: while turns are to come the numbers as they stand, and after the last turn
    /// those of the run.
    pub fn report(&mut self, text: &mut ArrayString<REPORT_BYTES>)
        requires empty { text.old.bytes ≡ [] }
        ensures { Reports self.old self.new text.new.bytes }
    {
        if !self.live.is_over() {
            let numbers = self.live.numbers_now();
            self.live.put_report(&numbers, text);
            return;
        }
        self.settle();
        self.report_end(text);
    }

    // Settles the run, unless that was done.
    #[tactic(auto, using(crate::proofs::Opening::numbers_left, crate::proofs::Opening::numbers_there))]
    fn settle(&mut self)
        requires over { self.old.live.node.turns ≤ self.old.live.node.past }
        ensures settles { Settles self.old self.new }
        ensures ended { is_some self.new.ended ≡ true }
    {
        if self.ended.is_none() {
            self.ended = self.live.finish();
        }
    }

    // Puts the report of the run that is over.
    fn report_end(&self, text: &mut ArrayString<REPORT_BYTES>)
        requires ended { is_some self.now.ended ≡ true }
        requires empty { text.old.bytes ≡ [] }
        ensures { IsReportOf self.now text.new.bytes }
    {
        if let Some(numbers) = &self.ended {
            self.live.put_report(numbers, text);
        }
    }
}

// A node of an accepted plan.
fn open_plan(alloc: Global, plan: Plan) -> Result<HeldNode, NoPlan>
    requires accepted { fault_in plan ≡ None }
    ensures { MatchResult result (OpenedPlan plan) (λ broken. broken ≡ NoPlan.Memory) }
{
    match LiveNode::new(alloc, plan) {
        Ok(live) => Ok(HeldNode { live, ended: None }),
        Err(Memory) => Err(NoPlan::Memory),
    }
}
