// A node that is driven turn by turn.
ghost use Rattle.std.specs.Prelude.{◌≡◌, ◌≢◌, ◌≤◌, ◌<◌, ◌+◌, ◌↔◌, [], None, Ok, IfOk, IsTrue, MatchOption};
ghost use Rattle.plan_file.specs.Answer.{fault_in};
ghost use Rattle.device_model.specs.Report.{report_text};
ghost use Rattle.device_model.specs.RunNumbers.{numbers_of_run};
ghost use Rattle.node_moments.specs.Stands.{no_bytes};
ghost use Rattle.live_laws.specs.Live.{AreServed, LiveStands};
ghost use Rattle.live_laws.specs.LiveTurns.{inputs_of, HaveLeft};
ghost use Rattle.live_node.specs.Kept.{HandsOutSince, KeepsAll, KeepsOutputs};
ghost use Rattle.live_node.specs.Live.{GoesOn, HasLeft, IsStill, PutsOut, PutsOutOfLine, PutsOutOfPackets, TakesLine, TakesPackets, TellsNow};
ghost use Rattle.live_node.specs.Places.{places, line_kept, client_kept};

use crate::client_watch::{ClientWatch, are_lines};
use crate::kept::{keep_all, nothing_sent, sent_so_far};
use crate::line_watch::{LineWatch, are_frames};
use crate::places::{
    Places, client_kept, hand_in_client, hand_in_line, let_go_of_outputs, line_kept, open_places,
};
use crate::serving::serve_outputs;
use crate::{HandedIn, Lack};
use arrayvec::ArrayString;
use device_model::Outcome;
use network_core::end_turn;
use node_core::{Node, RunNumbers};
use otn_base::limits::{CLIENTS, LINES};
use otn_base::{LineKind, Memory, PortName};
use plan_file::{Connection, FromEnd, LineList, Plan};
use run_report::{REPORT_BYTES, put_report};
use std::alloc::Global;

/// What came of a turn.
#[derive(Clone, Copy, Debug, PartialEq, Eq)]
pub enum Turned {
    /// The turn is done, and what leaves in the next one is there.
    Done,
    /// This input lacks something for the turn: nothing was done.
    Waits(PortName),
    /// All turns of the plan were done: nothing was done.
    Over,
}

/// A node that carries a plan turn by turn. What leaves in a turn depends on what was handed in for the turns before it
/// alone, so it is there before anything is handed in for that turn.
#[derive(Drop)]
pub struct LiveNode {
    /// The plan.
    pub plan: Plan,
    /// The node, which says at which moment of the plan it stands.
    pub node: Node,
    /// Its places, in memory.
    pub bays: Places,
    lines: Vec<LineWatch>,
    clients: Vec<ClientWatch>,
    ghost accepted: { fault_in plan ≡ None },
    ghost served: { AreServed node },
}

impl LiveNode {
    /// A node of an accepted plan, before its first turn. What leaves in that is there.
    pub fn new(alloc: Global, plan: Plan) -> Result<LiveNode, Memory>
        requires accepted { fault_in plan ≡ None }
        ensures stands { IfOk result (λ live. LiveStands plan no_bytes live.node (places live.bays)) }
        ensures turns { IfOk result (λ live. live.node.turns ≡ plan.turns) }
        ensures past { IfOk result (λ live. live.node.past ≡ 0) }
        ensures served { IfOk result (λ live. AreServed live.node) }
        ensures left { IfOk result (λ live. HaveLeft plan (inputs_of plan no_bytes) live.node (places live.bays)) }
        ensures handed { IfOk result (λ live. KeepsAll live.bays) }
        ensures plan { IfOk result (λ live. live.plan ≡ plan) }
    {
        let mut node = Node::build(alloc, &plan)?;
        let mut bays = open_places(alloc)?;
        let lines = line_watches(alloc, &plan, &node)?;
        let clients = client_watches(alloc, &plan)?;
        serve_outputs(&mut node, &mut bays);
        if !keep_all(&bays, &nothing_sent()) {
            return Err(Memory);
        }
        Ok(LiveNode {
            plan,
            node,
            bays,
            lines,
            clients,
        })
    }

    /// The turn that is next to be done, from 1.
    pub fn turn_number(&self) -> u32
        ensures { result ≡ self.now.node.past + 1 }
    {
        self.node.turn()
    }

    /// Whether all turns of the plan are done.
    pub fn is_over(&self) -> bool
        ensures { IsTrue result ↔ (self.now.node.turns ≤ self.now.node.past) }
    {
        self.node.finished()
    }

    /// Hands in whole frames of line input `a`, behind all others of it.
    pub fn hand_in_line(&mut self, a: u8, frames: &[u8]) -> Result<HandedIn, Memory>
        ensures taken { result ≡ Ok HandedIn.Taken → TakesLine a frames.now self.old.node self.new.node
            (places self.old.bays) (places self.new.bays) }
        ensures left { result ≡ Ok HandedIn.Taken → PutsOutOfLine a frames.now self.old.node self.new.node
            (places self.old.bays) (places self.new.bays) }
        ensures still { result ≢ Ok HandedIn.Taken → IsStill self.old.node self.new.node (places self.old.bays)
            (places self.new.bays) }
        ensures kept { KeepsOutputs self.old.bays self.new.bays }
        ensures plan { self.new.plan ≡ self.old.plan }
    {
        if a >= LINES as u8 {
            return Ok(HandedIn::NoInput);
        }
        if !are_frames(frames) {
            return Ok(HandedIn::NotWhole);
        }
        if !self.is_open_line(a) {
            return Ok(HandedIn::NoInput);
        }
        self.note_line(a, frames)?;
        let answer = hand_in_line(&mut self.bays, a, frames);
        self.line_answered(a, &answer, frames);
        answer
    }

    /// Hands in lines of packets of client input `n`, behind all others of it.
    pub fn hand_in_client(&mut self, n: u8, text: &[u8]) -> Result<HandedIn, Memory>
        ensures taken { result ≡ Ok HandedIn.Taken → TakesPackets n text.now self.old.node self.new.node
            (places self.old.bays) (places self.new.bays) }
        ensures left { result ≡ Ok HandedIn.Taken → PutsOutOfPackets n text.now self.old.node self.new.node
            (places self.old.bays) (places self.new.bays) }
        ensures still { result ≢ Ok HandedIn.Taken → IsStill self.old.node self.new.node (places self.old.bays)
            (places self.new.bays) }
        ensures kept { KeepsOutputs self.old.bays self.new.bays }
        ensures plan { self.new.plan ≡ self.old.plan }
    {
        if n >= CLIENTS as u8 {
            return Ok(HandedIn::NoInput);
        }
        if !are_lines(text) {
            return Ok(HandedIn::NotWhole);
        }
        if !self.is_open_client(n) {
            return Ok(HandedIn::NoInput);
        }
        let answer = hand_in_client(&mut self.bays, n, text);
        self.client_answered(n, &answer, text);
        answer
    }

    /// Ends line input `a`: no more frames come.
    pub fn end_line(&mut self, a: u8)
        ensures still { IsStill self.old.node self.new.node (places self.old.bays) (places self.new.bays) }
        ensures kept { KeepsOutputs self.old.bays self.new.bays }
        ensures plan { self.new.plan ≡ self.old.plan }
    {
        if let Some(watch) = self.lines.get_mut(a as usize) {
            watch.close();
        }
    }

    /// Ends client input `n`: no more packets come.
    pub fn end_client(&mut self, n: u8)
        ensures still { IsStill self.old.node self.new.node (places self.old.bays) (places self.new.bays) }
        ensures kept { KeepsOutputs self.old.bays self.new.bays }
        ensures plan { self.new.plan ≡ self.old.plan }
    {
        if let Some(watch) = self.clients.get_mut(n as usize) {
            watch.close();
        }
    }

    /// What client input `n` lacks for the next turn.
    pub fn client_lack(&self, n: u8) -> Lack {
        match self.clients.get(n as usize) {
            Some(watch) => watch.lack(),
            None => Lack {
                packet: 0,
                lines: 0,
            },
        }
    }

    /// Does a turn over what was handed in, and makes what leaves in the next one. What left in this one is let go of.
    /// It answers `Memory` where there was none for what leaves.
    pub fn do_turn(&mut self) -> Result<Turned, Memory>
        ensures stands { GoesOn self.old.node self.new.node (places self.old.bays) (places self.new.bays) }
        ensures done { result ≡ Ok Turned.Done → self.new.node.past ≡ self.old.node.past + 1 }
        ensures served { result ≡ Ok Turned.Done → AreServed self.new.node }
        ensures left { PutsOut self.old.node self.new.node (places self.old.bays) (places self.new.bays) }
        ensures handed { result ≡ Ok Turned.Done → HandsOutSince self.old.node (places self.old.bays) self.new.bays }
        ensures over { result ≡ Ok Turned.Over → self.old.node.turns ≤ self.old.node.past }
        ensures still { (turned : Turned) → result ≡ Ok turned → turned ≢ Turned.Done → IsStill self.old.node
            self.new.node (places self.old.bays) (places self.new.bays) }
        ensures kept { (turned : Turned) → result ≡ Ok turned → turned ≢ Turned.Done
            → KeepsOutputs self.old.bays self.new.bays }
        ensures plan { self.new.plan ≡ self.old.plan }
    {
        if self.node.finished() {
            return Ok(Turned::Over);
        }
        if let Some(port) = self.short_input() {
            return Ok(Turned::Waits(port));
        }
        let_go_of_outputs(&mut self.bays);
        let sent = sent_so_far(&self.bays);
        end_turn(&mut self.node, &mut self.bays);
        serve_outputs(&mut self.node, &mut self.bays);
        end_lines(&mut self.lines);
        begin_clients(&mut self.clients, &self.plan, self.node.turn());
        if !keep_all(&self.bays, &sent) {
            return Err(Memory);
        }
        Ok(Turned::Done)
    }

    /// The frames of line output `b` that leave in the next turn.
    pub fn line_out(&self, b: u8) -> &[u8]
        requires few { b < 4 }
        ensures { result.now ≡ line_kept self.now.bays b }
    {
        line_kept(&self.bays, b)
    }

    /// The text of the packets that leave to client output `n` in the next turn.
    pub fn client_out(&self, n: u8) -> &[u8]
        requires few { n < 16 }
        ensures { result.now ≡ client_kept self.now.bays n }
    {
        client_kept(&self.bays, n)
    }

    /// The numbers of a run, once all turns of the plan were done: each line whose end was not seen is asked for one
    /// byte more. None before.
    pub fn finish(&mut self) -> Option<RunNumbers>
        ensures left { MatchOption result (self.old.node.past < self.old.node.turns) (λ numbers. HasLeft self.old.node
            (places self.old.bays) (places self.new.bays) (numbers_of_run numbers)) }
        ensures node { self.new.node ≡ self.old.node }
        ensures plan { self.new.plan ≡ self.old.plan }
    {
        if !self.node.finished() {
            return None;
        }
        let outcome = self.node.settle(&mut self.bays);
        Some(self.node.numbers(outcome))
    }

    /// The numbers of the node as it stands: packets and frames by now, and what each connection was in the last turn
    /// that is done. A run that is going on is unfinished.
    pub fn numbers_now(&self) -> RunNumbers
        ensures { TellsNow self.now.node (numbers_of_run result) }
    {
        self.node.numbers(Outcome::Unfinished)
    }

    /// Puts the report of a run with these numbers into the empty text.
    pub fn put_report(&self, numbers: &RunNumbers, text: &mut ArrayString<REPORT_BYTES>)
        requires empty { text.old.bytes ≡ [] }
        ensures { text.new.bytes ≡ report_text self.now.plan (numbers_of_run numbers.now) (places self.now.bays) }
    {
        put_report(text, &self.plan, numbers, &self.bays);
    }

    // ---- whether a turn may be done

    // The first input that lacks something for the turn.
    fn short_input(&self) -> Option<PortName> {
        for a in 0..LINES as u8 {
            if is_short_line(self.lines.get(a as usize)) {
                return Some(PortName::LineIn(a));
            }
        }
        for n in 0..CLIENTS as u8 {
            if is_short_client(self.clients.get(n as usize)) {
                return Some(PortName::ClientIn(n));
            }
        }
        None
    }

    // ---- the watches of the inputs

    fn is_open_line(&self, a: u8) -> bool {
        match self.lines.get(a as usize) {
            Some(watch) => watch.is_open(),
            None => false,
        }
    }

    fn is_open_client(&self, n: u8) -> bool {
        match self.clients.get(n as usize) {
            Some(watch) => watch.is_open(),
            None => false,
        }
    }

    // Frames of a line are to be handed in.
    fn note_line(&mut self, a: u8, frames: &[u8]) -> Result<(), Memory>
        ensures still { IsStill self.old.node self.new.node (places self.old.bays) (places self.new.bays) }
        ensures bays { self.new.bays ≡ self.old.bays }
        ensures plan { self.new.plan ≡ self.old.plan }
    {
        match self.lines.get_mut(a as usize) {
            Some(watch) => watch.note(frames),
            None => Ok(()),
        }
    }

    // They were, with this answer.
    fn line_answered(&mut self, a: u8, answer: &Result<HandedIn, Memory>, frames: &[u8])
        ensures still { IsStill self.old.node self.new.node (places self.old.bays) (places self.new.bays) }
        ensures bays { self.new.bays ≡ self.old.bays }
        ensures plan { self.new.plan ≡ self.old.plan }
    {
        if let Some(watch) = self.lines.get_mut(a as usize) {
            match answer {
                Ok(HandedIn::Taken) => {}
                Ok(_) => watch.close(),
                Err(_) => watch.take_back(frames),
            }
        }
    }

    // A text was handed in at a client, with this answer.
    fn client_answered(&mut self, n: u8, answer: &Result<HandedIn, Memory>, text: &[u8])
        ensures still { IsStill self.old.node self.new.node (places self.old.bays) (places self.new.bays) }
        ensures bays { self.new.bays ≡ self.old.bays }
        ensures plan { self.new.plan ≡ self.old.plan }
    {
        if let Some(watch) = self.clients.get_mut(n as usize) {
            match answer {
                Ok(HandedIn::Taken) => watch.note(text),
                Ok(_) => watch.close(),
                Err(_) => {}
            }
        }
    }
}

fn is_short_line(watch: Option<&LineWatch>) -> bool {
    match watch {
        Some(watch) => !watch.covers_turn(),
        None => false,
    }
}

fn is_short_client(watch: Option<&ClientWatch>) -> bool {
    match watch {
        Some(watch) => !watch.covers_turn(),
        None => false,
    }
}

// The watches of all lines in; one that the plan does not use has ended.
fn line_watches(alloc: Global, plan: &Plan, node: &Node) -> Result<Vec<LineWatch>, Memory> {
    let mut watches = Vec::new(alloc);
    for a in 0..LINES as u8 {
        let kind = kind_of(&plan.otu3_in, a);
        let scrambled = plan.scrambled_in.as_slice().contains(&a);
        let mut watch = LineWatch::new(alloc, kind, scrambled);
        if !node.ready(PortName::LineIn(a)) {
            watch.close();
        }
        watches.push(watch)?;
    }
    Ok(watches)
}

// The watches of all clients in; one that the plan does not use has ended.
fn client_watches(alloc: Global, plan: &Plan) -> Result<Vec<ClientWatch>, Memory> {
    let mut watches = Vec::new(alloc);
    for n in 0..CLIENTS as u8 {
        watches.push(client_watch(plan, n))?;
    }
    Ok(watches)
}

fn client_watch(plan: &Plan, n: u8) -> ClientWatch {
    match client_connection(plan, n) {
        Some(connection) => {
            let mut watch = ClientWatch::new(connection.fcs);
            watch.begin_turn(pace_in(connection, 1));
            watch
        }
        None => {
            let mut watch = ClientWatch::new(false);
            watch.close();
            watch
        }
    }
}

// The turn of each line is done.
fn end_lines(watches: &mut Vec<LineWatch>) {
    for watch in watches.iter_mut() {
        watch.end_turn();
    }
}

// A turn of each client begins.
fn begin_clients(watches: &mut Vec<ClientWatch>, plan: &Plan, turn: u32) {
    for connection in plan.connections.as_slice() {
        if let FromEnd::Client(n) = &connection.from {
            if let Some(watch) = watches.get_mut(*n as usize) {
                watch.begin_turn(pace_in(connection, turn));
            }
        }
    }
}

// The kind of a line, by the list of those that are OTU3.
fn kind_of(otu3: &LineList, line: u8) -> LineKind {
    if otu3.as_slice().contains(&line) {
        LineKind::Otu3
    } else {
        LineKind::Otu2
    }
}

// The connection that comes from a client.
fn client_connection(plan: &Plan, n: u8) -> Option<&Connection> {
    for connection in plan.connections.as_slice() {
        if let FromEnd::Client(m) = &connection.from {
            if *m == n {
                return Some(connection);
            }
        }
    }
    None
}

// How many bytes a connection takes of its client in this turn of the plan: none where it is not active.
fn pace_in(connection: &Connection, turn: u32) -> u64 {
    if turn < connection.start || turn > connection.stop {
        return 0;
    }
    let list = connection.pace.as_slice();
    let at = (turn - connection.start) as usize;
    match at.checked_rem(list.len()) {
        Some(n) => pace_at(list, n),
        None => 0,
    }
}

fn pace_at(list: &[u32], n: usize) -> u64 {
    match list.get(n) {
        Some(pace) => *pace as u64,
        None => 0,
    }
}
