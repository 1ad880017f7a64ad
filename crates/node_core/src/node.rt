// The node: a state machine, stepped port by port.
ghost use Rattle.std.specs.Prelude.{◌≡◌, ◌≤◌, ◌<◌, ◌+◌, ◌*◌, ◌↔◌, ◌&&◌, nat_lt, ℕ, true, false, None, IfOk, IsTrue};
ghost use Rattle.otn_base.specs.declared.kind.PortName.{PortName};
ghost use Rattle.otn_base.specs.declared.kind.PortName.TheVariants.{LineIn as line-in, LineOut as line-out, ClientIn as client-in, ClientOut as client-out};
ghost use Rattle.port_base.specs.InPlace.{in_view};
ghost use Rattle.port_base.specs.OutPlace.{out_view};
ghost use Rattle.port_base.specs.Places.{OnlyPort};
ghost use Rattle.port_base.specs.Racks.{bays_view};
ghost use Rattle.port_base.specs.Views.{BaysView};
ghost use Rattle.plan_file.specs.Answer.{fault_in};
ghost use Rattle.plan_file.specs.declared.plan.Plan.{Plan};
ghost use Rattle.node_core.specs.Growing.{OutputsGrow};
ghost use Rattle.node_links.specs.Retiring.{RetiredBy};
ghost use Rattle.node_moments.specs.NodeMoves.{FenceMove};
ghost use Rattle.node_moments.specs.Steps.NodeMoves.{LineInMove, LineOutMove, ClientInMove, ClientOutMove};
ghost use Rattle.device_model.specs.Moments.{over_ports, pieces_of};
ghost use Rattle.node_moments.specs.NodeView.{NodeView, IsNode, is_ready, left_of, ready_number};
ghost use Rattle.turn_pieces.specs.Pieces.{open_count, IsNth, IsCounted};
ghost use Rattle.node_moments.specs.Stands.{InputBytes, StandsAt, Later, no_bytes};

use line_side::{LineIn, LineOut};
use node_links::{
    Link, end_lines, fence_all, give_client, read_line, retire_all, start_all, take_client,
    write_line,
};
use node_moments::{new_lines_in, new_lines_out, new_links};
use odtu_columns::{SlotFrame, SlotPayload};
use otn_base::{Memory, PortName};
use plan_file::Plan;
use port_base::{InPlaceOf, OutPlaceOf, Rack, Sink, Source};
use std::alloc::Global;
use std::marker::Model;
use turn_pieces::Pieces;

/// A node that carries a plan: in turn past + 1, of which each port has done some of its pieces. Each call that makes
/// or changes one hands out what holds of every node, and so do `finished` and `ready`, which change nothing.
#[derive(Drop)]
pub struct Node {
    pub(crate) turns: u32,
    pub(crate) past: u32,
    pub(crate) pieces: Pieces,
    pub(crate) lines_in: Vec<LineIn>,
    pub(crate) lines_out: Vec<LineOut>,
    pub(crate) links: Vec<Link>,
    // In hand only within a step of a line.
    pub(crate) payload: SlotPayload,
    pub(crate) slots: SlotFrame,
}

impl Model for Node {
    ghost use Rattle.std.specs.Prelude.{vec_len};
    ghost use Rattle.node_moments.specs.NodeView.{NodeView, IsNode};

    ghost Value = { NodeView };

    ghost view = { λ n. record { turns = n.turns; past = n.past; pieces = n.pieces; lines_in = n.lines_in.items; lines_out = n.lines_out.items; links = n.links.items } };

    ghost invariant = { λ n. IsNode (record { turns = n.turns; past = n.past; pieces = n.pieces; lines_in = n.lines_in.items; lines_out = n.lines_out.items; links = n.links.items }) };
}

impl Node {
    /// A node before turn 1 of an accepted plan, whose connections of turn 1 have started. Takes all memory of the run;
    /// answers `Memory` where there is none.
    pub fn build(alloc: Global, plan: &Plan) -> Result<Node, Memory>
        requires accepted { fault_in plan.now ≡ None }
        ensures stands { IfOk result (λ node. (first : BaysView) → StandsAt plan.now first no_bytes node first) }
        ensures turns { IfOk result (λ node. node.turns ≡ plan.now.turns) }
        ensures past { IfOk result (λ node. node.past ≡ 0) }
        ensures left { IfOk result (λ node. left_of node ≡ over_ports (pieces_of plan.now) * plan.now.turns) }
        ensures node { IfOk result (λ node. IsNode node) }
    {
        let pieces = Pieces::of_plan(alloc, plan)?;
        let lines_in = new_lines_in(alloc, plan)?;
        let lines_out = new_lines_out(alloc, plan)?;
        let links = new_links(alloc, plan)?;
        let payload = SlotPayload::new(alloc)?;
        let slots = SlotFrame::new(alloc)?;
        Ok(Node {
            turns: plan.turns,
            past: 0,
            pieces,
            lines_in,
            lines_out,
            links,
            payload,
            slots,
        })
    }

    /// The turn, from 1.
    pub fn turn(&self) -> u32
        ensures { result ≡ self.now.past + 1 }
    {
        self.past + 1
    }

    /// Whether it is past its last turn.
    pub fn finished(&self) -> bool
        ensures over { IsTrue result ↔ (self.now.turns ≤ self.now.past) }
        ensures node { IsNode self.now }
    {
        self.past >= self.turns
    }

    /// Whether the port may be stepped: the plan uses it, a turn is going, and it has pieces left in it.
    pub fn ready(&self, port: PortName) -> bool
        ensures ready { result ≡ is_ready self.now port }
        ensures node { IsNode self.now }
    {
        self.past < self.turns && self.pieces.is_open(port)
    }

    /// How many ports are ready.
    pub fn ready_count(&self) -> u32
        ensures { result ≡ ready_number self.now }
    {
        if self.past < self.turns {
            self.pieces.open_count()
        } else {
            0
        }
    }

    /// The i-th port that is ready, from 0: lines in, lines out, clients in, clients out, each by number.
    pub fn nth_ready(&self, i: u32) -> PortName
        requires { i < ready_number self.now }
        ensures ready { is_ready self.now result ≡ true }
        ensures nth { IsNth self.now.pieces i result }
    {
        self.pieces.nth_open(i)
    }

    /// One piece of a port that is ready: a frame of a line (and the lead-in before it, in a hunt), or what a client
    /// brings or gets in the turn.
    pub fn step<P: Source, K: Sink>(&mut self, port: PortName, bays: &mut Rack<P, K>)
        requires ready { is_ready self.old port ≡ true }

        // from any moment of any accepted plan this leads to the moment with one piece more of this port
        ensures stands { (plan : Plan) (first : BaysView) (read : InputBytes)
            → StandsAt plan first read self.old (bays_view P.Source K.Sink bays.old)
            → Later plan first read self.old self.new (bays_view P.Source K.Sink bays.new) }
        ensures piece { IsCounted port self.old.pieces self.new.pieces }
        ensures turns { self.new.turns ≡ self.old.turns }
        ensures past { self.new.past ≡ self.old.past }
        ensures only { OnlyPort port (bays_view P.Source K.Sink bays.old) (bays_view P.Source K.Sink bays.new) }
        ensures grows { OutputsGrow (bays_view P.Source K.Sink bays.old) (bays_view P.Source K.Sink bays.new) }
        ensures node { IsNode self.new }
    {
        match port {
            PortName::LineIn(a) => self.step_line_in(a, bays.line_in_mut(a)),
            PortName::LineOut(b) => self.step_line_out(b, bays.line_out_mut(b)),
            PortName::ClientIn(n) => self.step_client_in(n, bays.client_in_mut(n)),
            PortName::ClientOut(n) => self.step_client_out(n, bays.client_out_mut(n)),
        }
    }

    fn step_line_in<P: Source>(&mut self, a: u8, place: &mut InPlaceOf<P>)
        requires { is_ready self.old (line-in a) ≡ true }
        ensures moves { LineInMove a self.old (in_view P.Source place.old) self.new (in_view P.Source place.new) }
        ensures node { IsNode self.new }
    {
        self.pieces.count(PortName::LineIn(a));
        read_line(
            &mut self.lines_in[a as usize],
            a,
            self.past,
            &mut self.links,
            &mut self.payload,
            place,
        );
    }

    fn step_line_out<K: Sink>(&mut self, b: u8, place: &mut OutPlaceOf<K>)
        requires { is_ready self.old (line-out b) ≡ true }
        ensures moves { LineOutMove b self.old (out_view K.Sink place.old) self.new (out_view K.Sink place.new) }
        ensures node { IsNode self.new }
    {
        let n = self.pieces.done(PortName::LineOut(b));
        self.pieces.count(PortName::LineOut(b));
        write_line(
            &mut self.lines_out[b as usize],
            b,
            self.past,
            n,
            &mut self.links,
            &mut self.slots,
            place,
        );
    }

    fn step_client_in<P: Source>(&mut self, n: u8, place: &mut InPlaceOf<P>)
        requires { is_ready self.old (client-in n) ≡ true }
        ensures moves { ClientInMove n self.old (in_view P.Source place.old) self.new (in_view P.Source place.new) }
        ensures node { IsNode self.new }
    {
        self.pieces.count(PortName::ClientIn(n));
        take_client(n, self.past, &mut self.links, place);
    }

    fn step_client_out<K: Sink>(&mut self, n: u8, place: &mut OutPlaceOf<K>)
        requires { is_ready self.old (client-out n) ≡ true }
        ensures moves { ClientOutMove n self.old (out_view K.Sink place.old) self.new (out_view K.Sink place.new) }
        ensures node { IsNode self.new }
    {
        self.pieces.count(PortName::ClientOut(n));
        give_client(n, self.past, &mut self.links, place);
    }

    /// Ends the turn, no port being ready: client places are retired where their connection stops and says so,
    /// connections hand on what came, and those whose first turn is next start.
    pub fn fence<P: Source, K: Sink>(&mut self, bays: &mut Rack<P, K>)
        requires going { self.old.past < self.old.turns }
        requires none { (port : PortName) → is_ready self.old port ≡ false }

        // from any moment of any accepted plan this leads to the next turn, of which no piece is done
        ensures stands { (plan : Plan) (first : BaysView) (read : InputBytes)
            → StandsAt plan first read self.old (bays_view P.Source K.Sink bays.old)
            → Later plan first read self.old self.new (bays_view P.Source K.Sink bays.new) }
        ensures ends { FenceMove self.old self.new }
        ensures retired { RetiredBy self.old.past self.old.links (bays_view P.Source K.Sink bays.old)
            (bays_view P.Source K.Sink bays.new) }
        ensures node { IsNode self.new }
    {
        retire_all(&self.links, self.past, bays);
        self.next_turn();
    }

    fn next_turn(&mut self)
        requires going { self.old.past < self.old.turns }
        requires none { (port : PortName) → is_ready self.old port ≡ false }
        ensures ends { FenceMove self.old self.new }
        ensures node { IsNode self.new }
    {
        let wholes = end_lines(&mut self.lines_in, &self.pieces);
        fence_all(&mut self.links, self.past, &wholes);
        self.past += 1;
        start_all(&mut self.links, self.past);
        self.pieces.clear();
    }
}
