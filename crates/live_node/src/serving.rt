// All pieces of the outputs in a turn.
ghost use Rattle.std.specs.Prelude.{◌≡◌, ◌<◌, ℕ, false};
ghost use Rattle.otn_base.specs.declared.kind.PortName.{PortName};
ghost use Rattle.otn_base.specs.declared.kind.PortName.TheVariants.{LineOut as line-out, ClientOut as client-out};
ghost use Rattle.port_base.specs.Racks.{bays_view};
ghost use Rattle.node_core.specs.Growing.{OutputsGrow};
ghost use Rattle.node_moments.specs.NodeView.{IsNode, is_ready};
ghost use Rattle.network_core.specs.Turns.{LeadsLater};
ghost use Rattle.live_laws.specs.Live.{AreServed};
ghost use Rattle.live_node.specs.Served.{StaysServed};

use node_core::Node;
use otn_base::PortName;
use otn_base::limits::{CLIENTS, LINES};
use port_base::{Rack, Sink, Source};

/// All pieces of the outputs in this turn. No input is asked for anything.
pub(crate) fn serve_outputs<P: Source, K: Sink>(node: &mut Node, bays: &mut Rack<P, K>)
    ensures stands { LeadsLater node.old (bays_view P.Source K.Sink bays.old) node.new
        (bays_view P.Source K.Sink bays.new) }
    ensures turns { node.new.turns ≡ node.old.turns }
    ensures past { node.new.past ≡ node.old.past }
    ensures grows { OutputsGrow (bays_view P.Source K.Sink bays.old) (bays_view P.Source K.Sink bays.new) }
    ensures node { IsNode node.new }
    ensures served { AreServed node.new }
{
    serve_lines(node, bays);
    serve_clients(node, bays);
}

// All pieces of the lines out.
fn serve_lines<P: Source, K: Sink>(node: &mut Node, bays: &mut Rack<P, K>)
    ensures stands { LeadsLater node.old (bays_view P.Source K.Sink bays.old) node.new
        (bays_view P.Source K.Sink bays.new) }
    ensures turns { node.new.turns ≡ node.old.turns }
    ensures past { node.new.past ≡ node.old.past }
    ensures grows { OutputsGrow (bays_view P.Source K.Sink bays.old) (bays_view P.Source K.Sink bays.new) }
    ensures node { IsNode node.new }
    ensures served { (b : ℕ) → b < 4 → is_ready node.new (line-out b) ≡ false }
{
    for b in 0..LINES as u8 {
        serve(node, PortName::LineOut(b), bays);
    }
}

// All pieces of the clients out.
fn serve_clients<P: Source, K: Sink>(node: &mut Node, bays: &mut Rack<P, K>)
    ensures stands { LeadsLater node.old (bays_view P.Source K.Sink bays.old) node.new
        (bays_view P.Source K.Sink bays.new) }
    ensures turns { node.new.turns ≡ node.old.turns }
    ensures past { node.new.past ≡ node.old.past }
    ensures grows { OutputsGrow (bays_view P.Source K.Sink bays.old) (bays_view P.Source K.Sink bays.new) }
    ensures node { IsNode node.new }
    ensures kept { StaysServed node.old node.new }
    ensures served { (n : ℕ) → n < 16 → is_ready node.new (client-out n) ≡ false }
{
    for n in 0..CLIENTS as u8 {
        serve(node, PortName::ClientOut(n), bays);
    }
}

// All pieces of a port.
fn serve<P: Source, K: Sink>(node: &mut Node, port: PortName, bays: &mut Rack<P, K>)
    ensures stands { LeadsLater node.old (bays_view P.Source K.Sink bays.old) node.new
        (bays_view P.Source K.Sink bays.new) }
    ensures turns { node.new.turns ≡ node.old.turns }
    ensures past { node.new.past ≡ node.old.past }
    ensures grows { OutputsGrow (bays_view P.Source K.Sink bays.old) (bays_view P.Source K.Sink bays.new) }
    ensures node { IsNode node.new }
    ensures kept { StaysServed node.old node.new }
    ensures served { is_ready node.new port ≡ false }
{
    while node.ready(port) {
        node.step(port, bays);
    }
}
