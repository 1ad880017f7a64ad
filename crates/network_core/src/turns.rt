// What is left of a node's turn, and its end.
ghost use Rattle.std.specs.Prelude.{◌≡◌, ◌<◌, ◌+◌};
ghost use Rattle.port_base.specs.Racks.{bays_view};
ghost use Rattle.node_core.specs.Growing.{OutputsGrow};
ghost use Rattle.node_moments.specs.NodeView.{IsNode};
ghost use Rattle.network_core.specs.Turns.{LeadsLater};

use node_core::Node;
use port_base::{Rack, Sink, Source};

/// All pieces of the turn that are not done yet, and its end.
pub fn end_turn<P: Source, K: Sink>(node: &mut Node, bays: &mut Rack<P, K>)
    requires going { node.old.past < node.old.turns }
    ensures stands { LeadsLater node.old (bays_view P.Source K.Sink bays.old)
        node.new (bays_view P.Source K.Sink bays.new) }
    ensures turns { node.new.turns ≡ node.old.turns }
    ensures past { node.new.past ≡ node.old.past + 1 }
    ensures grows { OutputsGrow (bays_view P.Source K.Sink bays.old) (bays_view P.Source K.Sink bays.new) }
    ensures node { IsNode node.new }
{
    while node.ready_count() != 0 {
        let port = node.nth_ready(0);
        node.step(port, bays);
    }
    node.fence(bays);
}
