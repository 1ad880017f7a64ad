// What leaves on the lines of a node in a turn.
ghost use Rattle.std.specs.Prelude.{◌≡◌, ◌<◌, ℕ, false};
ghost use Rattle.otn_base.specs.declared.kind.PortName.TheVariants.{LineOut as line-out};
ghost use Rattle.port_base.specs.Racks.{bays_view};
ghost use Rattle.node_moments.specs.NodeView.{is_ready};
ghost use Rattle.node_core.specs.Growing.{OutputsGrow};
ghost use Rattle.network_core.specs.Turns.{LeadsLater};
ghost use Rattle.network_run.specs.Serving.{Unasked, StaysShut};

use node_core::Node;
use otn_base::PortName;
use otn_base::limits::LINES;
use port_base::{Rack, Sink, Source};

/// All pieces of the lines out in this turn. No input is asked for anything.
pub fn write_lines<P: Source, K: Sink>(node: &mut Node, bays: &mut Rack<P, K>)
    ensures stands { LeadsLater node.old (bays_view P.Source K.Sink bays.old) node.new
        (bays_view P.Source K.Sink bays.new) }
    ensures turns { node.new.turns ≡ node.old.turns }
    ensures past { node.new.past ≡ node.old.past }
    ensures grows { OutputsGrow (bays_view P.Source K.Sink bays.old) (bays_view P.Source K.Sink bays.new) }
    ensures unasked { Unasked (bays_view P.Source K.Sink bays.old) (bays_view P.Source K.Sink bays.new) }
    ensures all { (b : ℕ) → b < 4 → is_ready node.new (line-out b) ≡ false }
{
    for b in 0..LINES as u8 {
        write_line(node, b, bays);
    }
}

// All pieces of a line out.
fn write_line<P: Source, K: Sink>(node: &mut Node, b: u8, bays: &mut Rack<P, K>)
    ensures stands { LeadsLater node.old (bays_view P.Source K.Sink bays.old) node.new
        (bays_view P.Source K.Sink bays.new) }
    ensures turns { node.new.turns ≡ node.old.turns }
    ensures past { node.new.past ≡ node.old.past }
    ensures grows { OutputsGrow (bays_view P.Source K.Sink bays.old) (bays_view P.Source K.Sink bays.new) }
    ensures unasked { Unasked (bays_view P.Source K.Sink bays.old) (bays_view P.Source K.Sink bays.new) }
    ensures kept { StaysShut node.old node.new }
    ensures all { is_ready node.new (line-out b) ≡ false }
{
    while node.ready(PortName::LineOut(b)) {
        node.step(PortName::LineOut(b), bays);
    }
}
