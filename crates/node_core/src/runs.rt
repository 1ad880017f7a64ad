// A whole run, in the order that a chooser says.
ghost use Rattle.std.specs.Prelude.{◌≡◌, ◌≤◌, ◌+◌, ℕ};
ghost use Rattle.port_base.specs.Bytes.{raised};
ghost use Rattle.port_base.specs.Racks.{bays_view};
ghost use Rattle.port_base.specs.Views.{BaysView};
ghost use Rattle.plan_file.specs.declared.plan.Plan.{Plan};
ghost use Rattle.device_model.specs.RunLeft.{Takings, RunLeft};
ghost use Rattle.device_model.specs.RunNumbers.{numbers_of_run};
ghost use Rattle.node_moments.specs.Stands.{InputBytes, StandsAt, Later, no_bytes};
ghost use Rattle.node_moments.specs.NodeView.{IsNode, left_of};

use crate::{Node, RunNumbers};
use port_base::{Chooser, Rack, Sink, Source};

/// Steps the ready port that the chooser says, its answer taken modulo their number, while one is ready; then ends the
/// turn; until the node is finished.
pub fn carry<P: Source, K: Sink, C: Chooser>(
    node: &mut Node,
    bays: &mut Rack<P, K>,
    chooser: &mut C,
)
    ensures stands { (plan : Plan) (first : BaysView) (read : InputBytes)
        → StandsAt plan first read node.old (bays_view P.Source K.Sink bays.old)
        → Later plan first read node.old node.new (bays_view P.Source K.Sink bays.new) }
    ensures finished { node.new.turns ≤ node.new.past }
    ensures turns { node.new.turns ≡ node.old.turns }
    ensures asked { C.asked chooser.new ≡ raised (C.asked chooser.old) (left_of node.old) }
    ensures node { IsNode node.new }
{
    while !node.finished() {
        let count = node.ready_count();
        if count == 0 {
            node.fence(bays);
        } else {
            let port = node.nth_ready(chooser.pick(count) % count);
            node.step(port, bays);
        }
    }
}

/// Carries a node through all its turns, settles it, and tells its numbers.
pub fn carry_node<C: Chooser, I: Source, O: Sink>(
    node: &mut Node,
    bays: &mut Rack<I, O>,
    chooser: &mut C,
) -> RunNumbers
    ensures left { (plan : Plan) (first : BaysView)
        → StandsAt plan first no_bytes node.old (bays_view I.Source O.Sink bays.old)
        → (takings : Takings) × RunLeft plan first (bays_view I.Source O.Sink bays.new) takings
        (numbers_of_run result) }
    ensures asked { C.asked chooser.new ≡ raised (C.asked chooser.old) (left_of node.old) }
{
    carry(node, bays, chooser);
    let outcome = node.settle(bays);
    node.numbers(outcome)
}
