// A node of a network before its first turn, with its places.
ghost use Rattle.std.specs.Prelude.{◌≡◌, None, IfOk};
ghost use Rattle.plan_file.specs.Answer.{fault_in};
ghost use Rattle.network_run.specs.Sites.{rack_view, site_view};
ghost use Rattle.network_carry.specs.Opening.{KeepsEdges, SiteOpens};

use crate::ends::{put_far_ends, put_near_ends};
use network_file::FibreEnds;
use network_run::{NetIn, NetOut, Site};
use node_core::Node;
use otn_base::Memory;
use plan_file::Plan;
use port_base::{Rack, Sink, Source};
use std::alloc::Global;

/// The node of an accepted plan, before turn 1, over these places. It is the one with this index in its network, so the
/// ends of these fibres stand at its lines in place of what stood there; all other places are as they were. It takes
/// the memory of the node, and of what comes and leaves on its fibres in a turn; it answers `Memory` where there is
/// none.
pub fn open_site<P: Source, K: Sink>(
    alloc: Global,
    fibres: &[FibreEnds],
    index: usize,
    plan: &Plan,
    places: Rack<NetIn<P>, NetOut<K>>,
) -> Result<Site<P, K>, Memory>
    requires accepted { fault_in plan.now ≡ None }
    ensures opens { IfOk result (SiteOpens P.Source K.Sink fibres.now index plan.now) }
    ensures edges { IfOk result (λ site. KeepsEdges fibres.now index (rack_view P.Source K.Sink places)
        (site_view P.Source K.Sink site)) }
{
    let node = Node::build(alloc, plan)?;
    let mut bays = places;
    put_far_ends(alloc, fibres, index, plan, &mut bays)?;
    put_near_ends(alloc, fibres, index, plan, &mut bays)?;
    Ok(Site { node, bays })
}
