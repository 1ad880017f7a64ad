// A run of a network.
ghost use Rattle.std.specs.Prelude.{◌≡◌, IfOk, OnErr};
ghost use Rattle.network_run.specs.Ending.{RunsAsNetwork};

use crate::ending::settle_all;
use crate::fibres::Filling;
use crate::site::Site;
use crate::turn::do_turns;
use node_core::RunNumbers;
use otn_base::Memory;
use otn_base::limits::LINE_FRAME_BYTES;
use port_base::{Sink, Source};
use std::alloc::Global;

// The most bytes that a line brings in a turn: 32 frames, of OTU3.
const MOST_TURN_BYTES: usize = 32 * LINE_FRAME_BYTES;

/// Runs all nodes of a network turn by turn to the end: in each turn first what leaves on the lines of all nodes, then
/// that goes over the fibres, then all else. So a fibre may lead round to where it began. Then all are settled, and it
/// tells their numbers. It answers `Memory` where there is none for its room, of a turn of a line and of the numbers.
/// That it takes before the first turn, so it has done nothing then.
///
/// A port that fails kills its own place and no other. A fibre is not whole any more where its near end has died or is
/// none, or where its far end takes no more.
pub fn run_network<P: Source, K: Sink>(
    alloc: Global,
    fillings: &mut Vec<Filling>,
    sites: &mut Vec<Site<P, K>>,
) -> Result<Vec<RunNumbers>, Memory>
    // of whatever network these nodes and fibres are, this was a run
    ensures ran { IfOk result (λ numbers. RunsAsNetwork P.Source K.Sink sites.old.items fillings.old.items
        sites.new.items numbers.items fillings.new.items) }

    // where there is no memory, nothing was done
    ensures memory { OnErr result ((sites.new.items ≡ sites.old.items) × (fillings.new.items ≡ fillings.old.items)) }
{
    let mut frames = Vec::with_capacity(alloc, MOST_TURN_BYTES)?;
    let room = Vec::with_capacity(alloc, sites.len())?;
    do_turns(fillings, sites, &mut frames);
    settle_all(sites, room)
}
