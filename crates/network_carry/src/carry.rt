// A network, from its first turn to the numbers of its nodes.
ghost use Rattle.std.specs.Prelude.{◌≡◌, IfOk, length, map};
ghost use Rattle.network_laws.specs.Networks.{IsNetwork};
ghost use Rattle.network_file.specs.Cuts.{whole_fibres, whole_network};
ghost use Rattle.network_file.specs.Joining.{network_of};
ghost use Rattle.network_file.specs.Sound.{IsSound};
ghost use Rattle.network_run.specs.Ending.{RanAsNetwork};
ghost use Rattle.network_carry.specs.Carried.{first_of, AreOf};
ghost use Rattle.network_carry.specs.Opening.{AreOpened};

use crate::fillings::new_fillings;
use crate::recording::Recording;
use crate::turns::do_all_turns;
use network_file::NetworkFile;
use network_run::{Filling, Site, settle_all};
use node_core::RunNumbers;
use otn_base::Memory;
use otn_base::limits::LINE_FRAME_BYTES;
use plan_file::Plan;
use port_base::{Sink, Source};
use std::alloc::Global;

// The most bytes that a line brings in a turn: 32 frames, of OTU3.
const MOST_TURN_BYTES: usize = 32 * LINE_FRAME_BYTES;

/// What a network left beside the places of its nodes.
#[derive(Drop)]
pub struct Carried {
    /// The numbers of each node.
    pub numbers: Vec<RunNumbers>,
    /// Each fibre that is not cut: how many bytes went over it, and whether that is all that was written to it.
    pub fillings: Vec<Filling>,
}

/// Runs the network of an accepted file and these plans, turn by turn to the end, over the places of its nodes, which
/// are before turn 1, in the order of the file. Its fibres are in memory, and may lead round. A fibre that is cut is
/// none of the network: its ends are a line to the outside and one from there. It answers `Memory` where there is none
/// for its room, of a turn of a line, of the fibres and of the numbers: it has done nothing then.
///
/// A port that fails kills its own place and no other. What goes over a fibre that is recorded is written beside.
pub fn carry_network<P: Source, K: Sink, R: Sink>(
    alloc: Global,
    file: &NetworkFile,
    plans: &[Plan],
    sites: &mut Vec<Site<P, K>>,
    recordings: &mut Vec<Recording<R>>,
) -> Result<Carried, Memory>
    requires sound { IsSound file.now }
    requires count { length plans.now ≡ length file.now.nodes }
    requires network { IsNetwork (network_of file.now plans.now) }
    requires opened { AreOpened P.Source K.Sink (whole_fibres file.now) plans.now sites.old.items }

    // it was a run of this network without the fibres that are cut, from these places
    ensures ran { IfOk result (λ it. RanAsNetwork P.Source K.Sink (whole_network file.now plans.now)
        (first_of P.Source K.Sink sites.old.items) sites.new.items it.numbers.items it.fillings.items) }

    // the fibres are those of the file that are not cut, in its order
    ensures fibres { IfOk result (λ it. AreOf (whole_fibres file.now) it.fillings.items) }
{
    let whole = file.whole_fibres(alloc)?;
    let mut fillings = new_fillings(alloc, whole.as_slice())?;
    let mut frames = Vec::with_capacity(alloc, MOST_TURN_BYTES)?;
    let room = Vec::with_capacity(alloc, sites.len())?;
    do_all_turns(&mut fillings, sites, &mut frames, recordings);
    let numbers = settle_all(sites, room)?;
    Ok(Carried { numbers, fillings })
}
