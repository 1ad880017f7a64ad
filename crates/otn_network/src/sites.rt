// The nodes of a network over their places, and their run.
ghost use Rattle.std.specs.Prelude.{◌≡◌, IfOk, length};
ghost use Rattle.network_file.specs.Cuts.{whole_fibres};
ghost use Rattle.network_carry.specs.Opening.{AreOpened};

use crate::reading::Joined;
use network_carry::{Carried, Recording, carry_network, open_site};
use network_file::FibreEnds;
use network_run::{NetIn, NetOut, Site};
use otn_base::Memory;
use port_base::{Rack, Sink, Source};
use std::alloc::Global;

/// A network that was run: its nodes, with their places as it left them, and their numbers.
#[derive(Drop)]
pub(crate) struct Ran<P, K> {
    pub(crate) sites: Vec<Site<P, K>>,
    pub(crate) carried: Carried,
}

/// Runs the network over the places of its nodes, in the order of the file, at whose lines it puts the ends of the
/// fibres that are whole.
pub(crate) fn run_sites<P: Source, K: Sink, R: Sink>(
    alloc: Global,
    joined: &Joined,
    whole: &[FibreEnds],
    places: Vec<Rack<NetIn<P>, NetOut<K>>>,
    recordings: &mut Vec<Recording<R>>,
) -> Result<Ran<P, K>, Memory>
    requires each { length places.items ≡ length joined.now.plans.items }
    requires whole { whole.now ≡ whole_fibres joined.now.file }
    ensures sites { IfOk result (λ ran. length ran.sites.items ≡ length joined.now.plans.items) }
    ensures numbers { IfOk result (λ ran. length ran.carried.numbers.items ≡ length joined.now.plans.items) }
{
    let mut sites = open_sites(alloc, joined, whole, places)?;
    let carried = carry_network(
        alloc,
        &joined.file,
        joined.plans.as_slice(),
        &mut sites,
        recordings,
    )?;
    Ok(Ran { sites, carried })
}

// All nodes before the first turn, over these places.
fn open_sites<P: Source, K: Sink>(
    alloc: Global,
    joined: &Joined,
    whole: &[FibreEnds],
    places: Vec<Rack<NetIn<P>, NetOut<K>>>,
) -> Result<Vec<Site<P, K>>, Memory>
    requires each { length places.items ≡ length joined.now.plans.items }
    ensures { IfOk result (λ sites. AreOpened P.Source K.Sink whole.now joined.now.plans.items sites.items) }
{
    let mut sites = Vec::new(alloc);
    for bays in places {
        let index = sites.len();
        let site = open_site(alloc, whole, index, joined.plan(index), bays)?;
        sites.push(site)?;
    }
    Ok(sites)
}
