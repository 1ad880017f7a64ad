// The nodes of a network, and what all of them do at once.
ghost use Rattle.std.specs.Prelude.{◌≡◌};
ghost use Rattle.port_base.specs.OutPlace.{live_out, out_view};
ghost use Rattle.network_run.specs.Sites.{EachOne, SiteStill, SiteTurned, SiteWent, net_sink, rack_view};

use crate::{NetIn, NetOut, write_lines};
use network_core::end_turn;
use node_core::Node;
use otn_base::limits::LINES;
use port_base::{OutPlaceOf, Rack, Sink, Source};

/// A node of a network, and its places.
#[derive(Drop)]
pub struct Site<P, K> {
    pub node: Node,
    pub bays: Rack<NetIn<P>, NetOut<K>>,
}

/// All pieces of the lines out of all nodes in their turns.
pub(crate) fn write_all<P: Source, K: Sink>(sites: &mut Vec<Site<P, K>>)
    ensures { EachOne (SiteWent P.Source K.Sink) sites.old.items sites.new.items }
{
    for site in sites.iter_mut() {
        write_site(site);
    }
}

fn write_site<P: Source, K: Sink>(site: &mut Site<P, K>)
    ensures { SiteWent P.Source K.Sink site.old site.new }
{
    write_lines(&mut site.node, &mut site.bays);
}

/// What is left of the turn of each node that is not past its last, and its end.
pub(crate) fn end_all<P: Source, K: Sink>(sites: &mut Vec<Site<P, K>>)
    ensures { EachOne (SiteTurned P.Source K.Sink) sites.old.items sites.new.items }
{
    for site in sites.iter_mut() {
        end_site(site);
    }
}

fn end_site<P: Source, K: Sink>(site: &mut Site<P, K>)
    ensures { SiteTurned P.Source K.Sink site.old site.new }
{
    if !site.node.finished() {
        end_turn(&mut site.node, &mut site.bays);
    }
}

/// Lets go of what the near ends of fibres keep.
pub(crate) fn let_go_all<P: Source, K: Sink>(sites: &mut Vec<Site<P, K>>)
    ensures { EachOne (SiteStill P.Source K.Sink) sites.old.items sites.new.items }
{
    for site in sites.iter_mut() {
        let_go_site(site);
    }
}

fn let_go_site<P: Source, K: Sink>(site: &mut Site<P, K>)
    ensures { SiteStill P.Source K.Sink site.old site.new }
{
    let_go_lines(&mut site.bays);
}

fn let_go_lines<P: Source, K: Sink>(bays: &mut Rack<NetIn<P>, NetOut<K>>)
    ensures { rack_view P.Source K.Sink bays.new ≡ rack_view P.Source K.Sink bays.old }
{
    for b in 0..LINES as u8 {
        let_go_line(bays.line_out_mut(b));
    }
}

fn let_go_line<K: Sink>(place: &mut OutPlaceOf<NetOut<K>>)
    ensures { out_view (net_sink K.Sink) place.new ≡ out_view (net_sink K.Sink) place.old }
{
    match place {
        OutPlaceOf::Live(port, _) => let_go_port(port),
        OutPlaceOf::Empty => {}
        OutPlaceOf::Retired(..) => {}
        OutPlaceOf::Dead(..) => {}
    }
}

fn let_go_port<K: Sink>(port: &mut NetOut<K>)
    ensures { live_out (net_sink K.Sink) port.new 0 ≡ live_out (net_sink K.Sink) port.old 0 }
{
    match port {
        NetOut::Fibre(sink) => sink.let_go(),
        NetOut::Edge(_) => {}
    }
}
