// Client places at the stop of their connection.
ghost use Rattle.std.specs.Prelude.{◌≡◌, ◌<◌, ◌&&◌, ◌==◌, ◌+◌, ℕ, true, false};
ghost use Rattle.otn_base.specs.declared.kind.PortName.TheVariants.{ClientIn as client-in, ClientOut as client-out};
ghost use Rattle.otn_base.specs.declared.limits.TheConstants.{CLIENTS as CLIENT_PORTS};
ghost use Rattle.port_base.specs.Racks.{bays_view};
ghost use Rattle.device_model.specs.Entries.{is_from_client, is_to_client};
ghost use Rattle.node_links.specs.Links.{joins};
ghost use Rattle.node_links.specs.Retiring.{RetiredBy, ends_here};
ghost use Rattle.node_links.specs.Steps.Retiring.{RetiredAt};

use crate::link::Link;
use otn_base::limits::CLIENTS;
use plan_file::{FromEnd, ToEnd};
use port_base::{Rack, Sink, Source};

/// Empties the client places of each connection that stops in turn past + 1 and retires, where they are live.
pub fn retire_all<P: Source, K: Sink>(links: &[Link], past: u32, bays: &mut Rack<P, K>)
    ensures { RetiredBy past links.now (bays_view P.Source K.Sink bays.old) (bays_view P.Source K.Sink bays.new) }
{
    for link in links {
        retire_link(link, past, bays);
    }
}

// The client places of a connection, where it stops in turn past + 1 and retires.
fn retire_link<P: Source, K: Sink>(link: &Link, past: u32, bays: &mut Rack<P, K>)
    ensures { RetiredAt (λ n. ends_here past link.now && joins (client-in n) link.now)
        (λ n. ends_here past link.now && joins (client-out n) link.now) (bays_view P.Source K.Sink bays.old)
        (bays_view P.Source K.Sink bays.new) }
{
    if link.ends_here(past) {
        retire_ends(&link.entry.from, &link.entry.to, bays);
    }
}

fn retire_ends<P: Source, K: Sink>(from: &FromEnd, to: &ToEnd, bays: &mut Rack<P, K>)
    ensures { RetiredAt (λ n. is_from_client n from.now) (λ n. is_to_client n to.now)
        (bays_view P.Source K.Sink bays.old) (bays_view P.Source K.Sink bays.new) }
{
    retire_from(from, bays);
    retire_to(to, bays);
}

fn retire_from<P: Source, K: Sink>(from: &FromEnd, bays: &mut Rack<P, K>)
    ensures { RetiredAt (λ n. is_from_client n from.now) (λ n. false) (bays_view P.Source K.Sink bays.old)
        (bays_view P.Source K.Sink bays.new) }
{
    if let FromEnd::Client(n) = from {
        if *n < CLIENTS as u8 {
            bays.client_in_mut(*n).retire();
        }
    }
}

fn retire_to<P: Source, K: Sink>(to: &ToEnd, bays: &mut Rack<P, K>)
    ensures { RetiredAt (λ n. false) (λ n. is_to_client n to.now) (bays_view P.Source K.Sink bays.old)
        (bays_view P.Source K.Sink bays.new) }
{
    if let ToEnd::Client(n) = to {
        if *n < CLIENTS as u8 {
            bays.client_out_mut(*n).retire();
        }
    }
}
