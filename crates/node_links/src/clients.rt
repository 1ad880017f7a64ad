// A piece of a client.
ghost use Rattle.std.specs.Prelude.{◌≡◌, ◌<◌, ℕ, Some, None, true, false, length, vec_len};
ghost use Rattle.port_base.specs.InPlace.{in_view};
ghost use Rattle.port_base.specs.OutPlace.{out_view};
ghost use Rattle.node_links.specs.Links.{takes_part};
ghost use Rattle.node_links.specs.Moves.{TakesClient, GivesClient};
ghost use Rattle.node_links.specs.Steps.LinkMoves.{FirstOf};

use crate::link::Link;
use otn_base::PortName;
use port_base::{InPlaceOf, OutPlaceOf, Sink, Source};

/// One piece of client input `n` in turn past + 1: the active connection from it, where there is one, takes what the
/// turn brings.
pub fn take_client<P: Source>(n: u8, past: u32, links: &mut Vec<Link>, place: &mut InPlaceOf<P>)
    ensures { TakesClient past n (in_view P.Source place.old) links.old.items
        (in_view P.Source place.new) links.new.items }
{
    let i = match first_at(PortName::ClientIn(n), past, links) {
        Some(i) => i,
        None => return,
    };
    links[i].take_client(past, place);
}

/// One piece of client output `n` in turn past + 1: the active connection to it, where there is one, gives what the
/// turn brings.
pub fn give_client<K: Sink>(n: u8, past: u32, links: &mut Vec<Link>, place: &mut OutPlaceOf<K>)
    ensures { GivesClient past n (out_view K.Sink place.old) links.old.items
        (out_view K.Sink place.new) links.new.items }
{
    let i = match first_at(PortName::ClientOut(n), past, links) {
        Some(i) => i,
        None => return,
    };
    links[i].give_client(place);
}

// The first connection that is active in turn past + 1, and comes from the port or goes to it.
fn first_at(name: PortName, past: u32, links: &[Link]) -> Option<usize>
    ensures { FirstOf (takes_part past name) links.now result }
{
    let mut i = 0;
    for link in links {
        if link.takes_part(name, past) {
            return Some(i);
        }
        i += 1;
    }
    None
}
