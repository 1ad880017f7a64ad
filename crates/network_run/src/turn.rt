// A turn of a network.
ghost use Rattle.std.specs.Prelude.{◌≡◌, ◌≤◌, ◌<◌, ◌+◌, ℕ, true, false, Some, slice_get};
ghost use Rattle.network_run.specs.Going.{IsFull, KeepsGoing};
ghost use Rattle.network_run.specs.Sites.{AllOver, AllSent, EachOne, HasGoing, IsTurned, SameMoment, SameNode};
ghost use Rattle.network_run.specs.declared.fibres.Filling.{Filling};

use crate::Site;
use crate::fibres::{Filling, fill};
use crate::site::{end_all, let_go_all, write_all};
use port_base::{Sink, Source};

/// One turn of all nodes: first what leaves on their lines, then that goes over the fibres, then all else.
pub fn do_turn<P: Source, K: Sink>(
    fillings: &mut Vec<Filling>,
    sites: &mut Vec<Site<P, K>>,
    frames: &mut Vec<u8>,
)
    ensures keeps { KeepsGoing P.Source K.Sink sites.old.items fillings.old.items sites.new.items fillings.new.items }
    ensures turned { EachOne IsTurned sites.old.items sites.new.items }
{
    send_lines(fillings, sites, frames);
    let_go_all(sites);
    end_all(sites);
}

/// What leaves on the lines of all nodes in their turns goes over the fibres.
pub fn send_lines<P: Source, K: Sink>(
    fillings: &mut Vec<Filling>,
    sites: &mut Vec<Site<P, K>>,
    frames: &mut Vec<u8>,
)
    ensures keeps { KeepsGoing P.Source K.Sink sites.old.items fillings.old.items sites.new.items fillings.new.items }
    ensures moments { EachOne SameMoment sites.old.items sites.new.items }

    // all of it has left, and nothing of it waits for a fibre that is whole
    ensures sent { AllSent sites.new.items }
    ensures full { (n : ℕ) (f : Filling) → slice_get fillings.new.items n ≡ Some f → f.whole ≡ true
        → IsFull P.Source K.Sink sites.new.items f }
{
    write_all(sites);
    fill_all(fillings, sites, frames);
}

/// Fills all fibres with what waits for them.
pub fn fill_all<P: Source, K: Sink>(
    fillings: &mut Vec<Filling>,
    sites: &mut Vec<Site<P, K>>,
    frames: &mut Vec<u8>,
)
    ensures keeps { KeepsGoing P.Source K.Sink sites.old.items fillings.old.items sites.new.items fillings.new.items }
    ensures nodes { EachOne SameNode sites.old.items sites.new.items }

    // nothing waits for a fibre that is whole
    ensures full { (n : ℕ) (f : Filling) → slice_get fillings.new.items n ≡ Some f → f.whole ≡ true
        → IsFull P.Source K.Sink sites.new.items f }
{
    for n in 0..fillings.len() {
        fill(&mut fillings[n], sites, frames);
    }
}

/// All turns of all nodes, and what waits for the fibres then.
pub fn do_turns<P: Source, K: Sink>(
    fillings: &mut Vec<Filling>,
    sites: &mut Vec<Site<P, K>>,
    frames: &mut Vec<u8>,
)
    ensures keeps { KeepsGoing P.Source K.Sink sites.old.items fillings.old.items sites.new.items fillings.new.items }
    ensures over { AllOver sites.new.items }
    ensures full { (n : ℕ) (f : Filling) → slice_get fillings.new.items n ≡ Some f → f.whole ≡ true
        → IsFull P.Source K.Sink sites.new.items f }
{
    while has_going(sites) {
        do_turn(fillings, sites, frames);
    }
    fill_all(fillings, sites, frames);
}

// Whether some node is not past its last turn.
fn has_going<P: Source, K: Sink>(sites: &[Site<P, K>]) -> bool
    ensures some { result ≡ true → HasGoing sites.now }
    ensures none { result ≡ false → AllOver sites.now }
{
    for site in sites {
        if !site.node.finished() {
            return true;
        }
    }
    false
}
