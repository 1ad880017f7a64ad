// All turns of a network.
ghost use Rattle.std.specs.Prelude.{◌≡◌, ℕ, true, false, Some, slice_get};
ghost use Rattle.network_run.specs.Going.{IsFull, KeepsGoing};
ghost use Rattle.network_run.specs.Sites.{AllOver, HasGoing};
ghost use Rattle.network_run.specs.declared.fibres.Filling.{Filling};

use crate::recording::{Recording, record_all};
use network_run::{Filling, Site, do_turn, fill_all, send_lines};
use port_base::{Sink, Source};

/// All turns of all nodes, and what waits for the fibres then. What goes over fibres is recorded, where it is to be.
pub(crate) fn do_all_turns<P: Source, K: Sink, R: Sink>(
    fillings: &mut Vec<Filling>,
    sites: &mut Vec<Site<P, K>>,
    frames: &mut Vec<u8>,
    recordings: &mut Vec<Recording<R>>,
)
    ensures keeps { KeepsGoing P.Source K.Sink sites.old.items fillings.old.items sites.new.items fillings.new.items }
    ensures over { AllOver sites.new.items }
    ensures full { (n : ℕ) (f : Filling) → slice_get fillings.new.items n ≡ Some f → f.whole ≡ true
        → IsFull P.Source K.Sink sites.new.items f }
{
    while has_going(sites) {
        send_lines(fillings, sites, frames);
        record_all(recordings, sites);
        do_turn(fillings, sites, frames);
    }
    fill_all(fillings, sites, frames);
}

// Whether some node is not past its last turn.
fn has_going<P: Source, K: Sink>(sites: &[Site<P, K>]) -> bool
    ensures some { result ≡ true → HasGoing sites.now }
    ensures none { result ≡ false → AllOver sites.now }
{
    for site in sites {
        if !site.node.finished() {
            return true;
        }
    }
    false
}
