// How a run of a network ends.
ghost use Rattle.std.specs.Prelude.{◌≡◌, ◌≤◌, [], IfOk, IsOk, length};
ghost use Rattle.std.specs.Vec.{vec_capacity};
ghost use Rattle.device_model.specs.RunNumbers.{numbers_of_run};
ghost use Rattle.network_run.specs.Ending.{AreSettled, IsSettled};
ghost use Rattle.network_run.specs.Sites.{AllOver};

use crate::Site;
use node_core::RunNumbers;
use otn_base::Memory;
use port_base::{Sink, Source};

/// Settles all nodes, which are past their last turns, and puts the numbers of each into the empty list. It answers
/// `Memory` only where that has no room for them, and there is no memory.
pub fn settle_all<P: Source, K: Sink>(
    sites: &mut Vec<Site<P, K>>,
    room: Vec<RunNumbers>,
) -> Result<Vec<RunNumbers>, Memory>
    requires over { AllOver sites.old.items }
    requires empty { room.items ≡ [] }
    ensures settled { IfOk result (λ numbers. AreSettled P.Source K.Sink sites.old.items sites.new.items
        numbers.items) }

    // where the list has room for all, it asks for no memory
    ensures enough { length sites.old.items ≤ vec_capacity room → IsOk result }
{
    let mut numbers = room;
    for i in 0..sites.len() {
        let told = settle(&mut sites[i]);
        numbers.push(told)?;
    }
    Ok(numbers)
}

fn settle<P: Source, K: Sink>(site: &mut Site<P, K>) -> RunNumbers
    requires over { site.old.node.turns ≤ site.old.node.past }
    ensures { IsSettled P.Source K.Sink site.old site.new (numbers_of_run result) }
{
    let outcome = site.node.settle(&mut site.bays);
    site.node.numbers(outcome)
}
