// The four runs of the trial.
ghost use Rattle.std.specs.Prelude.{◌≡◌, ◌≤◌, ◌<◌, IfOk};
ghost use Rattle.port_base.specs.Racks.{bays_view};
ghost use Rattle.trial_command.specs.Steps.TrialRuns.{RunWent, FirstRan, MiddleRan, LastRan};

use crate::places::{
    Memories, TEXT_ROOM, TextSink, file_of, first_places, last_places, middle_places, rooms_suffice,
};
use bounded_ports::{BoundedSink, full_where_failed};
use node_core::{Node, carry_node};
use otn_base::Memory;
use port_base::{Chooser, MemSource, Sink, Source};
use std::alloc::Global;
use trial_plans::plan_of_run;

/// The first run: the clients' packets, drawn by the number, go to line 0, whose file is the answer.
pub(crate) fn first_run<C: Chooser>(
    alloc: Global,
    number: u64,
    chooser: &mut C,
) -> Result<Vec<u8>, Memory>
    ensures { IfOk result (λ file. FirstRan number file.items (C.asked chooser.old) (C.asked chooser.new)) }
{
    let mut bays = first_places(alloc, number)?;
    carry_run(alloc, 0, &mut bays, chooser)?;
    full_where_failed(&bays);
    rooms_suffice();
    Ok(file_of(bays, 0))
}

/// The second or the third run: from the file of the one before to that of the line of its number.
pub(crate) fn middle_run<C: Chooser>(
    alloc: Global,
    run: u8,
    file: Vec<u8>,
    chooser: &mut C,
) -> Result<Vec<u8>, Memory>
    requires least { 1 ≤ run }
    requires most { run ≤ 2 }
    ensures { IfOk result (λ made. MiddleRan run file.items made.items (C.asked chooser.old) (C.asked chooser.new)) }
{
    let mut bays = middle_places(alloc, run, file)?;
    carry_run(alloc, run, &mut bays, chooser)?;
    full_where_failed(&bays);
    rooms_suffice();
    Ok(file_of(bays, run))
}

/// The last run: from the file of the third one to the clients, whose places are the answer.
pub(crate) fn last_run<C: Chooser>(
    alloc: Global,
    file: Vec<u8>,
    chooser: &mut C,
) -> Result<Memories<TextSink>, Memory>
    ensures { IfOk result (λ bays. LastRan TEXT_ROOM file.items
        (bays_view ⟦<MemSource as Source>⟧ ⟦<BoundedSink<TEXT_ROOM> as Sink>⟧ bays) (C.asked chooser.old)
        (C.asked chooser.new)) }
{
    let mut bays = last_places(alloc, file)?;
    carry_run(alloc, 3, &mut bays, chooser)?;
    full_where_failed(&bays);
    Ok(bays)
}

// Carries the plan of a run over its places. Memory is asked for before the run, and for the plan and the node alone.
fn carry_run<C: Chooser, K: Sink>(
    alloc: Global,
    run: u8,
    bays: &mut Memories<K>,
    chooser: &mut C,
) -> Result<(), Memory>
    requires { run < 4 }
    ensures { IfOk result (λ _. RunWent run (bays_view ⟦<MemSource as Source>⟧ K.Sink bays.old)
        (bays_view ⟦<MemSource as Source>⟧ K.Sink bays.new)
        (C.asked chooser.old) (C.asked chooser.new)) }
{
    let plan = plan_of_run(alloc, run)?;
    let mut node = Node::build(alloc, &plan)?;
    carry_node(&mut node, bays, chooser);
    Ok(())
}
