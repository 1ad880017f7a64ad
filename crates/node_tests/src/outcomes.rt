// How runs of small plans end.
use node_core::{Node, Outcome, carry};
use otn_base::Memory;
use plan_file::Plan;
use port_base::{FirstReady, InPlaceOf, MemSink, MemSource, OutPlaceOf, Rack};
use std::alloc::Global;
use std::test::Fail;

// A run of a plan, stepped in the order of the ports; none where the plan is refused.
fn run_of(
    alloc: Global,
    text: &[u8],
    bays: &mut Rack<MemSource, MemSink>,
) -> Result<Option<Outcome>, Memory> {
    let plan = match Plan::read(alloc, text) {
        Ok(plan) => plan,
        Err(_) => return Ok(None),
    };
    let mut node = Node::build(alloc, &plan)?;
    let mut chooser = FirstReady::new();
    carry(&mut node, bays, &mut chooser);
    Ok(Some(node.settle(bays)))
}

fn zeros(alloc: Global, n: usize) -> Result<MemSource, Memory> {
    Ok(MemSource::new(vec![in alloc; 0u8; n]?))
}

// A turn of line 0, of so many bytes 0, to client 0.
fn line_run(alloc: Global, n: usize) -> Result<Option<Outcome>, Memory> {
    let mut bays = Rack::new(alloc)?;
    bays.set_line_in(0, InPlaceOf::Live(zeros(alloc, n)?, 0));
    run_of(alloc, TO_CLIENT, &mut bays)
}

// The same of nine frames, where the place of the client is dead.
fn cut_run(alloc: Global, n: usize) -> Result<Option<Outcome>, Memory> {
    let mut bays = Rack::new(alloc)?;
    bays.set_line_in(0, InPlaceOf::Live(zeros(alloc, n)?, 0));
    bays.set_client_out(0, OutPlaceOf::dead(MemSink::with_room(alloc, 0)?, 0));
    run_of(alloc, TO_CLIENT, &mut bays)
}

// Two turns of client 0 to line 0, beside a line that the plan does not use.
fn client_run(alloc: Global, text: &[u8]) -> Result<Option<Outcome>, Memory> {
    let mut bays = Rack::new(alloc)?;
    let source = MemSource::new(Vec::from_slice(alloc, text)?);
    bays.set_client_in(0, InPlaceOf::Live(source, 0));
    bays.set_line_in(1, InPlaceOf::Live(zeros(alloc, 1)?, 0));
    run_of(alloc, TO_LINE, &mut bays)
}

const TO_LINE: &[u8] =
    b"turns = 2\n[[connection]]\nname = \"in\"\nkind = \"odu0\"\nfrom = { client = 0 }\nto = { line = 0, port = 1, slots = [1] }\n";

const TO_CLIENT: &[u8] =
    b"turns = 1\n[[connection]]\nname = \"out\"\nkind = \"odu0\"\nfrom = { line = 0, port = 1, slots = [1] }\nto = { client = 0 }\n";

#[test]
fn each_outcome(rt: HostRuntime) -> Result<(), Fail> {
    let alloc = rt.alloc();
    // A turn that hunts in vain looks at nine frames of MFAS 0.
    assert_eq!(rt; line_run(alloc, 0)?, Some(Outcome::Done));
    assert_eq!(rt; line_run(alloc, 16_325)?, Some(Outcome::Done));
    assert_eq!(rt; line_run(alloc, 146_880)?, Some(Outcome::Done));
    assert_eq!(rt; line_run(alloc, 146_881)?, Some(Outcome::Unfinished));
    assert_eq!(rt; cut_run(alloc, 146_881)?, Some(Outcome::Cut));
    // A frame of no packet is spent in two turns, and not one with a bad line behind it.
    assert_eq!(rt; client_run(alloc, b"")?, Some(Outcome::Done));
    assert_eq!(rt; client_run(alloc, b"0102\n")?, Some(Outcome::Done));
    assert_eq!(rt; client_run(alloc, b"0102\nx\n")?, Some(Outcome::Unfinished));
    Ok(())
}
