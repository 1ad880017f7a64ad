// A node that carries one client to a line, in two orders.
ghost use Rattle.std.specs.Prelude.{◌≡◌, None, length};
ghost use Rattle.port_base.specs.Bytes.{raised};
ghost use Rattle.plan_file.specs.Answer.{fault_in};

use node_core::{FromState, Node, carry};
use otn_base::{Memory, PortName};
use plan_file::Plan;
use port_base::{Chooser, InPlaceOf, MemSink, MemSource, OutPlaceOf, Rack};
use std::alloc::Global;
use std::test::Fail;

// Chooses the first or the last, and counts how often it was asked and the numbers that it was asked with.
#[derive(Drop)]
struct Counting {
    last: bool,
    asked: u64,
    numbers: u64,
}

impl Chooser for Counting {
    ghost asked = { λ c. c.asked };

    fn pick(&mut self, n: u32) -> u32
        ensures { self.new.asked ≡ raised self.old.asked 1 }
    {
        self.asked = self.asked.saturating_add(1);
        self.numbers = self.numbers.saturating_add(u64::from(n));
        if self.last { n.saturating_sub(1) } else { 0 }
    }
}

// What a run shows: how often the chooser was asked, the sum of the numbers that it was asked with, the file of line 0,
// its frames, the client's numbers, and what the first connection comes from.
#[derive(Drop)]
struct Shown {
    asked: u64,
    numbers: u64,
    file: Vec<u8>,
    frames: u64,
    client: (u64, bool, Option<u64>),
    state: Option<FromState>,
}

// A run with room for so many bytes of the line.
fn run(alloc: Global, plan: &Plan, last: bool, room: usize) -> Result<Shown, Memory>
    requires { fault_in plan.now ≡ None }
{
    let mut bays = Rack::new(alloc)?;
    let text = Vec::from_slice(alloc, b"0102\n")?;
    bays.set_client_in(0, InPlaceOf::Live(MemSource::new(text), 0));
    bays.set_line_out(0, OutPlaceOf::Live(MemSink::with_room(alloc, room)?, 0));
    let mut node = Node::build(alloc, plan)?;
    let mut chooser = Counting {
        last,
        asked: 0,
        numbers: 0,
    };
    carry(&mut node, &mut bays, &mut chooser);
    Ok(Shown {
        asked: chooser.asked,
        numbers: chooser.numbers,
        file: file_of(alloc, bays.line_out(0))?,
        frames: node.line_out_frames(0),
        client: node.client_in(0),
        state: state_of_first(&node, plan),
    })
}

fn state_of_first(node: &Node, plan: &Plan) -> Option<FromState>
    requires { length node.now.links ≡ length plan.now.connections }
{
    if plan.connections.as_slice().is_empty() {
        None
    } else {
        node.connection_state(0)
    }
}

fn file_of(alloc: Global, place: &OutPlaceOf<MemSink>) -> Result<Vec<u8>, Memory> {
    let mut file = Vec::new(alloc);
    if let Some(bytes) = place.kept() {
        file.extend_from_slice(bytes)?;
    }
    Ok(file)
}

// The ports that are ready, as they are counted.
fn port(node: &Node, i: u32) -> Option<PortName> {
    if i < node.ready_count() {
        Some(node.nth_ready(i))
    } else {
        None
    }
}

const TO_LINE: &[u8] =
    b"turns = 8\n[[connection]]\nname = \"in\"\nkind = \"odu0\"\nfrom = { client = 0 }\nto = { line = 0, port = 1, slots = [3] }\n";

// The two runs: one chooses the first of the ready ports, one the last.
fn both(alloc: Global, room: usize) -> Result<(Shown, Shown), Memory> {
    match Plan::read(alloc, TO_LINE) {
        Ok(plan) => Ok((
            run(alloc, &plan, false, room)?,
            run(alloc, &plan, true, room)?,
        )),
        Err(_) => Err(Memory),
    }
}

#[test]
fn two_orders_write_one_file(rt: HostRuntime) -> Result<(), Fail> {
    let (one, other) = both(rt.alloc(), 64 * 16_320)?;
    // In each of 8 turns 8 frames of the line and one piece of the client.
    assert_eq!(rt; one.asked, 72);
    assert_eq!(rt; other.asked, 72);
    // The line first: in a turn it is asked eight times among two, and once among one. The client first: once and eight
    // times.
    assert_eq!(rt; one.numbers, 8 * (8 * 2 + 1));
    assert_eq!(rt; other.numbers, 8 * (2 + 8));
    assert_eq!(rt; one.file.len(), 64 * 16_320);
    assert!(rt; one.file == other.file);
    assert_eq!(rt; (one.frames, other.frames), (64, 64));
    assert_eq!(rt;
        (one.client, other.client),
        ((1, true, None), (1, true, None))
    );
    assert_eq!(rt;
        (one.state, other.state),
        (Some(FromState::Client), Some(FromState::Client))
    );
    Ok(())
}

// The ready ports of a new node, and one more.
fn first_ports(alloc: Global) -> Result<(u32, [Option<PortName>; 3]), Memory> {
    match Plan::read(alloc, TO_LINE) {
        Ok(plan) => {
            let node = Node::build(alloc, &plan)?;
            Ok((
                node.ready_count(),
                [port(&node, 0), port(&node, 1), port(&node, 2)],
            ))
        }
        Err(_) => Err(Memory),
    }
}

#[test]
fn ports_are_counted_in_order(rt: HostRuntime) -> Result<(), Fail> {
    let (count, ports) = first_ports(rt.alloc())?;
    assert_eq!(rt; count, 2);
    assert_eq!(rt;
        ports,
        [
            Some(PortName::LineOut(0)),
            Some(PortName::ClientIn(0)),
            None
        ]
    );
    Ok(())
}
