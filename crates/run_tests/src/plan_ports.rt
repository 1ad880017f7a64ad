// Which port a run calls first, and which it lets go.
use crate::plan_runs::{REPORT_ROOM, THERE, TO_LINE, carried, packets, plan_of, text_of};
use line_tool::Status;
use otn_base::Memory;
use port_base::{Bays, Failed, InPlace, InPort, MemSource, OutPlace, OutPort, Rack, Sink, Source};
use std::alloc::Global;
use std::cell::Cell;
use std::rc::Rc;
use std::test::Fail;

/// The name of the port that was called first, or 0.
type First = Rc<Cell<u8>>;

// Leaves this name where none stands.
fn call(first: &First, name: u8) {
    if first.get() == 0 {
        first.set(name);
    }
}

/// An input that leaves its name.
#[derive(Drop)]
struct NamedSource {
    bytes: MemSource,
    first: First,
}

impl Source for NamedSource {
    ghost use Rattle.std.specs.Prelude.{None};
    ghost use Rattle.port_base.specs.Memory.{memory_ended};

    ghost left = { λ _. None };

    ghost faults = { λ _. 0 };

    ghost ended = { λ s. memory_ended s.bytes };

    fn read(&mut self, into: &mut [u8]) -> Result<usize, Failed> {
        call(&self.first, CLIENT);
        self.bytes.read(into)
    }

    fn pass(&mut self, _n: usize) {}
}

/// An output that leaves its name, and takes all.
#[derive(Drop)]
struct NamedSink {
    first: First,
}

impl Sink for NamedSink {
    ghost use Rattle.std.specs.Prelude.{None, false};

    ghost got = { λ _. None };

    ghost faults = { λ _. 0 };

    ghost keeps = { λ _. false };

    fn write(&mut self, bytes: &[u8]) -> Result<usize, Failed> {
        call(&self.first, LINE);
        Ok(bytes.len())
    }

    fn kept(&self) -> Option<&[u8]> {
        None
    }
}

// The names of client input 0 and of line output 0.
const CLIENT: u8 = 1;

const LINE: u8 = 2;

// A client that stops and lets its port go, halfway.
const RETIRING: &str = r#"turns = 8
connection = [{ name = "a", kind = "odu0", from = { client = 0 }, to = { line = 0, port = 1, slots = [3] }, stop = 4, retire = true }]
"#;

const RETIRED: &str =
    "turns 8\nline-out 0 frames 64 live\nclient-in 0 packets 1 spent empty\nconnection a off\nstatus done\n";

fn source(alloc: Global, first: &First) -> Result<NamedSource, Memory> {
    Ok(NamedSource {
        bytes: MemSource::new(packets(alloc, 1, 60)?),
        first: first.clone()?,
    })
}

// Whether no port stands there.
fn is_empty(place: &InPlace) -> bool {
    match place {
        InPlace::Empty => true,
        _ => false,
    }
}

#[test]
fn boxed_ports_are_called_in_order_and_let_go(rt: HostRuntime) -> Result<(), Fail> {
    let alloc = rt.alloc();
    for (plan, last, name, ports, report) in [
        (TO_LINE, false, LINE, 2, THERE),
        (TO_LINE, true, CLIENT, 2, THERE),
        (RETIRING, false, LINE, 1, RETIRED),
    ] {
        let first = Rc::new(alloc, Cell::new(0_u8))?;
        let client: Box<dyn Source> = Box::new(alloc, source(alloc, &first)?)?;
        let line: Box<dyn Sink> = Box::new(
            alloc,
            NamedSink {
                first: first.clone()?,
            },
        )?;
        let mut bays: Bays = Rack::new(alloc)?;
        bays.set_client_in(0, InPlace::Live(InPort::Boxed(client), 0));
        bays.set_line_out(0, OutPlace::Live(OutPort::Boxed(line), 0));
        let ran = carried(alloc, plan_of(alloc, plan)?, &mut bays, REPORT_ROOM, last)?;
        assert_eq!(rt;
            (ran.status, text_of(&ran.report), first.get()),
            (Status::Done, report, name)
        );
        // One count is this test's own, and one is of each port that is still there.
        assert_eq!(rt;
            (Rc::strong_count(&first), is_empty(bays.client_in(0))),
            (ports + 1, ports == 1)
        );
    }
    Ok(())
}
