// In which order a node asks its lines at the end.
ghost use Rattle.std.specs.Prelude.{None};
ghost use Rattle.port_base.specs.Memory.{memory_ended};

use node_core::{Node, Outcome, carry};
use otn_base::Memory;
use plan_file::Plan;
use port_base::{Failed, FirstReady, InPlaceOf, MemSink, MemSource, Rack, Source};
use std::alloc::Global;
use std::cell::Cell;
use std::rc::Rc;
use std::test::Fail;

// An input that leaves its name where the last call is to be seen.
#[derive(Drop)]
struct NamedSource {
    bytes: MemSource,
    name: u8,
    last: Rc<Cell<u8>>,
}

impl Source for NamedSource {
    ghost left = { λ _. None };

    ghost faults = { λ _. 0 };

    ghost ended = { λ s. memory_ended s.bytes };

    fn read(&mut self, into: &mut [u8]) -> Result<usize, Failed> {
        self.last.set(self.name);
        self.bytes.read(into)
    }

    fn pass(&mut self, _n: usize) {}
}

fn zeros(alloc: Global, n: usize) -> Result<MemSource, Memory> {
    Ok(MemSource::new(vec![in alloc; 0u8; n]?))
}

// A line of so many bytes 0.
fn line(alloc: Global, n: usize, name: u8, last: &Rc<Cell<u8>>) -> Result<NamedSource, Memory> {
    Ok(NamedSource {
        bytes: zeros(alloc, n)?,
        name,
        last: last.clone()?,
    })
}

// A run of the plan over line inputs 0 and 1, of so many bytes each: how it ended, and which of the two was called
// last.
fn last_called(alloc: Global, text: &[u8], n: usize) -> Result<(Option<Outcome>, u8), Memory> {
    let last = Rc::new(alloc, Cell::new(9_u8))?;
    let mut bays: Rack<NamedSource, MemSink> = Rack::new(alloc)?;
    bays.set_line_in(0, InPlaceOf::Live(line(alloc, n, 0, &last)?, 0));
    bays.set_line_in(1, InPlaceOf::Live(line(alloc, n, 1, &last)?, 0));
    let plan = match Plan::read(alloc, text) {
        Ok(plan) => plan,
        Err(_) => return Ok((None, 9)),
    };
    let mut node = Node::build(alloc, &plan)?;
    let mut chooser = FirstReady::new();
    carry(&mut node, &mut bays, &mut chooser);
    let outcome = node.settle(&mut bays);
    Ok((Some(outcome), last.get()))
}

const RISING: &[u8] =
    b"turns = 1\n[[connection]]\nname = \"a\"\nkind = \"odu0\"\nfrom = { line = 0, port = 1, slots = [1] }\nto = { client = 0 }\n[[connection]]\nname = \"b\"\nkind = \"odu0\"\nfrom = { line = 1, port = 1, slots = [1] }\nto = { client = 1 }\n";

const FALLING: &[u8] =
    b"turns = 1\n[[connection]]\nname = \"b\"\nkind = \"odu0\"\nfrom = { line = 1, port = 1, slots = [1] }\nto = { client = 1 }\n[[connection]]\nname = \"a\"\nkind = \"odu0\"\nfrom = { line = 0, port = 1, slots = [1] }\nto = { client = 0 }\n";

#[test]
fn lines_are_asked_in_the_order_of_their_numbers(rt: HostRuntime) -> Result<(), Fail> {
    let alloc = rt.alloc();
    // Ten frames each: one more than a turn that hunts in vain looks at.
    for text in [RISING, FALLING] {
        let (outcome, last) = last_called(alloc, text, 163_200)?;
        assert_eq!(rt; outcome, Some(Outcome::Unfinished));
        assert_eq!(rt; last, 1);
    }
    Ok(())
}
