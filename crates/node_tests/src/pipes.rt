// Pipes of small plans, turn by turn.
ghost use Rattle.std.specs.Prelude.{◌≡◌, ℕ, None};
ghost use Rattle.otn_base.specs.LineSlots.{slots_of};
ghost use Rattle.plan_file.specs.Answer.{fault_in};
ghost use Rattle.plan_file.specs.declared.connection.FromEnd.TheVariants as from_end;
ghost use Rattle.plan_file.specs.declared.connection.ToEnd.TheVariants as to_end;
ghost use Rattle.cross_matrix.specs.Parts.{IsBegun, frames_taken, frames_filled};
ghost use Rattle.cross_matrix.specs.Pipes.{IsPipeOf};

use cross_matrix::{FromState, Pipe};
use frame_geometry::Frame;
use otn_base::{Memory, Slots};
use plan_file::{Connection, FromEnd, Plan, ToEnd};
use port_base::{InPlaceOf, MemSink, MemSource, OutPlaceOf};
use std::alloc::Global;
use std::test::Fail;

// What a run of one client to a line shows: JC1 to JC3 of its first two turns, and the client's numbers.
type Sent = ([u8; 3], [u8; 3], (u64, bool, Option<u64>));

// Fills the frames of a turn: JC1 to JC3 of the first one.
fn fill_turn(pipe: &mut Pipe, x: &Connection, slots: &Slots, frame: &mut Frame<4080>) -> [u8; 3]
    requires entry { IsPipeOf x.now pipe.old }
    requires to { (b : ℕ) × (port : ℕ) × (x.now.to ≡ to_end.Line b port slots.now) }
    requires filled { frames_filled pipe.old.giving ≡ 0 }
    requires begun { IsBegun pipe.old.giving }
    ensures entry { IsPipeOf x.now pipe.new }
{
    let mut said = [0; 3];
    for n in 0..slots.kind().slots() {
        pipe.fill_frame(n, frame);
        if n == 0 {
            said = [frame.get(1, 16), frame.get(2, 16), frame.get(3, 16)];
        }
    }
    said
}

// Two turns of a client to a line.
fn send(
    pipe: &mut Pipe,
    x: &Connection,
    slots: &Slots,
    place: &mut InPlaceOf<MemSource>,
    frame: &mut Frame<4080>,
) -> Sent
    requires entry { IsPipeOf x.now pipe.old }
    requires from { (n : ℕ) × (x.now.from ≡ from_end.Client n) }
    requires to { (b : ℕ) × (port : ℕ) × (x.now.to ≡ to_end.Line b port slots.now) }
{
    pipe.start();
    pipe.take_client(x.start, place);
    let first = fill_turn(pipe, x, slots, frame);
    pipe.fence(x.start);
    let second = fill_turn(pipe, x, slots, frame);
    (first, second, pipe.client_in())
}

// A turn of a line to a client, whose frames are all alike: how its sink stands, and what the client got.
fn listen(
    pipe: &mut Pipe,
    x: &Connection,
    slots: &Slots,
    place: &mut OutPlaceOf<MemSink>,
    frame: &Frame<4080>,
) -> (FromState, (u64, u64))
    requires entry { IsPipeOf x.now pipe.old }
    requires from { (a : ℕ) × (port : ℕ) × (x.now.from ≡ from_end.Line a port slots.now) }
    requires to { (n : ℕ) × (x.now.to ≡ to_end.Client n) }
{
    pipe.start();
    take_turn(pipe, x, slots, frame);
    pipe.end_frames(true);
    pipe.give_client(place);
    pipe.fence(x.start);
    (pipe.from_state(), pipe.client_out())
}

fn take_turn(pipe: &mut Pipe, x: &Connection, slots: &Slots, frame: &Frame<4080>)
    requires entry { IsPipeOf x.now pipe.old }
    requires from { (a : ℕ) × (port : ℕ) × (x.now.from ≡ from_end.Line a port slots.now) }
    requires taken { frames_taken pipe.old.taking ≡ 0 }
    ensures entry { IsPipeOf x.now pipe.new }
    ensures taken { frames_taken pipe.new.taking ≡ slots_of slots.now.kind }
{
    for n in 0..slots.kind().slots() {
        pipe.take_frame(n, frame, n);
    }
}

// The first connection of a plan, from a client to a line.
fn sent(alloc: Global, plan: &Plan, place: &mut InPlaceOf<MemSource>) -> Result<Sent, Memory>
    requires { fault_in plan.now ≡ None }
{
    let connections = plan.connections.as_slice();
    if connections.is_empty() {
        return Err(Memory);
    }
    let x = &connections[0];
    let mut pipe = Pipe::new(alloc, plan, 0)?;
    let mut frame = Frame::<4080>::new(alloc)?;
    match (&x.from, &x.to) {
        (FromEnd::Client(_), ToEnd::Line(_, _, slots)) => {
            Ok(send(&mut pipe, x, slots, place, &mut frame))
        }
        _ => Err(Memory),
    }
}

// The first connection of a plan, from a line to a client.
fn heard(
    alloc: Global,
    plan: &Plan,
    place: &mut OutPlaceOf<MemSink>,
) -> Result<(FromState, (u64, u64)), Memory>
    requires { fault_in plan.now ≡ None }
{
    let connections = plan.connections.as_slice();
    if connections.is_empty() {
        return Err(Memory);
    }
    let x = &connections[0];
    let mut pipe = Pipe::new(alloc, plan, 0)?;
    let frame = Frame::<4080>::new(alloc)?;
    match (&x.from, &x.to) {
        (FromEnd::Line(_, _, slots), ToEnd::Client(_)) => {
            Ok(listen(&mut pipe, x, slots, place, &frame))
        }
        _ => Err(Memory),
    }
}

const TO_LINE: &[u8] =
    b"turns = 2\n[[connection]]\nname = \"in\"\nkind = \"odu0\"\nfrom = { client = 0 }\nto = { line = 0, port = 1, slots = [1] }\n";

const TO_CLIENT: &[u8] =
    b"turns = 2\n[[connection]]\nname = \"out\"\nkind = \"odu0\"\nfrom = { line = 0, port = 1, slots = [1] }\nto = { client = 0 }\n";

#[test]
fn a_client_to_a_line(rt: HostRuntime) -> Result<(), Fail> {
    let alloc = rt.alloc();
    let text = Vec::from_slice(alloc, b"0102\n")?;
    let mut place = InPlaceOf::Live(MemSource::new(text), 0);
    let shown = match Plan::read(alloc, TO_LINE) {
        Ok(plan) => sent(alloc, &plan, &mut place)?,
        Err(_) => ([0; 3], [0; 3], (0, false, None)),
    };
    // No group in the first turn, and 15,168 in the next one.
    assert_eq!(rt; shown.0, [0x00, 0x03, 0x17]);
    assert_eq!(rt; shown.1, [0xED, 0x03, 0x2E]);
    assert_eq!(rt; shown.2, (1, false, None));
    Ok(())
}

#[test]
fn a_line_to_a_client(rt: HostRuntime) -> Result<(), Fail> {
    let alloc = rt.alloc();
    let mut place = OutPlaceOf::Live(MemSink::with_room(alloc, 64)?, 0);
    let shown = match Plan::read(alloc, TO_CLIENT) {
        Ok(plan) => heard(alloc, &plan, &mut place)?,
        Err(_) => (FromState::Down, (1, 1)),
    };
    // Six message bytes of 0 say the number 0.
    assert_eq!(rt; shown, (FromState::Up, (0, 0)));
    Ok(())
}
