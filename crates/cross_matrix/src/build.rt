// The pipe of an entry of a plan.
ghost use Rattle.std.specs.Prelude.{◌≡◌, ◌<◌, ℕ, None, Some, IfOk, length, slice_get};
ghost use Rattle.maintenance_signals.specs.declared.signal.Signal.{Signal};
ghost use Rattle.plan_file.specs.Answer.{fault_in};
ghost use Rattle.plan_file.specs.declared.connection.Connection.{Connection};
ghost use Rattle.plan_file.specs.declared.connection.FromEnd.TheVariants as from_end;
ghost use Rattle.device_model.specs.Entries.{slot_count, slots_between};
ghost use Rattle.cross_matrix.specs.Parts.{TakesFrom, GivesTo, HasSlots, GivesSlots};
ghost use Rattle.cross_matrix.specs.Pipes.{IsPipeOf};
ghost use Rattle.cross_matrix.specs.Steps.Pipes.{IsFit};

use crate::Pipe;
use crate::giving::GivingPart;
use crate::receiver::Receiver;
use crate::taking::{ClientText, TakingPart};
use device_model::accepted_plans;
use maintenance_signals::SignalBytes;
use odu_client::ClientFramer;
use otn_base::limits::GROUPS;
use otn_base::{Burst, Memory, Trace};
use packet_text::PacketLines;
use plan_file::{Connection, FromEnd, Plan, ToEnd};
use std::alloc::Global;
use trib_sink::TribSink;
use trib_source::TribSource;

impl Pipe {
    /// The pipe of entry `i`, from 0, of an accepted plan, which is to be started. Takes all memory that it will ever
    /// need: under 1,000,000 bytes, and under 4,000,000 with 32 slots; answers `Memory` where there is none.
    pub fn new(alloc: Global, plan: &Plan, i: u32) -> Result<Pipe, Memory>
        requires accepted { fault_in plan.now ≡ None }
        requires entry { i < length plan.now.connections }
        ensures { (x : Connection) → slice_get plan.now.connections i ≡ Some x → IfOk result (IsPipeOf x) }
    {
        accepted_plans();
        pipe_of(alloc, &plan.connections.as_slice()[i as usize])
    }
}

// The most, in bytes, is a client's on all eight slots of a line: 869,320. These are the two bursts, and the two of the
// line's source, each of 8 * 15,233; of that source also a row of 30,464 and a ring of 8; of the framer a frame of
// 15,296 and a GFP frame of 65,539; of the text a block of 4,096, a line of 135,151, two packets of 65,527, and the
// marks of 256 digits. The paces and what each of these is told by come to it.
fn pipe_of(alloc: Global, x: &Connection) -> Result<Pipe, Memory>
    requires fit { IsFit x.now }
    ensures { IfOk result (IsPipeOf x.now) }
{
    let slots = count_slots(&x.from, &x.to);
    let room = slots as usize * (GROUPS + 1);
    Ok(Pipe {
        taking: taking_part(alloc, x)?,
        giving: giving_part(alloc, x)?,
        paces: Vec::from_slice(alloc, x.pace.as_slice())?,
        start: x.start,
        slots,
        incoming: Burst::new(alloc, room)?,
        outgoing: Burst::new(alloc, room)?,
    })
}

// How many slots the line ends of a connection have.
fn count_slots(from: &FromEnd, to: &ToEnd) -> u32
    ensures { result ≡ slots_between from.now to.now }
{
    match from {
        FromEnd::Line(_, _, slots) => slots.count(),
        FromEnd::Client(_) => count_slots_to(to),
        FromEnd::Signal(_) => count_slots_to(to),
    }
}

// The same of a connection that comes from no line.
fn count_slots_to(to: &ToEnd) -> u32
    ensures client { (n : ℕ) → result ≡ slots_between (from_end.Client n) to.now }
    ensures signal { (signal : Signal) → result ≡ slots_between (from_end.Signal signal) to.now }
{
    match to {
        ToEnd::Line(_, _, slots) => slots.count(),
        ToEnd::Client(_) => 0,
    }
}

fn taking_part(alloc: Global, x: &Connection) -> Result<TakingPart, Memory>
    requires fit { IsFit x.now }
    ensures part { IfOk result (TakesFrom x.now.from x.now) }
    ensures slots { IfOk result (HasSlots (slot_count x.now)) }
{
    match &x.from {
        FromEnd::Line(_, port, slots) => Ok(TakingPart::Line(TribSink::new(alloc, slots, *port)?)),
        FromEnd::Client(_) => Ok(TakingPart::Client(client_text(alloc, &x.trace, x.fcs)?)),
        FromEnd::Signal(signal) => Ok(TakingPart::Signal(SignalBytes::new(*signal))),
    }
}

fn client_text(alloc: Global, trace: &Trace, fcs: bool) -> Result<ClientText, Memory>
    ensures trace { IfOk result (λ client. client.trace ≡ trace.now) }
    ensures fcs { IfOk result (λ client. client.fcs ≡ fcs) }
{
    Ok(ClientText {
        framer: ClientFramer::new(alloc)?,
        lines: PacketLines::new(alloc)?,
        trace: trace.clone()?,
        fcs,
    })
}

fn giving_part(alloc: Global, x: &Connection) -> Result<GivingPart, Memory>
    requires fit { IsFit x.now }
    ensures part { IfOk result (GivesTo x.now.to) }
    ensures slots { IfOk result (GivesSlots (slot_count x.now)) }
{
    match &x.to {
        ToEnd::Line(_, _, slots) => Ok(GivingPart::Line(TribSource::new(alloc, slots)?)),
        ToEnd::Client(_) => Ok(GivingPart::Client(Receiver::new(alloc)?)),
    }
}
