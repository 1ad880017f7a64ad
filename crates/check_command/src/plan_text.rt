// The plan of a command, read of its source.
ghost use Rattle.std.specs.Prelude.{◌≡◌, IfOk, vec_len};
ghost use Rattle.port_base.specs.PortViews.{source_view};
ghost use Rattle.check_command.specs.PlanReading.{PlanReading, most_read};

use otn_base::Memory;
use otn_base::limits::MOST_PLAN_BYTES;
use plan_file::{NoPlan, Plan, PlanError};
use port_base::{Reading, Source, read_whole};
use std::alloc::{AllocError, Global};

/// What a plan's source gave.
#[derive(Drop)]
pub enum Planned {
    /// A plan that is accepted.
    Accepted(Plan),
    /// A text that breaks this rule first, at this place.
    Refused(PlanError, u64),
    /// Nothing that counts: a read of it failed.
    Fault,
}

/// Reads the plan, of 1,048,576 bytes at most and one more that shows that it is longer.
pub fn read_plan<P: Source>(alloc: Global, plan: &mut P) -> Result<Planned, Memory>
    ensures { PlanReading result (source_view P.Source plan.old) (source_view P.Source plan.new) }
{
    let mut text = plan_buffer(alloc)?;
    let (reading, count) = read_whole(plan, &mut text);
    if reading == Reading::Lost {
        return Ok(Planned::Fault);
    }
    match Plan::read(alloc, &text[..count]) {
        Ok(plan) => Ok(Planned::Accepted(plan)),
        Err(NoPlan::Refused(error, place)) => Ok(Planned::Refused(error, place)),
        Err(NoPlan::Memory) => Err(Memory),
    }
}

// Takes room for the longest plan and one byte more.
fn plan_buffer(alloc: Global) -> Result<Vec<u8>, AllocError>
    ensures { IfOk result (λ buffer. vec_len buffer ≡ most_read) }
{
    vec![in alloc; 0; MOST_PLAN_BYTES + 1]
}
