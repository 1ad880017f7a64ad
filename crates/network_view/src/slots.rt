// The free slots of a line.
ghost use Rattle.std.specs.Prelude.{◌≡◌, ◌++◌, ◌∷◌, [], IfOk, if◌then◌else◌, not};
ghost use Rattle.device_model.specs.Entries.{form_out};
ghost use Rattle.network_view.specs.Slots.{free_slots, is_put_on, is_used};

use crate::meeting::has_slot;
use otn_base::{LineKind, Memory};
use plan_file::{Connection, Plan, ToEnd};
use std::alloc::Global;
use turn_pieces::kind_by;

/// The slots of line output `line` of the plan that no connection has in any turn, in rising order.
pub fn free_slots(alloc: Global, plan: &Plan, line: u8) -> Result<Vec<u8>, Memory>
    ensures free { IfOk result (λ free. free.items ≡ free_slots plan.now line) }
{
    let mut free = Vec::new(alloc);
    for k in 0..kind_out(plan, line).slots() {
        add_free(&mut free, plan, line, k + 1)?;
    }
    Ok(free)
}

// Appends the slot where it is free.
fn add_free(free: &mut Vec<u8>, plan: &Plan, line: u8, slot: u8) -> Result<(), Memory>
    ensures { IfOk result (λ _. free.new.items ≡ free.old.items
        ++ (if not (is_used plan.now line slot) then slot ∷ [] else [])) }
{
    if is_used(plan, line, slot) {
        return Ok(());
    }
    free.push(slot)?;
    Ok(())
}

/// The kind of a line output of the plan.
pub fn kind_out(plan: &Plan, line: u8) -> LineKind
    ensures { result ≡ (form_out plan.now line).kind }
{
    kind_by(plan.otu3_out.as_slice(), line)
}

fn is_used(plan: &Plan, line: u8, slot: u8) -> bool
    ensures { result ≡ is_used plan.now line slot }
{
    plan.connections
        .as_slice()
        .iter()
        .any(|x| is_put_on(x, line, slot))
}

fn is_put_on(x: &Connection, line: u8, slot: u8) -> bool
    ensures { result ≡ is_put_on line slot x.now }
{
    match &x.to {
        ToEnd::Line(other, _, slots) => *other == line && has_slot(slots.as_slice(), slot),
        ToEnd::Client(_) => false,
    }
}
