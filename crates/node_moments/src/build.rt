// The parts of a node before turn 1 of a plan.
ghost use Rattle.std.specs.Prelude.{◌≡◌, ◌<◌, ℕ, [], None, Some, IfOk, length, slice_get, vec_len};
ghost use Rattle.std.specs.List.{list_any};
ghost use Rattle.otn_base.specs.declared.limits.TheConstants.{LINES as LINE_PORTS};
ghost use Rattle.port_base.specs.Views.{InView, OutView};
ghost use Rattle.line_side.specs.LineOutput.{LineMade};
ghost use Rattle.line_side.specs.LineStands.{LineStands};
ghost use Rattle.plan_file.specs.Answer.{fault_in};
ghost use Rattle.plan_file.specs.declared.connection.Connection.{Connection};
ghost use Rattle.device_model.specs.Entries.{form_in, form_out};
ghost use Rattle.node_moments.specs.Built.{AreNewLinesIn, AreNewLinesOut, AreNewLinks, IsNewLink};

use device_model::accepted_plans;
use line_side::{LineIn, LineOut};
use node_links::Link;
use otn_base::Memory;
use otn_base::limits::LINES;
use plan_file::Plan;
use std::alloc::Global;
use turn_pieces::{has_number, kind_by};

/// The input lines of a plan, of which nothing was read.
pub fn new_lines_in(alloc: Global, plan: &Plan) -> Result<Vec<LineIn>, Memory>
    ensures { IfOk result (λ lines. AreNewLinesIn plan.now lines.items) }
{
    let mut lines = Vec::new(alloc);
    for a in 0..LINES as u8 {
        lines.push(new_line_in(alloc, plan, a)?)?;
    }
    Ok(lines)
}

fn new_line_in(alloc: Global, plan: &Plan, a: u8) -> Result<LineIn, Memory>
    ensures stands { IfOk result (λ line. (first : InView) → LineStands (form_in plan.now a) first first [] 0 line) }
    ensures pieces { IfOk result (λ line. line.pieces ≡ 0) }
{
    let kind = kind_by(plan.otu3_in.as_slice(), a);
    let scrambled = has_number(plan.scrambled_in.as_slice(), a);
    LineIn::new(alloc, kind, scrambled)
}

/// The output lines of a plan, of which no frame was made.
pub fn new_lines_out(alloc: Global, plan: &Plan) -> Result<Vec<LineOut>, Memory>
    ensures { IfOk result (λ lines. AreNewLinesOut plan.now lines.items) }
{
    let mut lines = Vec::new(alloc);
    for b in 0..LINES as u8 {
        lines.push(new_line_out(alloc, plan, b)?)?;
    }
    Ok(lines)
}

fn new_line_out(alloc: Global, plan: &Plan, b: u8) -> Result<LineOut, Memory>
    requires { b < LINE_PORTS }
    ensures { IfOk result (λ line. (first : OutView) → LineMade b (form_out plan.now b) first first [] line) }
{
    let kind = kind_by(plan.otu3_out.as_slice(), b);
    let scrambled = has_number(plan.scrambled_out.as_slice(), b);
    LineOut::new(alloc, b, kind, scrambled)
}

/// The links of an accepted plan, of which those of turn 1 have started.
pub fn new_links(alloc: Global, plan: &Plan) -> Result<Vec<Link>, Memory>
    requires accepted { fault_in plan.now ≡ None }
    ensures { IfOk result (λ links. AreNewLinks plan.now links.items) }
{
    accepted_plans();
    let count = plan.connections.as_slice().len() as u32;
    let mut links = Vec::new(alloc);
    for i in 0..count {
        links.push(new_link(alloc, plan, i)?)?;
    }
    Ok(links)
}

fn new_link(alloc: Global, plan: &Plan, i: u32) -> Result<Link, Memory>
    requires accepted { fault_in plan.now ≡ None }
    requires entry { i < length plan.now.connections }
    ensures { (x : Connection) → slice_get plan.now.connections i ≡ Some x → IfOk result (IsNewLink x) }
{
    let mut link = Link::new(alloc, plan, i)?;
    link.start_in(0);
    Ok(link)
}
