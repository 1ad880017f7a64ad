// The view of a line by a plan.
ghost use Rattle.std.specs.Prelude.{◌≡◌, None};
ghost use Rattle.port_base.specs.InPlace.{in_view};
ghost use Rattle.port_base.specs.PortViews.{source_view, sink_view};
ghost use Rattle.plan_file.specs.Answer.{fault_in};
ghost use Rattle.plan_views.specs.PlanRuns.{ViewedBy, ViewsLine};
ghost use Rattle.plan_views.specs.PlanViews.{form_by, shown_by};

use crate::lines::{is_scrambled, kind_of};
use crate::shown::shown_by;
use crate::side::Side;
use check_command::{Planned, read_plan};
use line_view::write_view;
use otn_base::Memory;
use plan_file::{Plan, PlanError};
use port_base::{Ended, InPlaceOf, Sink, Source};
use std::alloc::Global;

/// How a view by a plan ended, once it had its memory.
#[derive(Clone, Copy, Debug, PartialEq, Eq)]
pub enum Viewed {
    /// The plan is accepted, and the view of its line ended so.
    Shown(Ended),
    /// The plan breaks this rule first, at this place.
    Refused(PlanError, u64),
    /// A read of the plan failed.
    PlanFault,
}

/// Reads the plan, and where it is accepted writes the view of a line of this side, of the form that the plan says, and
/// of the tributaries that it has on it.
pub fn view_by_plan<P: Source, I: Source, K: Sink>(
    alloc: Global,
    plan: &mut P,
    side: Side,
    number: u8,
    line: &mut InPlaceOf<I>,
    report: &mut K,
) -> Result<Viewed, Memory>
    ensures { ViewedBy side number (source_view P.Source plan.old) (source_view P.Source plan.new)
        (in_view I.Source line.old) (in_view I.Source line.new)
        (sink_view K.Sink report.old) (sink_view K.Sink report.new) result }
{
    match read_plan(alloc, plan)? {
        Planned::Accepted(plan) => view_line(alloc, &plan, side, number, line, report),
        Planned::Refused(error, place) => Ok(Viewed::Refused(error, place)),
        Planned::Fault => Ok(Viewed::PlanFault),
    }
}

// Writes the view of a line of an accepted plan.
fn view_line<I: Source, K: Sink>(
    alloc: Global,
    plan: &Plan,
    side: Side,
    number: u8,
    line: &mut InPlaceOf<I>,
    report: &mut K,
) -> Result<Viewed, Memory>
    requires accepted { fault_in plan.now ≡ None }
    ensures { ViewsLine (form_by plan.now side number) (shown_by plan.now side number) (in_view I.Source line.old)
        (in_view I.Source line.new)
        (sink_view K.Sink report.old) (sink_view K.Sink report.new) result }
{
    let shown = shown_by(alloc, plan, side, number)?;
    let kind = kind_of(plan, side, number);
    let scrambled = is_scrambled(plan, side, number);
    match write_view(alloc, kind, scrambled, shown.as_slice(), line, report) {
        Ended::Memory => Err(Memory),
        ended => Ok(Viewed::Shown(ended)),
    }
}
