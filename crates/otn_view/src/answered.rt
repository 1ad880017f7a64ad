// What was asked for, answered over a plan, a line and a report.
ghost use Rattle.std.specs.Prelude.{◌≡◌};
ghost use Rattle.port_base.specs.InPlace.{in_view};
ghost use Rattle.port_base.specs.PortViews.{source_view, sink_view};
ghost use Rattle.otn_view.specs.Answers.{IsViewed, viewed_status};
ghost use Rattle.otn_view.specs.Words.{AreOnLine};

use crate::words::Asked;
use command_base::{Status, status_of};
use line_view::write_view;
use otn_base::Memory;
use plan_views::{Viewed, view_by_plan};
use port_base::{InPlaceOf, Sink, Source};
use std::alloc::Global;

/// Writes the view that is asked for: of a line of the form that is given, or of the one that the plan says. The plan
/// is read where it is asked for alone.
pub(crate) fn answer<P: Source, I: Source, K: Sink>(
    alloc: Global,
    asked: &Asked,
    plan: &mut P,
    line: &mut InPlaceOf<I>,
    report: &mut K,
) -> Result<Status, Memory>
    requires { AreOnLine asked.now }
    ensures { IsViewed asked.now (source_view P.Source plan.old) (source_view P.Source plan.new)
        (in_view I.Source line.old) (in_view I.Source line.new)
        (sink_view K.Sink report.old) (sink_view K.Sink report.new) result }
{
    match asked {
        Asked::Given(kind, scrambled, shown) => {
            let ended = write_view(alloc, *kind, *scrambled, shown.as_slice(), line, report);
            Ok(status_of(ended))
        }
        Asked::Planned(side, number) => {
            let viewed = view_by_plan(alloc, plan, *side, *number, line, report)?;
            Ok(status_of_view(viewed))
        }
    }
}

// The answer of the program to a view by a plan that ended so.
fn status_of_view(viewed: Viewed) -> Status
    ensures { result ≡ viewed_status viewed }
{
    match viewed {
        Viewed::Shown(ended) => status_of(ended),
        Viewed::Refused(error, place) => Status::Plan(error, place),
        Viewed::PlanFault => Status::PlanFault,
    }
}
