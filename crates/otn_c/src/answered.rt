// The words of a call, answered over places and a report in memory.
ghost use Rattle.std.specs.Prelude.{◌≡◌};
ghost use Rattle.port_base.specs.PortViews.{sink_view};
ghost use Rattle.port_base.specs.Racks.{bays_view};
ghost use Rattle.line_tool.specs.Words.{texts};
ghost use Rattle.otn_c.specs.Calls.{IsAnswered};

use crate::places::Places;
use crate::{GrowingSink, SliceSource};
use line_tool::{NumberChooser, Status, order_of, run};
use port_base::{Chooser, FirstReady, Sink, Source};
use std::alloc::Global;

/// Answers the words over these places, with the plan of these bytes, in the order that the words say.
pub(crate) fn answer(
    alloc: Global,
    words: &[String],
    plan: &[u8],
    bays: &mut Places<'_>,
    report: &mut GrowingSink,
) -> Status
    ensures { IsAnswered (texts words.now) plan.now
        (bays_view ⟦<SliceSource<'static> as Source>⟧ ⟦<GrowingSink as Sink>⟧ bays.old)
        (bays_view ⟦<SliceSource<'static> as Source>⟧ ⟦<GrowingSink as Sink>⟧ bays.new)
        (sink_view ⟦<GrowingSink as Sink>⟧ report.old) (sink_view ⟦<GrowingSink as Sink>⟧ report.new) result }
{
    match order_of(words) {
        Some(number) => {
            let mut chooser = NumberChooser::new(number);
            answer_by(alloc, words, plan, bays, &mut chooser, report)
        }
        None => {
            let mut chooser = FirstReady::new();
            answer_by(alloc, words, plan, bays, &mut chooser, report)
        }
    }
}

// The same, by a chooser that was never asked.
fn answer_by<C: Chooser>(
    alloc: Global,
    words: &[String],
    plan: &[u8],
    bays: &mut Places<'_>,
    chooser: &mut C,
    report: &mut GrowingSink,
) -> Status
    requires { C.asked chooser.old ≡ 0 }
    ensures { IsAnswered (texts words.now) plan.now
        (bays_view ⟦<SliceSource<'static> as Source>⟧ ⟦<GrowingSink as Sink>⟧ bays.old)
        (bays_view ⟦<SliceSource<'static> as Source>⟧ ⟦<GrowingSink as Sink>⟧ bays.new)
        (sink_view ⟦<GrowingSink as Sink>⟧ report.old) (sink_view ⟦<GrowingSink as Sink>⟧ report.new) result }
{
    let mut source = SliceSource::new(plan);
    run(alloc, words, &mut source, bays, chooser, report)
}
