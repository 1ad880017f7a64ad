// The end of the command: whether a line has more than its turns want, and whether a place is dead.
ghost use Rattle.std.specs.Prelude.{◌≡◌, ◌≢◌};
ghost use Rattle.port_base.specs.PortViews.{SinkView};
ghost use Rattle.port_base.specs.Racks.{bays_view};
ghost use Rattle.protect_selector.specs.Protecting.{OnlyProtected, ends_of};
ghost use Rattle.protect_selector.specs.Steps.Protecting.{SettledAs, has_dead};

use crate::protecting::Protecting;
use port_base::{Ended, Rack, Sink, Source};
use tributary_line::{either, ended_by, is_dead_in, is_dead_out};

/// Asks both lines for one byte more, each where its end was not seen, and says how the command ended.
pub(crate) fn settle<I: Source, O: Sink>(parts: &Protecting, bays: &mut Rack<I, O>) -> Ended
    ensures settled { (report : SinkView)
        → SettledAs parts.now (ends_of (bays_view I.Source O.Sink bays.old) report)
        (ends_of (bays_view I.Source O.Sink bays.new) report) result }
    ensures other { (result ≢ Ended.ReportFault) × (result ≢ Ended.Memory) }
    ensures alone { OnlyProtected (bays_view I.Source O.Sink bays.old) (bays_view I.Source O.Sink bays.new) }
{
    let working = parts.working.ask_more(bays.line_in_mut(0));
    let protection = parts.protection.ask_more(bays.line_in_mut(1));
    let dead = has_dead(bays);
    ended_by(dead, either(working, protection))
}

// Whether a place of the command is dead.
fn has_dead<I: Source, O: Sink>(bays: &Rack<I, O>) -> bool
    ensures { (report : SinkView) → result ≡ has_dead (ends_of (bays_view I.Source O.Sink bays.now) report) }
{
    is_dead_in(bays.line_in(0)) || is_dead_in(bays.line_in(1)) || is_dead_out(bays.line_out(0))
}
