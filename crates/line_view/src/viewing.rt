// The view of a line, written to a sink.
ghost use Rattle.std.specs.Prelude.{◌≡◌, ◌≢◌, ℕ, IfOk, Some, map, slice_get};
ghost use Rattle.port_base.specs.InPlace.{in_view};
ghost use Rattle.port_base.specs.PortViews.{sink_view};
ghost use Rattle.line_view.specs.ViewRuns.{ViewEnded};
ghost use Rattle.line_view.specs.Steps.ViewRuns.{IsReady, IsNew, form_in, shows_in};
ghost use Rattle.line_view.specs.Watching.{IsOnLine, asked_of};

use crate::lines::{write_end, write_head, write_lines};
use crate::msi::MsiBytes;
use crate::shown::Shown;
use crate::turns::do_turn;
use crate::watched::{Watched, new_watched};
use arrayvec::ArrayVec;
use otn_base::limits::{GROUPS, MOST_SLOTS};
use otn_base::{LineKind, Memory};
use port_base::{Ended, InPlaceOf, Sink, Source, Written};
use std::alloc::Global;
use tributary_line::{After, Walker, after_turn, end_walk, walk};

// A line with the tributaries that are watched on it, and room for what a sink emits in a turn.
#[derive(Drop)]
struct Viewing {
    kind: LineKind,
    scrambled: bool,
    line: line_side::LineIn,
    watched: Vec<Watched>,
    room: Vec<u8>,
}

/// Writes the view of a line of this kind, scrambled or not, and of these tributaries on it: 16,384 turns at most, up
/// to and with the turn in which the line ended. Where its end was not seen and it is not dead, it is then asked for
/// one byte more. A write that fails ends it at once.
pub fn write_view<I: Source, K: Sink>(
    alloc: Global,
    kind: LineKind,
    scrambled: bool,
    shown: &[Shown],
    line: &mut InPlaceOf<I>,
    report: &mut K,
) -> Ended
    requires { (i : ℕ) (asked : Shown) → slice_get shown.now i ≡ Some asked → IsOnLine kind asked }
    ensures memory { result ≡ Ended.Memory → (line.new ≡ line.old) × (report.new ≡ report.old) }
    ensures run { result ≢ Ended.Memory → ViewEnded (record { kind = kind; scrambled = scrambled })
        (map asked_of shown.now) (in_view I.Source line.old) (in_view I.Source line.new)
        (sink_view K.Sink report.old) (sink_view K.Sink report.new) result }
{
    let Ok(mut viewing) = new_viewing(alloc, kind, scrambled, shown) else {
        return Ended::Memory;
    };
    write_text(&mut viewing, line, report)
}

// They, before the line's first turn.
fn new_viewing(
    alloc: Global,
    kind: LineKind,
    scrambled: bool,
    shown: &[Shown],
) -> Result<Viewing, Memory>
    requires { (i : ℕ) (asked : Shown) → slice_get shown.now i ≡ Some asked → IsOnLine kind asked }
    ensures ready { IfOk result IsReady }
    ensures form { IfOk result (λ viewing. form_in viewing ≡ record { kind = kind; scrambled = scrambled }) }
    ensures shows { IfOk result (λ viewing. shows_in viewing ≡ map asked_of shown.now) }
    ensures new { IfOk result IsNew }
{
    let line = line_side::LineIn::new(alloc, kind, scrambled)?;
    let watched = new_watched(alloc, kind, shown)?;
    let room = vec![in alloc; 0; MOST_SLOTS * (GROUPS + 1)]?;
    Ok(Viewing {
        kind,
        scrambled,
        line,
        watched,
        room,
    })
}

// The whole text, and how the view ends.
fn write_text<I: Source, K: Sink>(
    viewing: &mut Viewing,
    place: &mut InPlaceOf<I>,
    report: &mut K,
) -> Ended
    requires ready { IsReady viewing.old }
    requires new { IsNew viewing.old }
    ensures run { ViewEnded (form_in viewing.old) (shows_in viewing.old) (in_view I.Source place.old)
        (in_view I.Source place.new) (sink_view K.Sink report.old) (sink_view K.Sink report.new) result }
    ensures some { result ≢ Ended.Memory }
{
    if write_head(report, viewing.kind, viewing.scrambled) == Written::Lost {
        return Ended::ReportFault;
    }
    let Some(turns) = walk(viewing, place, report) else {
        return Ended::ReportFault;
    };
    if write_end(report, turns, viewing.line.rest()) == Written::Lost {
        return Ended::ReportFault;
    }
    end_walk(viewing.line.end_seen(), viewing.line.rest(), place)
}

impl Walker for Viewing {
    ghost use Rattle.line_view.specs.Steps.ViewRuns.{IsReady, ViewHolds, ViewLost, form_in};

    ghost form = { form_in };

    ghost line = { λ v. v.line };

    ghost ready = { IsReady };

    ghost holds = { ViewHolds };

    ghost lost = { ViewLost };

    fn turn<I: Source, K: Sink>(
        &mut self,
        t: u32,
        place: &mut InPlaceOf<I>,
        report: &mut K,
    ) -> After {
        let mut msi: MsiBytes = ArrayVec::new();
        let seen = do_turn(
            self.kind,
            t,
            &mut self.line,
            &mut self.watched,
            &mut msi,
            &mut self.room,
            place,
        );
        let written = write_lines(report, t, seen, msi.as_slice(), self.watched.as_slice());
        after_turn(written, seen.ended)
    }
}
