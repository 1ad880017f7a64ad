// A walk along a line: turn by turn, up to and with the turn in which the line ended.
ghost use Rattle.std.specs.Prelude.{◌≡◌, ◌≢◌, ◌<◌, ℕ, List, [], not};
ghost use Rattle.otn_base.specs.declared.limits.TheConstants.{MOST_TURNS};
ghost use Rattle.port_base.specs.Asked.{ByteAnswer};
ghost use Rattle.port_base.specs.InPlace.{in_view};
ghost use Rattle.port_base.specs.PortViews.{SinkView, sink_view};
ghost use Rattle.port_base.specs.Views.{InView};
ghost use Rattle.line_side.specs.LineForm.{LineForm};
ghost use Rattle.line_side.specs.LineStands.{LineView};
ghost use Rattle.tributary_line.specs.Walking.{Walked, TurnWalked, WalkWent, WalkEnds, after_by};

use crate::settling::{either, ended_by};
use otn_base::limits::MOST_TURNS;
use port_base::{Ended, InPlaceOf, Sink, Source, Written, ask_byte, is_dead_in};

/// What comes after a turn.
pub enum After {
    /// The next one.
    NextTurn,
    /// None: the line has ended with it.
    LineEnded,
    /// None: a write of the report failed in it.
    ReportFailed,
}

/// What goes along a line and writes a report of it, turn by turn.
pub trait Walker {
    /// What is fixed of its line.
    ghost form: { Self → LineForm };

    /// The line, as it is seen.
    ghost line: { Self → LineView };

    /// What it needs to do a turn.
    ghost ready: { Self → Type 0 };

    /// What holds between turns, of what it was before the first turn and is, of the report as it was and is, of all
    /// bytes of the line, and of how many turns went by.
    ghost holds: { Self → Self → SinkView → SinkView → List ℕ → ℕ → Type 0 };

    /// The same behind so many turns and one in which a write failed.
    ghost lost: { Self → Self → SinkView → SinkView → List ℕ → ℕ → Type 0 };

    /// Does turn t + 1, and says what comes after it.
    fn turn<I: Source, K: Sink>(
        &mut self,
        t: u32,
        place: &mut InPlaceOf<I>,
        report: &mut K,
    ) -> After
        requires few { t < MOST_TURNS }
        requires ready { ready self.old }
        ensures ready { ready self.new }
        ensures walked { (origin : Self) (first : InView) (was : SinkView) (read : List ℕ)
            → Walked (form origin) first (in_view I.Source place.old) read t (line self.old)
            (holds origin self.old was (sink_view K.Sink report.old))
            → TurnWalked result (form origin) first (in_view I.Source place.new) read t (line self.old) (line self.new)
            (holds origin self.new was (sink_view K.Sink report.new))
            (lost origin self.new was (sink_view K.Sink report.new)) };
}

/// Does the turns of a line, up to and with the one in which the line ended, 16,384 at most, and answers how many they
/// are; None where a write failed, which ends the walk at once.
pub fn walk<W: Walker, I: Source, K: Sink>(
    walker: &mut W,
    place: &mut InPlaceOf<I>,
    report: &mut K,
) -> Option<u32>
    requires ready { W.ready walker.old }
    ensures went { (first : InView) (was : SinkView)
        → Walked (W.form walker.old) first (in_view I.Source place.old) [] 0 (W.line walker.old)
        (W.holds walker.old walker.old was (sink_view K.Sink report.old))
        → WalkWent result (W.form walker.old) first (in_view I.Source place.new) (W.line walker.new)
        (W.holds walker.old walker.new was (sink_view K.Sink report.new))
        (W.lost walker.old walker.new was (sink_view K.Sink report.new)) }
{
    for t in 0..MOST_TURNS as u32 {
        match walker.turn(t, place, report) {
            After::NextTurn => {}
            After::LineEnded => return Some(t + 1),
            After::ReportFailed => return None,
        }
    }
    Some(MOST_TURNS as u32)
}

/// What comes after a turn, by how its write went and whether the line has ended.
pub fn after_turn(written: Written, ended: bool) -> After
    ensures { result ≡ after_by written ended }
{
    match written {
        Written::Lost => After::ReportFailed,
        Written::Whole => {
            if ended {
                After::LineEnded
            } else {
                After::NextTurn
            }
        }
    }
}

/// How a walk ends after its last turn: Cut where the line's place is dead, else Unfinished where a byte is left, else
/// Done. Where the end of the line was not seen, its place is asked for one byte more; else it has so many after its
/// last whole frame.
pub fn end_walk<I: Source>(end_seen: bool, rest: u64, place: &mut InPlaceOf<I>) -> Ended
    ensures ends { WalkEnds end_seen rest (in_view I.Source place.old) (in_view I.Source place.new) result }
    ensures written { (result ≢ Ended.ReportFault) × (result ≢ Ended.Memory) }
{
    let came = ask_more(end_seen, place);
    ended_by(is_dead_in(place), either(came, rest > 0))
}

// Asks the place for one byte more, where the end of the line was not seen, and says whether it came.
fn ask_more<I: Source>(end_seen: bool, place: &mut InPlaceOf<I>) -> bool
    ensures { ByteAnswer (not end_seen) (in_view I.Source place.old) (in_view I.Source place.new) result }
{
    if end_seen {
        return false;
    }
    ask_byte(place)
}
