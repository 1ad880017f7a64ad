// The words of the report of a run.
ghost use Rattle.std.specs.Prelude.{◌≡◌, ◌≤◌, ◌<◌, length};
ghost use Rattle.port_base.specs.InPlace.{in_view};
ghost use Rattle.port_base.specs.OutPlace.{out_view};
ghost use Rattle.port_base.specs.Racks.{bays_view};
ghost use Rattle.device_model.specs.Outcomes.{place_state};
ghost use Rattle.device_model.specs.Report.{state_word, from_word, outcome_word};
ghost use Rattle.run_report.specs.Steps.RunReport.{count_of, port_of};

use crate::port_kind::PortKind;
use device_model::{FromState, Outcome};
use port_base::{InPlaceOf, OutPlaceOf, Rack, Sink, Source};

/// Bytes of the word for a place at most.
pub(crate) const PLACE_WORD: usize = "empty".len();

/// Bytes of the word for a from end at most.
pub(crate) const FROM_WORD: usize = "waiting".len();

/// Bytes of the word for how a run ended at most.
pub(crate) const OUTCOME_WORD: usize = "unfinished".len();

/// How the place of port n of a kind stands.
pub(crate) fn place_word<I: Source, O: Sink>(
    bays: &Rack<I, O>,
    kind: PortKind,
    n: u8,
) -> &'static str
    requires port { n < count_of kind }
    ensures word { result.now ≡ state_word (place_state (bays_view I.Source O.Sink bays.now) (port_of kind n)) }
    ensures short { length result.now ≤ PLACE_WORD }
{
    match kind {
        PortKind::LinesIn => in_word(bays.line_in(n)),
        PortKind::LinesOut => out_word(bays.line_out(n)),
        PortKind::ClientsIn => in_word(bays.client_in(n)),
        PortKind::ClientsOut => out_word(bays.client_out(n)),
    }
}

// How a place for an input stands.
fn in_word<I: Source>(place: &InPlaceOf<I>) -> &'static str
    ensures word { result.now ≡ state_word (in_view I.Source place.now).state }
    ensures short { length result.now ≤ PLACE_WORD }
{
    match place {
        InPlaceOf::Empty => "empty",
        InPlaceOf::Live(..) => "live",
        InPlaceOf::Dead(..) => "dead",
    }
}

// How a place for an output stands.
fn out_word<O: Sink>(place: &OutPlaceOf<O>) -> &'static str
    ensures word { result.now ≡ state_word (out_view O.Sink place.now).state }
    ensures short { length result.now ≤ PLACE_WORD }
{
    match place {
        OutPlaceOf::Empty => "empty",
        OutPlaceOf::Retired(..) => "empty",
        OutPlaceOf::Live(..) => "live",
        OutPlaceOf::Dead(..) => "dead",
    }
}

/// What the from end of a connection was in the last turn, where it was active in that.
pub(crate) fn from_word(from: Option<FromState>) -> &'static str
    ensures word { result.now ≡ from_word from }
    ensures short { length result.now ≤ FROM_WORD }
{
    match from {
        None => "off",
        Some(FromState::Client) => "client",
        Some(FromState::Signal) => "signal",
        Some(FromState::Waiting) => "waiting",
        Some(FromState::Up) => "up",
        Some(FromState::Down) => "down",
    }
}

/// How the run ended.
pub(crate) fn outcome_word(outcome: Outcome) -> &'static str
    ensures word { result.now ≡ outcome_word outcome }
    ensures short { length result.now ≤ OUTCOME_WORD }
{
    match outcome {
        Outcome::Done => "done",
        Outcome::Unfinished => "unfinished",
        Outcome::Cut => "cut",
    }
}
