// What a turn says of a line, and of a tributary on it.
ghost use Rattle.std.specs.Prelude.{◌≡◌};
ghost use Rattle.line_view.specs.ViewText.{counts_between};

use line_side::LineCounts;
use tributary_model::SinkState;

/// What a turn says of a tributary.
#[derive(Clone, Copy, Debug, PartialEq, Eq)]
pub struct Told {
    /// How its sink stands after the turn.
    pub state: SinkState,
    /// Cm and CnD, where it is up.
    pub pair: Option<(u16, u16)>,
    /// How many bytes the sink emitted in the turn.
    pub bytes: usize,
}

/// How much the numbers of a line grew in a turn.
#[derive(Clone, Copy, Debug, PartialEq, Eq)]
pub struct TurnCounts {
    /// Whole frames used, lead-in among them.
    pub frames: u64,
    /// Frames passed over in search of a multiframe.
    pub lead_in: u64,
    /// Lost multiframes: 0 or 1.
    pub lost: u64,
    /// Used frames with a wrong FAS.
    pub fas: u64,
    /// Used frames with a wrong SM parity.
    pub sm: u64,
    /// Used frames with a wrong PM parity.
    pub pm: u64,
}

/// What a turn says of the line.
#[derive(Clone, Copy, Debug, PartialEq, Eq)]
pub struct TurnSeen {
    /// Whether the line has ended with it.
    pub ended: bool,
    /// Whether it has a multiframe.
    pub whole: bool,
    /// How much the numbers of the line grew.
    pub counts: TurnCounts,
}

/// How much they grew from these to those.
pub(crate) fn counts_between(was: LineCounts, is: LineCounts) -> TurnCounts
    ensures { result ≡ counts_between was is }
{
    TurnCounts {
        frames: is.frames.saturating_sub(was.frames),
        lead_in: is.lead_in.saturating_sub(was.lead_in),
        lost: is.lost.saturating_sub(was.lost),
        fas: is.fas.saturating_sub(was.fas),
        sm: is.sm.saturating_sub(was.sm),
        pm: is.pm.saturating_sub(was.pm),
    }
}
