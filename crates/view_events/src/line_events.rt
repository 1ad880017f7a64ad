// The events of a line, and the sums of all its turns.
ghost use Rattle.std.specs.Prelude.{◌≡◌, [], ◌∷◌, List};
ghost use Rattle.view_events.specs.declared.said.TurnSaid.{TurnSaid};
ghost use Rattle.view_events.specs.LineEvents.{LineStands, alignment_event, alignment_told, lead_in_event, error_event, whole_now};

use crate::said::{Alignment, TurnSaid};
use crate::tally::{added, counted, run_on};

/// What changes of a line in a turn.
#[derive(Clone, Copy, Debug, PartialEq, Eq)]
pub enum LineEvent {
    /// The turn has its multiframe, after so many turns without one.
    Found(u64),
    /// It lost the multiframe.
    Lost,
    /// No multiframe was found.
    NotFound,
    /// The line ended.
    Ended,
    /// So many frames were passed over in search of a multiframe.
    PassedOver(u64),
    /// So many used frames have a wrong FAS, a wrong SM parity, a wrong PM parity.
    Errors(u64, u64, u64),
}

/// What was said of a line in the turns so far. Its numbers stop at the end of 64 bits.
#[derive(Clone, Copy, Debug, PartialEq, Eq)]
pub struct LineTally {
    /// How the last turn was aligned; none before the first one.
    pub last: Option<Alignment>,
    /// Turns without a multiframe just before.
    pub without: u64,
    /// Turns with a multiframe.
    pub whole: u64,
    /// Turns that lost it.
    pub lost: u64,
    /// Turns in which none was found.
    pub hunting: u64,
    /// Used frames with a wrong FAS.
    pub fas: u64,
    /// Used frames with a wrong SM parity.
    pub sm: u64,
    /// Used frames with a wrong PM parity.
    pub pm: u64,
}

impl LineTally {
    /// Of a line of which nothing was said.
    pub fn new() -> LineTally
        ensures { LineStands [] result }
    {
        LineTally {
            last: None,
            without: 0,
            whole: 0,
            lost: 0,
            hunting: 0,
            fas: 0,
            sm: 0,
            pm: 0,
        }
    }

    /// Takes what is said of the next turn.
    pub fn take(&mut self, said: TurnSaid)
        ensures { (past : List TurnSaid) → LineStands past self.old → LineStands (said ∷ past) self.new }
    {
        self.last = Some(said.alignment);
        self.without = run_on(self.without, !said.alignment.is_whole());
        self.whole = counted(self.whole, said.alignment.is_whole());
        self.lost = counted(self.lost, said.alignment.is_lost());
        self.hunting = counted(self.hunting, said.alignment.is_hunting());
        self.fas = added(self.fas, said.fas);
        self.sm = added(self.sm, said.sm);
        self.pm = added(self.pm, said.pm);
    }

    /// Whether the last turn has its multiframe.
    pub fn is_whole(&self) -> bool
        ensures { (past : List TurnSaid) → LineStands past self.now → result ≡ whole_now past }
    {
        self.last == Some(Alignment::Whole)
    }

    /// The alignment of the next turn, where that is an event.
    pub fn alignment_event(&self, alignment: Alignment) -> Option<LineEvent>
        ensures { (past : List TurnSaid) → LineStands past self.now → result ≡ alignment_event past alignment }
    {
        if self.last == Some(alignment) && !alignment.is_lost() {
            return None;
        }
        Some(self.told(alignment))
    }

    // The event of a turn that is aligned so.
    fn told(&self, alignment: Alignment) -> LineEvent
        ensures { (past : List TurnSaid) → LineStands past self.now → result ≡ alignment_told past alignment }
    {
        match alignment {
            Alignment::Whole => LineEvent::Found(self.without),
            Alignment::Lost => LineEvent::Lost,
            Alignment::Hunting => LineEvent::NotFound,
            Alignment::Ended => LineEvent::Ended,
        }
    }
}

/// Frames that were passed over in a turn, where that is an event.
pub fn lead_in_event(said: TurnSaid) -> Option<LineEvent>
    ensures { result ≡ lead_in_event said }
{
    if said.lead_in == 0 {
        return None;
    }
    Some(LineEvent::PassedOver(said.lead_in))
}

/// Frames of a turn with errors, where that is an event.
pub fn error_event(said: TurnSaid) -> Option<LineEvent>
    ensures { result ≡ error_event said }
{
    if said.fas == 0 && said.sm == 0 && said.pm == 0 {
        return None;
    }
    Some(LineEvent::Errors(said.fas, said.sm, said.pm))
}
