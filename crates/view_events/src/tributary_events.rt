// The events of a tributary, and the sums of its turns.
ghost use Rattle.std.specs.Prelude.{◌≡◌, ◌≢◌, ◌&&◌, not, [], ◌∷◌, List, None};
ghost use Rattle.view_events.specs.declared.said.TributarySaid.{TributarySaid};
ghost use Rattle.view_events.specs.TributaryEvents.{TributaryCounts, TributaryStands, cause_of, change_of, is_down};

use crate::said::{SinkState, TributarySaid};
use crate::tally::{counted, run_on};

/// What changes of a tributary in a turn.
#[derive(Clone, Copy, Debug, PartialEq, Eq)]
pub enum Change {
    /// Its sink is up, and was not: Cm and CnD, and how many turns just before it was not up.
    Up(u64, u64, u64),
    /// It waits again.
    Waiting,
    /// It is down, and was waiting.
    NeverUp,
    /// It is down, and was not: the turn has no multiframe.
    NoMultiframe,
    /// The last two MSI bytes of this slot were not those of its port.
    WrongMsi(u8),
    /// Its messages are damaged.
    Damaged,
}

/// What was said of a tributary in the turns so far in which it was shown. Its numbers stop at the end of 64 bits.
#[derive(Clone, Copy, Debug, PartialEq, Eq)]
pub struct TributaryTally {
    /// How its sink stood after the last turn: it waits before its first.
    pub state: SinkState,
    /// Turns just before in which it was not up.
    pub without: u64,
    /// Turns in which it was up.
    pub up: u64,
    /// Turns in which it was waiting.
    pub waiting: u64,
    /// Turns in which it was down.
    pub down: u64,
    /// How often it went down.
    pub times: u64,
    /// How many turns in a row it is down by now.
    pub row: u64,
    /// The most turns in a row that it was down.
    pub longest: u64,
    /// The first turn in which it was shown.
    pub first: u64,
    /// The last turn in which it was shown.
    pub last: u64,
}

impl TributaryTally {
    // Of a tributary that was shown in no turn, before this one.
    fn new(first: u64) -> TributaryTally
        ensures counts { TributaryCounts [] result }
        ensures first { result.first ≡ first }
    {
        TributaryTally {
            state: SinkState::Waiting,
            without: 0,
            up: 0,
            waiting: 0,
            down: 0,
            times: 0,
            row: 0,
            longest: 0,
            first,
            last: 0,
        }
    }

    /// Of a tributary of which this is said in its first turn.
    pub fn of(said: TributarySaid) -> TributaryTally
        ensures { TributaryStands (said ∷ []) result }
    {
        let mut tally = TributaryTally::new(said.turn);
        tally.take(said);
        tally
    }

    /// Takes what is said of it in the next turn in which it is shown.
    pub fn take_next(&mut self, said: TributarySaid)
        ensures { (past : List TributarySaid) → past ≢ [] → TributaryStands past self.old
            → TributaryStands (said ∷ past) self.new }
    {
        self.take(said);
    }

    // Takes what is said of it; its first turn stays.
    fn take(&mut self, said: TributarySaid)
        ensures first { self.new.first ≡ self.old.first }
        ensures counts { (past : List TributarySaid) → TributaryCounts past self.old
            → TributaryCounts (said ∷ past) self.new }
    {
        self.times = counted(self.times, goes_down(self.state, said.state));
        self.state = said.state;
        self.without = run_on(self.without, !said.state.is_up());
        self.up = counted(self.up, said.state.is_up());
        self.waiting = counted(self.waiting, said.state.is_waiting());
        self.down = counted(self.down, said.state.is_down());
        self.row = run_on(self.row, said.state.is_down());
        self.longest = self.longest.max(self.row);
        self.last = said.turn;
    }

    /// Its event in the next turn of which this is said, where that is one. The turn has its multiframe or not, and the
    /// last two MSI bytes of one of its slots were wrong or not.
    pub fn change(&self, said: TributarySaid, whole: bool, marked: Option<u8>) -> Option<Change>
        ensures { (past : List TributarySaid) → TributaryStands past self.now
            → result ≡ change_of past said whole marked }
    {
        if said.state == self.state {
            return None;
        }
        Some(match said.state {
            SinkState::Up => Change::Up(said.cm, said.cnd, self.without),
            SinkState::Waiting => Change::Waiting,
            SinkState::Down => cause_of(self.state, whole, marked),
        })
    }
}

/// The event of a tributary in its first turn, of which this is said.
pub fn first_change(said: TributarySaid, whole: bool) -> Option<Change>
    ensures { result ≡ change_of [] said whole None }
{
    match said.state {
        SinkState::Up => Some(Change::Up(said.cm, said.cnd, 0)),
        SinkState::Waiting => None,
        SinkState::Down => Some(cause_of(SinkState::Waiting, whole, None)),
    }
}

// Whether it is down, and was not.
fn goes_down(was: SinkState, is: SinkState) -> bool
    ensures { result ≡ (is_down is && not (is_down was)) }
{
    is == SinkState::Down && was != SinkState::Down
}

// Why it goes down.
fn cause_of(before: SinkState, whole: bool, marked: Option<u8>) -> Change
    ensures { result ≡ cause_of before whole marked }
{
    if before == SinkState::Waiting {
        return Change::NeverUp;
    }
    if !whole {
        return Change::NoMultiframe;
    }
    match marked {
        Some(slot) => Change::WrongMsi(slot),
        None => Change::Damaged,
    }
}
