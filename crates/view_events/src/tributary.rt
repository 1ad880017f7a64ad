// A tributary on the line, by its label, and what was told of it.
ghost use Rattle.std.specs.Prelude.{◌≡◌, ◌≢◌, ◌<◌, ◌++◌, ◌∷◌, [], List, All, None, IfOk};
ghost use Rattle.view_events.specs.declared.said.MsiSaid.{MsiSaid};
ghost use Rattle.view_events.specs.declared.said.TributarySaid.{TributarySaid};
ghost use Rattle.view_events.specs.declared.said.TurnSaid.{TurnSaid};
ghost use Rattle.view_events.specs.declared.slot_events.TheConstants.{SLOTS};
ghost use Rattle.view_events.specs.LineEvents.{LineStands};
ghost use Rattle.view_events.specs.SlotEvents.{SlotStands};
ghost use Rattle.view_events.specs.TributaryEvents.{TributaryStands, change_of, marked_slot, tributary_event};
ghost use Rattle.view_events.specs.EventText.{changes_text, tributary_sums_text};
ghost use Rattle.view_events.specs.Steps.Places.{is_next};

use crate::event_text::{put_change, put_tributary_sums};
use crate::line_events::LineTally;
use crate::said::TributarySaid;
use crate::slot_events::SlotTally;
use crate::tributary_events::{TributaryTally, first_change};
use std::alloc::AllocError;

/// A tributary that was shown in a turn.
#[derive(Drop)]
pub struct Tributary {
    /// Its name, or its port and slots where it has none.
    pub label: Vec<u8>,
    /// What was said of it.
    pub tally: TributaryTally,
}

impl Tributary {
    /// It, of which this is said in its first turn, and writes its event, where there is one. Its sink waited.
    pub fn first_told(
        label: Vec<u8>,
        said: TributarySaid,
        whole: bool,
        out: &mut Vec<u8>,
    ) -> Result<Tributary, AllocError>
        ensures told { IfOk result (λ _. out.new.items ≡ out.old.items
            ++ changes_text said.turn label.items (change_of [] said whole None)) }
        ensures label { IfOk result (λ one. one.label.items ≡ label.items) }
        ensures stands { IfOk result (λ one. TributaryStands (said ∷ []) one.tally) }
    {
        put_change(out, said.turn, label.as_slice(), first_change(said, whole))?;
        Ok(Tributary {
            label,
            tally: TributaryTally::of(said),
        })
    }

    /// Takes what is said of it in the next turn in which it is shown, with its slots and the MSI byte of its port, and
    /// writes its event, where there is one. What was said of the line and of its slots takes in that turn.
    pub fn tell(
        &mut self,
        said: TributarySaid,
        slots: &[u8],
        right: u8,
        line: &LineTally,
        seen: &SlotTally,
        out: &mut Vec<u8>,
    ) -> Result<(), AllocError>
        requires { All (λ slot. slot < SLOTS) slots.now }
        ensures told { IfOk result (λ _. (turns : List TurnSaid) (bytes : List MsiSaid) (past : List TributarySaid)
            → LineStands turns line.now → SlotStands bytes seen.now
            → TributaryStands past self.old.tally → out.new.items ≡ out.old.items
            ++ changes_text said.turn self.old.label.items (tributary_event turns bytes past said slots.now right)) }
        ensures label { IfOk result (λ _. self.new.label ≡ self.old.label) }
        ensures stands { IfOk result (λ _. (past : List TributarySaid) → past ≢ []
            → TributaryStands past self.old.tally → TributaryStands (said ∷ past) self.new.tally) }
    {
        let marked = self.marked(slots, right, seen);
        self.tell_by(said, line.is_whole(), marked, out)
    }

    // The first of these slots whose last two MSI bytes, since it is shown, were not this one.
    fn marked(&self, slots: &[u8], right: u8, seen: &SlotTally) -> Option<u8>
        requires { All (λ slot. slot < SLOTS) slots.now }
        ensures { (bytes : List MsiSaid) (past : List TributarySaid) → SlotStands bytes seen.now
            → TributaryStands past self.now.tally → result ≡ marked_slot bytes past slots.now right }
    {
        seen.marked(slots, self.tally.first, right)
    }

    // The same, where the turn has its multiframe or not, and the last two MSI bytes of one of its slots were wrong or
    // not.
    fn tell_by(
        &mut self,
        said: TributarySaid,
        whole: bool,
        marked: Option<u8>,
        out: &mut Vec<u8>,
    ) -> Result<(), AllocError>
        ensures told { IfOk result (λ _. (past : List TributarySaid) → TributaryStands past self.old.tally
            → out.new.items ≡ out.old.items
            ++ changes_text said.turn self.old.label.items (change_of past said whole marked)) }
        ensures label { IfOk result (λ _. self.new.label ≡ self.old.label) }
        ensures stands { IfOk result (λ _. (past : List TributarySaid) → past ≢ []
            → TributaryStands past self.old.tally → TributaryStands (said ∷ past) self.new.tally) }
    {
        let change = self.tally.change(said, whole, marked);
        put_change(out, said.turn, self.label.as_slice(), change)?;
        self.tally.take_next(said);
        Ok(())
    }

    /// Whether a line in this turn of a tributary of this label may be its: it has this label, and no line of this turn
    /// was of it yet.
    pub(crate) fn is_next(&self, turn: u64, label: &[u8]) -> bool
        ensures { result ≡ is_next turn label.now self.now }
    {
        self.tally.last != turn && label == self.label.as_slice()
    }

    /// Writes its sums.
    pub fn put_sums(&self, out: &mut Vec<u8>) -> Result<(), AllocError>
        ensures { IfOk result (λ _. out.new.items ≡ out.old.items
            ++ tributary_sums_text self.now.label.items self.now.tally) }
    {
        put_tributary_sums(out, self.label.as_slice(), &self.tally)
    }
}
