// The events of a line and of what is on it, turn by turn.
ghost use Rattle.std.specs.Prelude.{◌≡◌, ◌≢◌, ◌<◌, ◌++◌, ◌∷◌, [], ℕ, List, IfNone, IfOk, IfSome, Some, slice_get, vec_len};
ghost use Rattle.std.specs.List.{flat_map, position_or_len};
ghost use Rattle.view_events.specs.declared.said.TurnSaid.{TurnSaid};
ghost use Rattle.view_events.specs.declared.said.MsiSaid.{MsiSaid};
ghost use Rattle.view_events.specs.declared.slot_events.TheConstants.{SLOTS};
ghost use Rattle.view_events.specs.LineEvents.{LineStands};
ghost use Rattle.view_events.specs.SlotEvents.{SlotStands};
ghost use Rattle.view_events.specs.Shown.{IsToldAt, IsAdded, AfterLine};
ghost use Rattle.view_events.specs.EventsOf.{Said, all_sums, label_of, nothing_said};
ghost use Rattle.view_events.specs.Stands.{EventsStand, IsTold};
ghost use Rattle.view_events.specs.Steps.Places.{IsKnownTold, IsNewTold, is_next};
ghost use Rattle.view_events.specs.TributaryEvents.{TributaryStands};
ghost use Rattle.view_events.specs.ViewLines.{IsTributaryLine, IsTurnLine, IsViewLine, OfMsi, OfTributary, OfTurn, TributaryLine, ViewLine, line_text};
ghost use Rattle.view_events.specs.declared.said.TributarySaid.{TributarySaid};
ghost use Rattle.view_events.specs.declared.tributary.Tributary.{Tributary};
ghost use Rattle.view_events.specs.EventText.{turn_events_text, msi_events_text, line_sums_text, sums_text};

use crate::event_text::{put_line_event, put_line_sums, put_msi_event};
use crate::line_events::{LineTally, error_event, lead_in_event};
use crate::said::{MsiSaid, TurnSaid};
use crate::slot_events::SlotTally;
use crate::tributary::Tributary;
use crate::view_lines::{
    Kind, kind_of, label_said, msi_said, right_byte, slots_said, tributary_said, turn_said,
};
use otn_base::Memory;
use std::alloc::{AllocError, Global};

/// What was told so far. Where a call answers that there is no memory, a part of the events may have been appended, and
/// what it tells from then on is not said.
#[derive(Drop)]
pub struct Events {
    alloc: Global,
    /// The line.
    pub line: LineTally,
    /// Its slots.
    pub slots: SlotTally,
    /// The tributaries that were shown, in the order of their first lines.
    tributaries: Vec<Tributary>,
    /// The turn whose lines come, from 1.
    pub turn: u64,
}

impl Events {
    /// Before the first turn.
    pub fn new(alloc: Global) -> Events
        ensures line { LineStands [] result.line }
        ensures slots { SlotStands [] result.slots }
        ensures tributaries { result.tributaries.items ≡ [] }
        ensures stands { EventsStand nothing_said result }
    {
        let line = LineTally::new();
        let slots = SlotTally::new();
        let tributaries = Vec::new(alloc);
        Events {
            alloc,
            line,
            slots,
            tributaries,
            turn: 0,
        }
    }

    /// Takes what is said of the line in the next turn, and appends its events: its alignment where that is another,
    /// frames that were passed over, and frames with errors.
    pub fn take_turn(&mut self, said: TurnSaid, out: &mut Vec<u8>) -> Result<(), AllocError>
        ensures told { IfOk result (λ _. (past : List TurnSaid) → LineStands past self.old.line
            → out.new.items ≡ out.old.items ++ turn_events_text past said) }
        ensures line { IfOk result (λ _. (past : List TurnSaid) → LineStands past self.old.line
            → LineStands (said ∷ past) self.new.line) }
        ensures slots { IfOk result (λ _. self.new.slots ≡ self.old.slots) }
        ensures turn { self.new.turn ≡ self.old.turn }
        ensures tributaries { self.new.tributaries ≡ self.old.tributaries }
    {
        let turn = said.number;
        put_line_event(out, turn, self.line.alignment_event(said.alignment))?;
        put_line_event(out, turn, lead_in_event(said))?;
        put_line_event(out, turn, error_event(said))?;
        self.line.take(said);
        Ok(())
    }

    /// Takes an MSI byte of this turn, and appends its event, where it is the first of its slot, or another than the
    /// last one.
    pub fn take_msi(&mut self, said: MsiSaid, out: &mut Vec<u8>) -> Result<(), AllocError>
        requires { said.slot < SLOTS }
        ensures told { IfOk result (λ _. (past : List MsiSaid) → SlotStands past self.old.slots
            → out.new.items ≡ out.old.items ++ msi_events_text past said) }
        ensures slots { IfOk result (λ _. (past : List MsiSaid) → SlotStands past self.old.slots
            → SlotStands (said ∷ past) self.new.slots) }
        ensures line { IfOk result (λ _. self.new.line ≡ self.old.line) }
        ensures turn { self.new.turn ≡ self.old.turn }
        ensures tributaries { self.new.tributaries ≡ self.old.tributaries }
    {
        if self.slots.is_event(said) {
            put_msi_event(out, said)?;
        }
        self.slots.take(said);
        Ok(())
    }

    /// Takes a line of the view, with its LF, and appends the events that it brings. The last line, and one that begins
    /// with another word than those of turns, MSI bytes and tributaries, are appended as they stand. Of the tributaries
    /// that were shown one is told at most, or one is added at the end: all others stay as they are, in their places.
    pub fn take_line(&mut self, line: &[u8], out: &mut Vec<u8>) -> Result<(), Memory>
        ensures after { IfOk result (λ _. AfterLine self.old.tributaries.items self.new.tributaries.items) }
        ensures told { IfOk result (λ _. (said : Said) (one : ViewLine) → IsViewLine one → line.now ≡ line_text one
            → EventsStand said self.old → IsTold said one self.new out.old.items out.new.items) }
    {
        match kind_of(line) {
            Kind::Turn => Ok(self.begin_turn(line, out)?),
            Kind::Msi => Ok(self.note_msi(line, out)?),
            Kind::Tributary => Ok(self.take_tributary(line, out)?),
            Kind::End => Ok(self.end(line, out)?),
            Kind::Other => Ok(out.extend_from_slice(line)?),
        }
    }

    // Takes the line of a turn.
    fn begin_turn(&mut self, line: &[u8], out: &mut Vec<u8>) -> Result<(), AllocError>
        ensures tributaries { self.new.tributaries ≡ self.old.tributaries }
        ensures told { IfOk result (λ _. (said : Said) (frames : ℕ) (turn : TurnSaid) → IsTurnLine frames turn
            → line.now ≡ line_text (OfTurn frames turn) → EventsStand said self.old
            → IsTold said (OfTurn frames turn) self.new out.old.items out.new.items) }
    {
        let said = turn_said(line);
        self.turn = said.number;
        self.take_turn(said, out)?;
        Ok(())
    }

    // Takes the line of an MSI byte.
    fn note_msi(&mut self, line: &[u8], out: &mut Vec<u8>) -> Result<(), AllocError>
        ensures tributaries { self.new.tributaries ≡ self.old.tributaries }
        ensures told { IfOk result (λ _. (said : Said) (slot byte : ℕ) → slot < SLOTS → byte < 256
            → line.now ≡ line_text (OfMsi slot byte) → EventsStand said self.old
            → IsTold said (OfMsi slot byte) self.new out.old.items out.new.items) }
    {
        let said = msi_said(self.turn, line);
        self.take_msi(said, out)?;
        Ok(())
    }

    // Takes the last line.
    fn end(&self, line: &[u8], out: &mut Vec<u8>) -> Result<(), AllocError>
        ensures { IfOk result (λ _. (said : Said) → EventsStand said self.now
            → out.new.items ≡ out.old.items ++ (line.now ++ all_sums said)) }
    {
        out.extend_from_slice(line)?;
        self.put_sums(out)?;
        Ok(())
    }

    // Takes the line of a tributary: of one that was shown before, or of a new one.
    fn take_tributary(&mut self, line: &[u8], out: &mut Vec<u8>) -> Result<(), Memory>
        ensures after { IfOk result (λ _. AfterLine self.old.tributaries.items self.new.tributaries.items) }
        ensures told { IfOk result (λ _. (said : Said) (x : TributaryLine) → IsTributaryLine x
            → line.now ≡ line_text (OfTributary x) → EventsStand said self.old
            → IsTold said (OfTributary x) self.new out.old.items out.new.items) }
    {
        let label = label_said(self.alloc, line)?;
        match self.place_of(label.as_slice()) {
            Some(i) => Ok(self.tell_known(i, line, out)?),
            None => Ok(self.tell_new(label, line, out)?),
        }
    }

    // The first tributary of this label of which no line of this turn was yet.
    fn place_of(&self, label: &[u8]) -> Option<usize>
        ensures some { IfSome result (λ i. (i < vec_len self.now.tributaries)
            × (position_or_len (is_next self.now.turn label.now) self.now.tributaries.items ≡ i)) }
        ensures none { IfNone result (position_or_len (is_next self.now.turn label.now) self.now.tributaries.items
            ≡ vec_len self.now.tributaries) }
    {
        for i in 0..self.tributaries.len() {
            if self.tributaries[i].is_next(self.turn, label) {
                return Some(i);
            }
        }
        None
    }

    // Tells of a tributary that was shown before.
    fn tell_known(&mut self, i: usize, line: &[u8], out: &mut Vec<u8>) -> Result<(), AllocError>
        requires { i < vec_len self.old.tributaries }
        ensures at { IfOk result (λ _. IsToldAt i self.old.tributaries.items self.new.tributaries.items) }
        ensures line { self.new.line ≡ self.old.line }
        ensures slots { self.new.slots ≡ self.old.slots }
        ensures turn { self.new.turn ≡ self.old.turn }
        ensures told { IfOk result (λ _. (said : Said) (x : TributaryLine) → IsTributaryLine x
            → line.now ≡ line_text (OfTributary x) → EventsStand said self.old → (one : Tributary)
            → slice_get self.old.tributaries.items i ≡ Some one → (past : List TributarySaid) → past ≢ []
            → TributaryStands past one.tally → IsKnownTold said x past i one self.old.tributaries.items
            self.new.tributaries.items out.old.items out.new.items) }
    {
        let said = tributary_said(self.turn, line);
        let slots = slots_said(line);
        let right = right_byte(line);
        self.tributaries[i].tell(said, slots.as_slice(), right, &self.line, &self.slots, out)?;
        Ok(())
    }

    // Tells of a new one.
    fn tell_new(&mut self, label: Vec<u8>, line: &[u8], out: &mut Vec<u8>) -> Result<(), Memory>
        ensures added { IfOk result (λ _. IsAdded self.old.tributaries.items self.new.tributaries.items) }
        ensures line { self.new.line ≡ self.old.line }
        ensures slots { self.new.slots ≡ self.old.slots }
        ensures turn { self.new.turn ≡ self.old.turn }
        ensures told { IfOk result (λ _. (said : Said) (x : TributaryLine) → IsTributaryLine x
            → line.now ≡ line_text (OfTributary x) → EventsStand said self.old → label.items ≡ label_of x
            → IsNewTold said x self.old.tributaries.items self.new.tributaries.items out.old.items out.new.items) }
    {
        let said = tributary_said(self.turn, line);
        let whole = self.line.is_whole();
        let one = Tributary::first_told(label, said, whole, out)?;
        self.tributaries.push(one)?;
        Ok(())
    }

    /// Appends the sums of the line, and of each tributary.
    pub fn put_sums(&self, out: &mut Vec<u8>) -> Result<(), AllocError>
        ensures { IfOk result (λ _. out.new.items ≡ out.old.items
            ++ (line_sums_text self.now.line ++ flat_map sums_text self.now.tributaries.items)) }
    {
        put_line_sums(out, &self.line)?;
        put_each(self.tributaries.as_slice(), out)
    }
}

// Appends the sums of each tributary.
fn put_each(tributaries: &[Tributary], out: &mut Vec<u8>) -> Result<(), AllocError>
    ensures { IfOk result (λ _. out.new.items ≡ out.old.items ++ flat_map sums_text tributaries.now) }
{
    for one in tributaries {
        one.put_sums(out)?;
    }
    Ok(())
}
