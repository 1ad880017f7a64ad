// The MSI bytes of the slots of a line, and their events.
ghost use Rattle.std.specs.Prelude.{◌≡◌, ◌<◌, [], ◌∷◌, List, All};
ghost use Rattle.std.specs.List.{find};
ghost use Rattle.view_events.specs.declared.said.MsiSaid.{MsiSaid};
ghost use Rattle.view_events.specs.SlotEvents.{SlotStands, is_msi_event, msi_bytes, is_wrong_one, is_wrong_twice};

use crate::said::MsiSaid;
use otn_base::limits::MOST_SLOTS;

/// Slots are numbered from 1, and this is the last number and 1.
pub const SLOTS: usize = MOST_SLOTS + 1;

/// The last MSI byte that came of a slot, and the one before it.
#[derive(Clone, Copy, Debug, PartialEq, Eq)]
pub struct SlotSeen {
    /// The last one.
    pub last: Option<MsiSaid>,
    /// The one before it.
    pub before: Option<MsiSaid>,
}

/// The last two MSI bytes that came of each slot.
#[derive(Clone, Copy)]
pub struct SlotTally {
    /// By the slot's number.
    pub slots: [SlotSeen; SLOTS],
}

impl SlotTally {
    /// Of a line of which nothing was said.
    pub fn new() -> SlotTally
        ensures { SlotStands [] result }
    {
        SlotTally {
            slots: [SlotSeen {
                last: None,
                before: None,
            }; SLOTS],
        }
    }

    /// Takes an MSI byte.
    pub fn take(&mut self, said: MsiSaid)
        requires { said.slot < SLOTS }
        ensures { (past : List MsiSaid) → SlotStands past self.old → SlotStands (said ∷ past) self.new }
    {
        let slot = said.slot as usize;
        self.slots[slot] = SlotSeen {
            last: Some(said),
            before: self.slots[slot].last,
        };
    }

    /// Whether an MSI byte is an event: the first of its slot, or another than the last one.
    pub fn is_event(&self, said: MsiSaid) -> bool
        requires { said.slot < SLOTS }
        ensures { (past : List MsiSaid) → SlotStands past self.now → result ≡ is_msi_event past said }
    {
        match self.slots[said.slot as usize].last {
            Some(last) => last.byte != said.byte,
            None => true,
        }
    }

    /// The first of these slots whose last two MSI bytes came since this turn, and were not this one.
    pub fn marked(&self, slots: &[u8], first: u64, right: u8) -> Option<u8>
        requires { All (λ slot. slot < SLOTS) slots.now }
        ensures { (past : List MsiSaid) → SlotStands past self.now
            → result ≡ find (λ slot. is_wrong_twice (msi_bytes slot past) first right) slots.now }
    {
        for slot in slots {
            if self.is_wrong_twice(*slot, first, right) {
                return Some(*slot);
            }
        }
        None
    }

    /// Whether the last two MSI bytes of a slot came since this turn, and were not this one.
    pub fn is_wrong_twice(&self, slot: u8, first: u64, right: u8) -> bool
        requires { slot < SLOTS }
        ensures { (past : List MsiSaid) → SlotStands past self.now
            → result ≡ is_wrong_twice (msi_bytes slot past) first right }
    {
        let seen = self.slots[slot as usize];
        is_wrong(seen.last, first, right) && is_wrong(seen.before, first, right)
    }
}

// Whether an MSI byte came since this turn, and was not this one.
fn is_wrong(said: Option<MsiSaid>, first: u64, right: u8) -> bool
    ensures { result ≡ is_wrong_one said first right }
{
    match said {
        Some(said) => said.turn >= first && said.byte != right,
        None => false,
    }
}
