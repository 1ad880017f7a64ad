// The watch over the MSI byte of one slot.
ghost use Rattle.std.specs.Prelude.{◌≡◌, ◌≤◌, ℕ, List, [], ◌∷◌, ◌++◌};

use std::marker::Model;

// Bits 1 and 2 of an MSI byte, for an ODTU2.ts and for an ODTU3.ts.
pub(crate) const ODTU_TS: u8 = 0x80;

/// The watch over the MSI bytes of a slot. Two wrong ones in a row mark it, and a right one clears it.
/// Contracts say which bytes came so far.
#[derive(Clone, Copy, Drop)]
pub struct MsiWatch {
    right: u8,
    last_wrong: bool,
    marked: bool,
}

impl Model for MsiWatch {
    ghost use Rattle.msi_table.specs.Marks.{Watch};

    ghost Value = { Watch };

    ghost view = { λ w. record { right = w.right; last_wrong = w.last_wrong; marked = w.marked } };

    ghost inverse = { λ w. record { right = w.right; last_wrong = w.last_wrong; marked = w.marked } };
}

impl MsiWatch {
    ghost use Rattle.msi_table.specs.Marks.{HasTaken, is_marked};
    ghost use Rattle.otn_base.specs.declared.limits.TheConstants.{MOST_SLOTS};

    /// The watch over a slot that the ODTU of a tributary port (1 to 32) uses, before its first MSI byte.
    pub fn new(port: u8) -> MsiWatch
        requires low { 1 ≤ port }
        requires high { port ≤ MOST_SLOTS }
        ensures { HasTaken port [] result }
    {
        MsiWatch {
            right: ODTU_TS + (port - 1),
            last_wrong: false,
            marked: false,
        }
    }

    /// Takes the next MSI byte of the slot.
    pub fn take(&mut self, byte: u8)
        ensures { (port : ℕ) (read : List ℕ) → HasTaken port read self.old
            → HasTaken port (read ++ byte ∷ []) self.new }
    {
        let wrong = byte != self.right;
        self.marked = wrong && self.last_wrong;
        self.last_wrong = wrong;
    }

    /// Whether the last two bytes were both wrong.
    pub fn marked(&self) -> bool
        ensures { (port : ℕ) (read : List ℕ) → HasTaken port read self.now → result ≡ is_marked port read }
    {
        self.marked
    }
}
