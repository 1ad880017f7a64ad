// The check of the overhead of the frames of a line.
ghost use Rattle.std.specs.Prelude.{◌≡◌, ℕ, List, [], ◌∷◌, ◌++◌};
ghost use Rattle.frame_overhead.specs.Parity.{parity_of};

use frame_geometry::Frame;
use frame_geometry::overhead::{FAS, FAS_COLUMN, SECTION_ROW, SM_BIP8_COLUMN};
use frame_overhead::{ParityCheck, parity};
use otn_base::limits::LINE_COLUMNS;
use std::marker::Model;

/// Counts the frames of a line with a wrong FAS, and those with a wrong SM parity, of which the first two are not
/// checked. Contracts say which frames were taken so far.
#[derive(Clone, Copy, Drop)]
pub struct OtuCheck {
    fas: u64,
    sm: ParityCheck,
}

impl Model for OtuCheck {
    ghost use Rattle.otu_overhead.specs.Section.{Taken};

    ghost Value = { Taken };

    ghost view = { λ c. record { fas = c.fas; sm = c.sm } };

    ghost inverse = { λ c. record { fas = c.fas; sm = c.sm } };
}

impl OtuCheck {
    ghost use Rattle.frame_overhead.specs.TwoBefore.{wrong_parities};
    ghost use Rattle.otn_base.specs.Counts.{saturated};
    ghost use Rattle.otu_overhead.specs.Section.{HasTaken, wrong_fas};

    /// No frame was taken.
    pub fn new() -> OtuCheck
        ensures { HasTaken [] result }
    {
        OtuCheck {
            fas: 0,
            sm: ParityCheck::new(),
        }
    }

    /// Takes the next frame.
    pub fn take(&mut self, frame: &Frame<LINE_COLUMNS>)
        ensures { (frames : List (List ℕ)) → HasTaken frames self.old → HasTaken (frames ++ frame.now ∷ []) self.new }
    {
        self.take_with(frame, parity(frame));
    }

    /// As `take`, for a frame whose parity is known.
    pub fn take_with(&mut self, frame: &Frame<LINE_COLUMNS>, parity: u8)
        requires { parity ≡ parity_of LINE_COLUMNS frame.now }
        ensures { (frames : List (List ℕ)) → HasTaken frames self.old → HasTaken (frames ++ frame.now ∷ []) self.new }
    {
        self.fas = self.fas.saturating_add(fas_wrong(frame));
        self.sm.take(frame.get(SECTION_ROW, SM_BIP8_COLUMN), parity);
    }

    /// How many frames had a wrong FAS. The count stops at 2^64-1.
    pub fn fas(&self) -> u64
        ensures { (frames : List (List ℕ)) → HasTaken frames self.now → result ≡ saturated (wrong_fas frames) }
    {
        self.fas
    }

    /// How many frames had a wrong SM parity. The count stops at 2^64-1.
    pub fn sm(&self) -> u64
        ensures { (frames : List (List ℕ)) → HasTaken frames self.now
            → result ≡ saturated (wrong_parities LINE_COLUMNS SECTION_ROW SM_BIP8_COLUMN frames) }
    {
        self.sm.wrong()
    }
}

ghost use Rattle.otu_overhead.specs.Section.{has_fas, fas_wrong as wrong_of};

// 1 where the FAS is wrong.
fn fas_wrong(frame: &Frame<LINE_COLUMNS>) -> u64
    ensures { result ≡ wrong_of frame.now }
{
    if has_fas(frame) { 0 } else { 1 }
}

// Whether columns 1 to 6 of row 1 are the FAS.
fn has_fas(frame: &Frame<LINE_COLUMNS>) -> bool
    ensures { result ≡ has_fas frame.now }
{
    frame.get(SECTION_ROW, FAS_COLUMN) == FAS[0]
        && frame.get(SECTION_ROW, FAS_COLUMN + 1) == FAS[1]
        && frame.get(SECTION_ROW, FAS_COLUMN + 2) == FAS[2]
        && frame.get(SECTION_ROW, FAS_COLUMN + 3) == FAS[3]
        && frame.get(SECTION_ROW, FAS_COLUMN + 4) == FAS[4]
        && frame.get(SECTION_ROW, FAS_COLUMN + 5) == FAS[5]
}
