// The check of the parities that frames carry.
ghost use Rattle.std.specs.Prelude.{◌≡◌, ℕ, List, [], ◌∷◌, ◌++◌, slice_index};

use crate::ParityDelay;
use std::marker::Model;

/// Counts the frames that carry another parity than that of the frame two before them. The first two are not checked.
/// Contracts say which frames were checked so far, and where their parity stands.
#[derive(Clone, Copy, Drop)]
pub struct ParityCheck {
    parities: ParityDelay,
    wrong: u64,
}

impl Model for ParityCheck {
    ghost use Rattle.frame_overhead.specs.TwoBefore.{Checked};

    ghost Value = { Checked };

    ghost view = { λ c. record { kept = c.parities; wrong = c.wrong } };

    ghost inverse = { λ c. record { parities = c.kept; wrong = c.wrong } };
}

impl ParityCheck {
    ghost use Rattle.frame_geometry.specs.Places.{place_of};
    ghost use Rattle.frame_overhead.specs.Parity.{parity_of};
    ghost use Rattle.frame_overhead.specs.ParityChecks.{BeforeAFrame};
    ghost use Rattle.frame_overhead.specs.TwoBefore.{HasChecked, wrong_parities};
    ghost use Rattle.otn_base.specs.Counts.{saturated};

    /// No frame was checked.
    pub fn new() -> ParityCheck
        ensures { (cols row col : ℕ) → HasChecked cols row col [] result }
    {
        ParityCheck {
            parities: ParityDelay::new(),
            wrong: 0,
        }
    }

    /// Checks the next frame, which carries this byte where its parity stands, and has this parity itself.
    pub fn take(&mut self, carried: u8, parity: u8)
        ensures { BeforeAFrame self.old (λ cols row col frames frame.
            carried ≡ slice_index frame (place_of cols row col) → parity ≡ parity_of cols frame
            → HasChecked cols row col (frames ++ frame ∷ []) self.new) }
    {
        let wrong = is_wrong(self.parities.due(), carried);
        self.wrong = self.wrong.saturating_add(wrong);
        self.parities.send(parity);
    }

    /// How many frames carried another parity. The count stops at 2^64-1.
    pub fn wrong(&self) -> u64
        ensures { (cols row col : ℕ) (frames : List (List ℕ)) → HasChecked cols row col frames self.now
            → result ≡ saturated (wrong_parities cols row col frames) }
    {
        self.wrong
    }
}

ghost use Rattle.frame_overhead.specs.TwoBefore.{wrong_one};

// 1 where a parity is due and another byte stands in its place.
fn is_wrong(due: Option<u8>, carried: u8) -> u64
    ensures { result ≡ wrong_one due carried }
{
    match due {
        Some(parity) => (carried != parity) as u64,
        None => 0,
    }
}
