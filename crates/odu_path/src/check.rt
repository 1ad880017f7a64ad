// The check of the path overhead of frames.
ghost use Rattle.std.specs.Prelude.{◌≡◌, ◌<◌, ℕ, List, [], ◌∷◌, ◌++◌};
ghost use Rattle.frame_overhead.specs.Parity.{parity_of};
ghost use Rattle.odu_path.specs.Path.{stat_of};

use frame_geometry::Frame;
use frame_geometry::overhead::{PM_BIP8_COLUMN, PM_ROW, STAT_COLUMN};
use frame_overhead::{ParityCheck, parity};
use std::marker::Model;

/// Counts the frames of a line or a client with a wrong PM parity, of which the first two are not checked. Contracts
/// say which frames were taken so far.
#[derive(Clone, Copy, Drop)]
pub struct PathCheck {
    pm: ParityCheck,
}

impl Model for PathCheck {
    ghost use Rattle.frame_overhead.specs.TwoBefore.{Checked};

    ghost Value = { Checked };

    ghost view = { λ c. c.pm };

    ghost inverse = { λ pm. record { pm = pm } };
}

impl PathCheck {
    ghost use Rattle.frame_overhead.specs.TwoBefore.{HasChecked, wrong_parities};
    ghost use Rattle.otn_base.specs.Counts.{saturated};

    /// No frame was taken.
    pub fn new() -> PathCheck
        ensures { (cols : ℕ) → HasChecked cols PM_ROW PM_BIP8_COLUMN [] result }
    {
        PathCheck {
            pm: ParityCheck::new(),
        }
    }

    /// Takes the next frame.
    pub fn take<const COLS: usize>(&mut self, frame: &Frame<COLS>)
        ensures { (frames : List (List ℕ)) → HasChecked COLS PM_ROW PM_BIP8_COLUMN frames self.old
            → HasChecked COLS PM_ROW PM_BIP8_COLUMN (frames ++ frame.now ∷ []) self.new }
    {
        self.take_with(frame, parity(frame));
    }

    /// As `take`, for a frame whose parity is known.
    pub fn take_with<const COLS: usize>(&mut self, frame: &Frame<COLS>, parity: u8)
        requires { parity ≡ parity_of COLS frame.now }
        ensures { (frames : List (List ℕ)) → HasChecked COLS PM_ROW PM_BIP8_COLUMN frames self.old
            → HasChecked COLS PM_ROW PM_BIP8_COLUMN (frames ++ frame.now ∷ []) self.new }
    {
        self.pm.take(frame.overhead(PM_ROW, PM_BIP8_COLUMN), parity);
    }

    /// How many frames had a wrong PM parity. The count stops at 2^64-1.
    pub fn pm(&self) -> u64
        ensures { (cols : ℕ) (frames : List (List ℕ)) → HasChecked cols PM_ROW PM_BIP8_COLUMN frames self.now
            → result ≡ saturated (wrong_parities cols PM_ROW PM_BIP8_COLUMN frames) }
    {
        self.pm.wrong()
    }
}

/// STAT of a frame, 0 to 7: 1 is a normal path signal, 5 is LCK, 6 is OCI and 7 is AIS.
pub fn stat<const COLS: usize>(frame: &Frame<COLS>) -> u8
    ensures stat { result ≡ stat_of COLS frame.now }
    ensures bound { result < 8 }
{
    frame.overhead(PM_ROW, STAT_COLUMN) % 8
}
