// What is counted of the overhead of a line's frames.
ghost use Rattle.std.specs.Prelude.{◌≡◌, ℕ, List, []};
ghost use Rattle.otn_base.specs.declared.limits.TheConstants.{LINE_COLUMNS as COLUMNS};
ghost use Rattle.frame_geometry.specs.declared.overhead.TheConstants.{SECTION_ROW, SM_BIP8_COLUMN, PM_ROW, PM_BIP8_COLUMN};
ghost use Rattle.frame_overhead.specs.TwoBefore.{wrong_parities};
ghost use Rattle.otn_base.specs.Counts.{saturated};
ghost use Rattle.otu_overhead.specs.Section.{wrong_fas};

use frame_geometry::Frame;
use frame_overhead::parity;
use odu_path::PathCheck;
use otn_base::limits::LINE_COLUMNS;
use otu_overhead::OtuCheck;
use std::marker::Model;

/// Counts the frames with a wrong FAS, SM parity or PM parity, where `COUNTS` is 1, and else nothing. Contracts say
/// which frames were taken so far.
#[derive(Drop)]
pub(crate) struct FrameChecks<const COUNTS: usize> {
    section: OtuCheck,
    path: PathCheck,
}

impl<const COUNTS: usize> Model for FrameChecks<COUNTS> {
    ghost use Rattle.std.specs.Prelude.{◌==◌, if◌then◌else◌, Some, None};
    ghost use Rattle.line_side.specs.Counted.{Counted};

    ghost Value = { Counted };

    ghost view = { λ c. if COUNTS == 1 then Some (record { section = c.section; path = c.path }) else None };
}

impl<const COUNTS: usize> FrameChecks<COUNTS> {
    ghost use Rattle.line_side.specs.Counted.{HasCounted};
    ghost use Rattle.line_side.specs.Steps.Counted.{CountsOn};

    /// No frame was taken.
    pub(crate) fn new() -> FrameChecks<COUNTS>
        ensures { HasCounted [] result }
    {
        FrameChecks {
            section: OtuCheck::new(),
            path: PathCheck::new(),
        }
    }

    /// Takes the next frame, whose parity is computed once for both.
    pub(crate) fn take(&mut self, frame: &Frame<LINE_COLUMNS>)
        ensures { CountsOn self.old frame.now self.new }
    {
        if COUNTS == 1 {
            let parity = parity(frame);
            self.section.take_with(frame, parity);
            self.path.take_with(frame, parity);
        }
    }
}

impl FrameChecks<1> {
    ghost use Rattle.line_side.specs.Counted.{HasCounted};

    /// How many frames had a wrong FAS.
    pub(crate) fn fas(&self) -> u64
        ensures { (frames : List (List ℕ)) → HasCounted frames self.now → result ≡ saturated (wrong_fas frames) }
    {
        self.section.fas()
    }

    /// How many frames had a wrong SM parity.
    pub(crate) fn sm(&self) -> u64
        ensures { (frames : List (List ℕ)) → HasCounted frames self.now
            → result ≡ saturated (wrong_parities COLUMNS SECTION_ROW SM_BIP8_COLUMN frames) }
    {
        self.section.sm()
    }

    /// How many frames had a wrong PM parity.
    pub(crate) fn pm(&self) -> u64
        ensures { (frames : List (List ℕ)) → HasCounted frames self.now
            → result ≡ saturated (wrong_parities COLUMNS PM_ROW PM_BIP8_COLUMN frames) }
    {
        self.path.pm()
    }
}
