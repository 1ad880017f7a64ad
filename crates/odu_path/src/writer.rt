// What writes the path overhead of frames.
ghost use Rattle.std.specs.Prelude.{◌≡◌, ℕ, ◌*◌, List, [], ◌∷◌, ◌++◌, length};
ghost use Rattle.frame_overhead.specs.Parity.{parity_of};

use frame_geometry::Frame;
use frame_geometry::overhead::{OPU_COLUMN, PM_BIP8_COLUMN, PM_ROW, PM_TTI_COLUMN, STAT_COLUMN};
use frame_overhead::{ParityDelay, parity, put_overhead};
use otn_base::Trace;
use std::marker::Model;

// Columns of a row in front of the OPU (G.709 clause 12.1).
const ODU_COLUMNS: usize = OPU_COLUMN as usize - 1;

// STAT of a normal path signal, with no BEI and no BDI.
const NORMAL: u8 = 0x01;

/// Writes the path overhead of the frames of a line or a client, one after the other. Contracts say which frames were
/// written so far.
#[derive(Clone, Copy, Drop)]
pub struct PathWriter {
    parities: ParityDelay,
}

impl Model for PathWriter {
    ghost use Rattle.frame_overhead.specs.TwoBefore.{Kept};

    ghost Value = { Kept };

    ghost view = { λ w. w.parities };

    ghost inverse = { λ kept. record { parities = kept } };
}

impl PathWriter {
    ghost use Rattle.frame_overhead.specs.TwoBefore.{HasSent, parity_due, or_zero};
    ghost use Rattle.odu_path.specs.Path.{HasPath, IsOduFrame};

    /// No frame was written.
    pub fn new() -> PathWriter
        ensures { (cols : ℕ) → HasSent cols [] result }
    {
        PathWriter {
            parities: ParityDelay::new(),
        }
    }

    /// Writes columns 1 to 14 of rows 2 to 4 of the next frame, which has this MFAS; every other byte stays. The PM
    /// parity is that of the frame two before, 0 in the first two frames, and STAT is 001.
    pub fn write<const COLS: usize>(&mut self, frame: &mut Frame<COLS>, mfas: u8, trace: &Trace)
        ensures frame { (frames : List (List ℕ)) → HasSent COLS frames self.old
            → IsOduFrame COLS trace.now mfas (or_zero (parity_due COLS frames)) frame.old frame.new }
        ensures sent { (frames : List (List ℕ)) → HasSent COLS frames self.old
            → HasSent COLS (frames ++ frame.new ∷ []) self.new }
        ensures path { (tti : ℕ) × (bip : ℕ) × HasPath COLS tti bip frame.old frame.new }
        ensures size { length frame.new ≡ 4 * COLS }
    {
        let parity = parity(frame);
        self.write_with(frame, mfas, trace, parity);
    }

    /// As `write`, for a frame whose parity is known.
    pub fn write_with<const COLS: usize>(
        &mut self,
        frame: &mut Frame<COLS>,
        mfas: u8,
        trace: &Trace,
        parity: u8,
    )
        requires { parity ≡ parity_of COLS frame.old }
        ensures frame { (frames : List (List ℕ)) → HasSent COLS frames self.old
            → IsOduFrame COLS trace.now mfas (or_zero (parity_due COLS frames)) frame.old frame.new }
        ensures sent { (frames : List (List ℕ)) → HasSent COLS frames self.old
            → HasSent COLS (frames ++ frame.new ∷ []) self.new }
        ensures path { (tti : ℕ) × (bip : ℕ) × HasPath COLS tti bip frame.old frame.new }
        ensures parity { parity_of COLS frame.new ≡ parity }
        ensures size { length frame.new ≡ 4 * COLS }
    {
        let bip = self.parities.due_byte();
        put_path(frame, trace.byte(mfas), bip);
        self.parities.send(parity);
    }
}

ghost use Rattle.odu_path.specs.Path.{HasPath};

// Writes columns 1 to 14 of rows 2 to 4; every other byte stays.
fn put_path<const COLS: usize>(frame: &mut Frame<COLS>, tti: u8, bip: u8)
    ensures path { HasPath COLS tti bip frame.old frame.new }
    ensures parity { parity_of COLS frame.new ≡ parity_of COLS frame.old }
    ensures size { length frame.new ≡ 4 * COLS }
{
    let none = [0; ODU_COLUMNS];
    let mut path = [0; ODU_COLUMNS];
    path[PM_TTI_COLUMN as usize - 1] = tti;
    path[PM_BIP8_COLUMN as usize - 1] = bip;
    path[STAT_COLUMN as usize - 1] = NORMAL;
    put_overhead(frame, 2, &none);
    put_overhead(frame, PM_ROW, &path);
    put_overhead(frame, 4, &none);
}
