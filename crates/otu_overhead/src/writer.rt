// What writes the overhead of the frames of a line.
ghost use Rattle.std.specs.Prelude.{◌≡◌, ℕ, List, [], ◌∷◌, ◌++◌, length};
ghost use Rattle.frame_overhead.specs.Parity.{parity_of};

use frame_geometry::Frame;
use frame_geometry::overhead::{FAS, FAS_COLUMN, FEC_COLUMN, SECTION_ROW};
use frame_overhead::{ParityDelay, parity, put_run};
use otn_base::Trace;
use otn_base::limits::LINE_COLUMNS;
use std::marker::Model;

// Columns of the FEC field (G.709 clause 11.1).
const FEC_COLUMNS: usize = LINE_COLUMNS + 1 - FEC_COLUMN as usize;

/// Writes the overhead of the frames of a line, one after the other. Contracts say which frames were written so far.
#[derive(Clone, Copy, Drop)]
pub struct OtuWriter {
    parities: ParityDelay,
}

impl Model for OtuWriter {
    ghost use Rattle.frame_overhead.specs.TwoBefore.{Kept};

    ghost Value = { Kept };

    ghost view = { λ w. w.parities };

    ghost inverse = { λ kept. record { parities = kept } };
}

impl OtuWriter {
    ghost use Rattle.frame_overhead.specs.TwoBefore.{HasSent, parity_due, or_zero};
    ghost use Rattle.otu_overhead.specs.Section.{IsOtuFrame};

    /// No frame was written.
    pub fn new() -> OtuWriter
        ensures { HasSent LINE_COLUMNS [] result }
    {
        OtuWriter {
            parities: ParityDelay::new(),
        }
    }

    /// Writes row 1, columns 1 to 14, and the FEC columns of the next frame, which has this MFAS; every other byte
    /// stays. The SM parity is that of the frame two before, 0 in the first two frames.
    pub fn write(&mut self, frame: &mut Frame<LINE_COLUMNS>, mfas: u8, trace: &Trace)
        ensures frame { (frames : List (List ℕ)) → HasSent LINE_COLUMNS frames self.old
            → IsOtuFrame trace.now mfas (or_zero (parity_due LINE_COLUMNS frames)) frame.old frame.new }
        ensures sent { (frames : List (List ℕ)) → HasSent LINE_COLUMNS frames self.old
            → HasSent LINE_COLUMNS (frames ++ frame.new ∷ []) self.new }
    {
        let parity = parity(frame);
        self.write_with(frame, mfas, trace, parity);
    }

    /// As `write`, for a frame whose parity is known.
    pub fn write_with(
        &mut self,
        frame: &mut Frame<LINE_COLUMNS>,
        mfas: u8,
        trace: &Trace,
        parity: u8,
    )
        requires { parity ≡ parity_of LINE_COLUMNS frame.old }
        ensures frame { (frames : List (List ℕ)) → HasSent LINE_COLUMNS frames self.old
            → IsOtuFrame trace.now mfas (or_zero (parity_due LINE_COLUMNS frames)) frame.old frame.new }
        ensures sent { (frames : List (List ℕ)) → HasSent LINE_COLUMNS frames self.old
            → HasSent LINE_COLUMNS (frames ++ frame.new ∷ []) self.new }
        ensures parity { parity_of LINE_COLUMNS frame.new ≡ parity }
    {
        let bip = self.parities.due_byte();
        put_section(frame, mfas, trace.byte(mfas), bip);
        self.parities.send(parity);
    }
}

ghost use Rattle.otu_overhead.specs.Section.{HasSection};

// Writes row 1, columns 1 to 14, and the FEC columns; every other byte stays.
fn put_section(frame: &mut Frame<LINE_COLUMNS>, mfas: u8, tti: u8, bip: u8)
    ensures section { HasSection mfas tti bip frame.old frame.new }
    ensures parity { parity_of LINE_COLUMNS frame.new ≡ parity_of LINE_COLUMNS frame.old }
{
    let [a, b, c, d, e, f] = FAS;
    let section = [a, b, c, d, e, f, mfas, tti, bip, 0, 0, 0, 0, 0];
    put_run(frame, SECTION_ROW, FAS_COLUMN, &section);
    let fec = [0; FEC_COLUMNS];
    put_run(frame, 1, FEC_COLUMN, &fec);
    put_run(frame, 2, FEC_COLUMN, &fec);
    put_run(frame, 3, FEC_COLUMN, &fec);
    put_run(frame, 4, FEC_COLUMN, &fec);
}
