// An output line: it gives a frame to be filled, adds the overhead and writes it.
ghost use Rattle.std.specs.Prelude.{◌≡◌, ◌≢◌, ◌<◌, ◌++◌, ◌∷◌, ℕ, List, [], IfOk, length, slice_index};
ghost use Rattle.otn_base.specs.declared.limits.TheConstants.{LINE_COLUMNS, LINE_FRAME_BYTES as FRAME_BYTES};
ghost use Rattle.frame_geometry.specs.PayloadParity.{payload_parity_of};
ghost use Rattle.port_base.specs.OutPlace.{out_view};
ghost use Rattle.port_base.specs.Views.{OutView, Live};
ghost use Rattle.line_side.specs.LineOutput.{CountsFrames};

use crate::mask::LineMask;
use crate::waiting::Waiting;
use frame_geometry::Frame;
use frame_geometry::overhead::{PSI_COLUMN, PSI_ROW};
use frame_overhead::{parity_with, payload_parity};
use msi_table::{SlotMap, psi_byte};
use odu_path::PathWriter;
use otn_base::limits::{LINE_COLUMNS, LINE_FRAME_BYTES};
use otn_base::{LineKind, Memory, Trace};
use otu_overhead::OtuWriter;
use port_base::{OutPlaceOf, Sink};
use std::alloc::Global;
use std::marker::Model;

/// An output line of a node, of either kind, plain or scrambled. Each of its frames is put into the frame that `begin`
/// or `begin_whole` gives, and made by `finish`. Eight of them are written together: up to then they wait, and behind
/// whole turns none does.
#[derive(Drop)]
pub struct LineOut {
    kind: LineKind,
    mask: LineMask,
    trace: Trace,
    frame: Frame<LINE_COLUMNS>,
    section: OtuWriter,
    path: PathWriter,
    waiting: Waiting,
    frames: u64,
}

impl Model for LineOut {
    ghost use Rattle.line_side.specs.LineOutput.{LineOutView};

    ghost Value = { LineOutView };

    ghost view = { λ l. record { form = record { kind = l.kind; scrambled = l.mask }; sapi = l.trace; frame = l.frame; section = l.section; path = l.path; waiting = l.waiting; frames = l.frames } };
}

impl LineOut {
    ghost use Rattle.std.specs.Borrow.{Lends, sem};
    ghost use Rattle.line_side.specs.contracts.line_out.LineOut.{the_row};
    ghost use Rattle.line_side.specs.FrameType.{line_frame};
    ghost use Rattle.line_side.specs.LineOutput.{LineMade, AsMade};
    ghost use Rattle.port_base.specs.Given.{Gained};

    /// Output line n, 0 to 3, of this kind, scrambled or plain, before its first frame.
    pub fn new(alloc: Global, line: u8, kind: LineKind, scrambled: bool) -> Result<LineOut, Memory>
        requires { line < 4 }
        ensures { IfOk result (λ out. (first : OutView)
            → LineMade line (record { kind = kind; scrambled = scrambled }) first first [] out) }
    {
        Ok(LineOut {
            kind,
            mask: LineMask::new(alloc, scrambled)?,
            trace: trace_of(line),
            frame: Frame::new(alloc)?,
            section: OtuWriter::new(),
            path: PathWriter::new(),
            waiting: Waiting::new(alloc)?,
            frames: 0,
        })
    }

    /// The kind of the line, whose slots the map is of that `finish` is given.
    pub fn kind(&self) -> LineKind
        ensures { result ≡ self.now.form.kind }
    {
        self.kind
    }

    /// The next frame, all 0, to be filled.
    pub fn begin(&mut self) -> &mut Frame<LINE_COLUMNS>
        ensures* writes_back { sem 𝓛 (Lends the_row line_frame self.entry result
            (λ w. record self.entry.now { frame = w })) }
        ensures zero { (place : ℕ) → slice_index result.now place ≡ 0 }
        ensures size { length result.now ≡ FRAME_BYTES }
    {
        self.frame.clear();
        &mut self.frame
    }

    /// The next frame, to be written whole: what it holds is of no account.
    pub fn begin_whole(&mut self) -> &mut Frame<LINE_COLUMNS>
        ensures* writes_back { sem 𝓛 (Lends the_row line_frame self.entry result
            (λ w. record self.entry.now { frame = w })) }
        ensures size { length result.now ≡ FRAME_BYTES }
    {
        prove_eq!(self.frame.as_bytes().len(), LINE_FRAME_BYTES);
        &mut self.frame
    }

    /// What the payload of the frame gives to its BIP-8.
    pub fn payload_parity(&self) -> u8
        ensures { result ≡ payload_parity_of LINE_COLUMNS self.now.frame }
    {
        payload_parity(&self.frame)
    }

    /// Adds the overhead to the frame, which has this MFAS on a line whose slots are used so, and puts it through the
    /// line's mask. Where it is the eighth that waits, all eight are written. The MSI bytes are those of the map's
    /// slots; no clause asks that the map be of the line's `kind`: the caller sees to it.
    pub fn finish<K: Sink>(&mut self, mfas: u8, map: &SlotMap, place: &mut OutPlaceOf<K>)
        ensures made { (n : ℕ) → AsMade n (out_view K.Sink place.old) self.old
            (λ form first puts. LineMade n form first (out_view K.Sink place.new) (puts ++ record { mfas = mfas; ports = map.now; bytes = self.old.frame } ∷ []) self.new) }
        ensures form { self.new.form ≡ self.old.form }

        // bytes go to a live place, which may die of its own port's fault, and any other place is asked nothing
        ensures gained { (written : List ℕ) × Gained (out_view K.Sink place.old) written (out_view K.Sink place.new) }
        ensures quiet { (out_view K.Sink place.old).state ≢ Live → place.new ≡ place.old }
        ensures frames { CountsFrames (out_view K.Sink place.old) (out_view K.Sink place.new) self.old.frames
            self.new.frames }
    {
        let payload = self.payload_parity();
        self.finish_with(mfas, map, payload, place);
    }

    /// As `finish`, for a frame of which it is known what its payload gives to the BIP-8.
    pub fn finish_with<K: Sink>(
        &mut self,
        mfas: u8,
        map: &SlotMap,
        payload: u8,
        place: &mut OutPlaceOf<K>,
    )
        requires payload { payload ≡ payload_parity_of LINE_COLUMNS self.old.frame }
        ensures made { (n : ℕ) → AsMade n (out_view K.Sink place.old) self.old
            (λ form first puts. LineMade n form first (out_view K.Sink place.new) (puts ++ record { mfas = mfas; ports = map.now; bytes = self.old.frame } ∷ []) self.new) }
        ensures form { self.new.form ≡ self.old.form }

        // bytes go to a live place, which may die of its own port's fault, and any other place is asked nothing
        ensures gained { (written : List ℕ) × Gained (out_view K.Sink place.old) written (out_view K.Sink place.new) }
        ensures quiet { (out_view K.Sink place.old).state ≢ Live → place.new ≡ place.old }
        ensures frames { CountsFrames (out_view K.Sink place.old) (out_view K.Sink place.new) self.old.frames
            self.new.frames }
    {
        self.frame.set(PSI_ROW, PSI_COLUMN, psi_byte(mfas, map));
        let parity = parity_with(&self.frame, payload);
        self.path
            .write_with(&mut self.frame, mfas, &self.trace, parity);
        self.section
            .write_with(&mut self.frame, mfas, &self.trace, parity);
        self.mask.apply(&mut self.frame);
        let counts = self.waiting.join(self.frame.as_bytes(), place);
        self.frames = self.frames.saturating_add(counts as u64);
    }

    /// How many frames were written whole or, on an empty place, made. The count stops at 2^64-1.
    pub fn frames(&self) -> u64
        ensures { result ≡ self.now.frames }
    {
        self.frames
    }
}

ghost use Rattle.line_side.specs.LineOutput.{line_sapi};

// The trace of line n.
fn trace_of(line: u8) -> Trace
    requires { line < 4 }
    ensures { result ≡ line_sapi line }
{
    match Trace::new(&[b'L', b'I', b'N', b'E', b'-', b'0' + line]) {
        Some(trace) => trace,
        None => unreachable!(),
    }
}
