// The frames of a line, one after the other, with one frame looked ahead at.
ghost use Rattle.std.specs.Prelude.{◌≡◌, ◌%◌, [], true, false, IfOk, IfSome, IsTrue, ◌↔◌, None};
ghost use Rattle.otn_base.specs.LineSlots.{slots_of};
ghost use Rattle.port_base.specs.InPlace.{in_view};

use crate::checks::FrameChecks;
use crate::ending::Ending;
use crate::mask::LineMask;
use frame_geometry::Frame;
use frame_geometry::overhead::{MFAS_COLUMN, SECTION_ROW};
use multiframe::starts;
use otn_base::limits::{LINE_COLUMNS, LINE_FRAME_BYTES};
use otn_base::{LineKind, Memory};
use port_base::{InPlaceOf, Reading, Source};
use std::alloc::Global;
use std::marker::Model;
use std::mem;

/// A reader of a line's frames, which come through the line's mask. It checks their overhead where `COUNTS` is 1.
#[derive(Drop)]
pub(crate) struct LineReader<const COUNTS: usize> {
    // Of this a place takes the block that it looks ahead by, where it has none.
    alloc: Global,
    mask: LineMask,
    hand: Frame<LINE_COLUMNS>,
    next: Frame<LINE_COLUMNS>,
    is_ahead: bool,
    ending: Ending,
    frames: u64,
    rest: u64,
    seen: FrameChecks<COUNTS>,
}

impl<const COUNTS: usize> Model for LineReader<COUNTS> {
    ghost use Rattle.std.specs.Prelude.{if◌then◌else◌, Some, None};
    ghost use Rattle.line_side.specs.Reader.{ReaderView};

    ghost Value = { ReaderView };

    ghost view = { λ r. record { scrambled = r.mask; hand = r.hand; ahead = if r.is_ahead then Some r.next else None; ending = r.ending; frames = r.frames; rest = r.rest; seen = r.seen } };
}

ghost use Rattle.line_side.specs.Steps.Reader.{FrameRead};

// Reads a frame through the mask. `End` says how many bytes came of one that isn't whole, and `Lost` that the place is
// dead.
fn read_frame<P: Source>(
    alloc: Global,
    place: &mut InPlaceOf<P>,
    frame: &mut Frame<LINE_COLUMNS>,
    mask: &LineMask,
) -> Reading
    ensures { FrameRead mask.now result (in_view P.Source place.old) frame.new (in_view P.Source place.new) }
{
    match read_bytes(alloc, place, frame) {
        Reading::Full => {
            mask.apply(frame);
            Reading::Full
        }
        Reading::End(n) => Reading::End(n),
        Reading::Lost => Reading::Lost,
    }
}

// Reads a frame as it stands in the file. It lets go of what it showed first, so that its place may read on where that
// stands. A frame that the place has at hand whole is shown where it stands; a place that has nothing at hand looks
// ahead first, so that the first frame of a block is shown too.
fn read_bytes<P: Source>(
    alloc: Global,
    place: &mut InPlaceOf<P>,
    frame: &mut Frame<LINE_COLUMNS>,
) -> Reading
    ensures { FrameRead false result (in_view P.Source place.old) frame.new (in_view P.Source place.new) }
{
    frame.let_go();
    place.look_ahead(alloc);
    match place.share(LINE_FRAME_BYTES) {
        Some(bytes) => {
            place.pass(LINE_FRAME_BYTES);
            frame.show(bytes);
            Reading::Full
        }
        None => read_into(place, frame),
    }
}

// Reads a frame into its own bytes.
fn read_into<P: Source>(place: &mut InPlaceOf<P>, frame: &mut Frame<LINE_COLUMNS>) -> Reading
    ensures { FrameRead false result (in_view P.Source place.old) frame.new (in_view P.Source place.new) }
{
    let reading = place.read_full(frame.as_bytes_mut());
    match place {
        InPlaceOf::Dead(..) => Reading::Lost,
        _ => reading,
    }
}

ghost use Rattle.line_side.specs.Steps.Reader.{Advances, LooksAhead, Begins, AsksNoMore, with_ahead, ending_after, left_after};
ghost use Rattle.line_side.specs.LineFile.{frame_mfas};
ghost use Rattle.line_side.specs.declared.ending.Ending.TheVariants.{Open, Seen};

impl<const COUNTS: usize> LineReader<COUNTS> {
    ghost use Rattle.line_side.specs.Counted.{HasCounted};
    ghost use Rattle.line_side.specs.Steps.Counted.{CountsOn};

    /// A reader that has read nothing of a line, scrambled or plain.
    pub(crate) fn new(alloc: Global, scrambled: bool) -> Result<LineReader<COUNTS>, Memory>
        ensures scrambled { IfOk result (λ r. r.scrambled ≡ scrambled) }
        ensures ahead { IfOk result (λ r. r.ahead ≡ None) }
        ensures ending { IfOk result (λ r. r.ending ≡ Open) }
        ensures frames { IfOk result (λ r. r.frames ≡ 0) }
        ensures rest { IfOk result (λ r. r.rest ≡ 0) }
        ensures seen { IfOk result (λ r. HasCounted [] r.seen) }
    {
        Ok(LineReader {
            alloc,
            mask: LineMask::new(alloc, scrambled)?,
            hand: Frame::new(alloc)?,
            next: Frame::new(alloc)?,
            is_ahead: false,
            ending: Ending::Open,
            frames: 0,
            rest: 0,
            seen: FrameChecks::new(),
        })
    }

    /// Takes the next frame into the hand, and says whether there is one. The frame that was looked ahead at comes
    /// first.
    pub(crate) fn advance<P: Source>(&mut self, place: &mut InPlaceOf<P>) -> bool
        ensures advances { Advances result self.old (in_view P.Source place.old) self.new (in_view P.Source place.new) }
        ensures quiet { AsksNoMore self.old.ending place.old self.new.ending place.new }
    {
        if self.is_ahead {
            self.take_ahead();
            return true;
        }
        self.read_next(place)
    }

    /// Looks ahead at the frame after the one in hand, and says whether there is one.
    pub(crate) fn look_ahead<P: Source>(&mut self, place: &mut InPlaceOf<P>) -> bool
        requires { self.old.ahead ≡ None }
        ensures looks { LooksAhead result self.old (in_view P.Source place.old) self.new (in_view P.Source place.new) }
        ensures quiet { AsksNoMore self.old.ending place.old self.new.ending place.new }
    {
        if !self.is_open() {
            return false;
        }
        let reading = read_frame(self.alloc, place, &mut self.next, &self.mask);
        self.is_ahead = has_come(reading, &mut self.ending, &mut self.rest);
        self.is_ahead
    }

    /// Whether a multiframe of a line of this kind may begin with the frame in hand. It looks ahead at the next frame
    /// only where one might begin by the frame in hand.
    pub(crate) fn begins<P: Source>(&mut self, place: &mut InPlaceOf<P>, kind: LineKind) -> bool
        requires { self.old.ahead ≡ None }
        ensures begins { Begins (slots_of kind) result self.old (in_view P.Source place.old) self.new
            (in_view P.Source place.new) }
        ensures quiet { AsksNoMore self.old.ending place.old self.new.ending place.new }
        ensures first { result ≡ true → frame_mfas self.new.hand % slots_of kind ≡ 0 }
    {
        let mfas = self.mfas();
        if mfas % kind.slots() != 0 {
            return false;
        }
        self.look_ahead(place) && starts(mfas, self.next_mfas(), kind)
    }

    /// The MFAS of the frame in hand.
    pub(crate) fn mfas(&self) -> u8
        ensures { result ≡ frame_mfas self.now.hand }
    {
        self.hand.get(SECTION_ROW, MFAS_COLUMN)
    }

    /// The frame in hand.
    pub(crate) fn frame(&self) -> &Frame<LINE_COLUMNS>
        ensures { result.now ≡ self.now.hand }
    {
        &self.hand
    }

    /// Whether the end of the bytes was seen.
    pub(crate) fn end_seen(&self) -> bool
        ensures { IsTrue result ↔ (self.now.ending ≡ Seen) }
    {
        match self.ending {
            Ending::Open => false,
            Ending::Seen => true,
            Ending::Died => false,
        }
    }

    /// How many frames were taken into the hand.
    pub(crate) fn frames(&self) -> u64
        ensures { result ≡ self.now.frames }
    {
        self.frames
    }

    /// How many bytes came after the last whole frame.
    pub(crate) fn rest(&self) -> u64
        ensures { result ≡ self.now.rest }
    {
        self.rest
    }

    /// What was counted of the overhead of the frames that were taken into the hand.
    pub(crate) fn seen(&self) -> &FrameChecks<COUNTS>
        ensures { result.now ≡ self.now.seen }
    {
        &self.seen
    }

    // The MFAS of the frame that was looked ahead at.
    fn next_mfas(&self) -> u8
        ensures { IfSome self.now.ahead (λ frame. result ≡ frame_mfas frame) }
    {
        self.next.get(SECTION_ROW, MFAS_COLUMN)
    }

    // Takes the frame that was looked ahead at into the hand.
    fn take_ahead(&mut self)
        ensures taken { self.new ≡ with_ahead self.new.seen self.old }
        ensures seen { IfSome self.old.ahead (λ frame. CountsOn self.old.seen frame self.new.seen) }
    {
        if self.is_ahead {
            mem::swap(&mut self.hand, &mut self.next);
            self.next.let_go();
            self.is_ahead = false;
            self.frames = self.frames.saturating_add(1);
            self.seen.take(&self.hand);
        }
    }

    // Reads the next frame into the hand.
    fn read_next<P: Source>(&mut self, place: &mut InPlaceOf<P>) -> bool
        requires { self.old.ahead ≡ None }
        ensures advances { Advances result self.old (in_view P.Source place.old) self.new (in_view P.Source place.new) }
        ensures quiet { AsksNoMore self.old.ending place.old self.new.ending place.new }
    {
        if !self.is_open() {
            return false;
        }
        let reading = read_frame(self.alloc, place, &mut self.hand, &self.mask);
        if !has_come(reading, &mut self.ending, &mut self.rest) {
            return false;
        }
        self.frames = self.frames.saturating_add(1);
        self.seen.take(&self.hand);
        true
    }

    // Whether the bytes have not ended.
    fn is_open(&self) -> bool
        ensures { IsTrue result ↔ (self.now.ending ≡ Open) }
    {
        match self.ending {
            Ending::Open => true,
            Ending::Seen => false,
            Ending::Died => false,
        }
    }
}

// Says whether a whole frame came. If none did, the bytes have ended.
fn has_come(reading: Reading, ending: &mut Ending, rest: &mut u64) -> bool
    ensures whole { IsTrue result ↔ (reading ≡ Reading.Full) }
    ensures ending { ending.new ≡ ending_after reading ending.old }
    ensures rest { rest.new ≡ left_after reading rest.old }
{
    match reading {
        Reading::Full => true,
        Reading::End(n) => {
            *ending = Ending::Seen;
            *rest = n as u64;
            false
        }
        Reading::Lost => {
            *ending = Ending::Died;
            false
        }
    }
}
