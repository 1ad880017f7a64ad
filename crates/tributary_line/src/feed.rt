// A tributary put on an output line.
ghost use Rattle.std.specs.Prelude.{◌≡◌, ◌+◌, ◌*◌, ◌<◌, ◌≤◌, ℕ, List, [], ◌∷◌, ◌++◌, IfOk, length, slice_index, slice_range, vec_len};
ghost use Rattle.port_base.specs.Given.{Gained};
ghost use Rattle.port_base.specs.OutPlace.{out_view};
ghost use Rattle.port_base.specs.Views.{OutView};
ghost use Rattle.tributary_model.specs.Places.{Tributary, tributary_of};
ghost use Rattle.otn_base.specs.declared.limits.TheConstants.{GROUPS};
ghost use Rattle.trib_source.specs.Source.{StandsAfter as SourceStands};

use frame_geometry::Frame;
use line_side::LineOut;
use msi_table::SlotMap;
use otn_base::limits::{LINE_COLUMNS, LINE_FRAME_BYTES, OTU2_SLOTS};
use otn_base::{LineKind, Memory, Slots};
use port_base::{OutPlaceOf, Sink};
use std::alloc::Global;
use std::marker::Model;
use std::ops::Range;
use trib_source::TribSource;

/// The source of a tributary that is put on an output line, a plain OTU2, from its first turn on.
#[derive(Drop)]
pub struct Feed {
    line: LineOut,
    source: TribSource,
    map: SlotMap,
    mfas: u8,
}

impl Model for Feed {
    ghost use Rattle.tributary_line.specs.FeedTurn.{FeedView};

    ghost Value = { FeedView };

    ghost view = { λ f. record { line = f.line; source = f.source; ports = f.map; mfas = f.mfas } };
}

ghost use Rattle.tributary_line.specs.FeedTurn.{FeedStands, Completes};

impl Feed {
    /// A source of these slots and this tributary port, 1 to 8, on line output 0, before the line's first turn. Takes
    /// all memory that it will ever need; answers `Memory` where there is none.
    pub fn new(alloc: Global, port: u8, slots: &Slots) -> Result<Feed, Memory>
        requires low { 1 ≤ port }
        requires high { port ≤ OTU2_SLOTS }
        requires plain { slots.now.kind ≡ LineKind.Otu2 }
        ensures stands { IfOk result (λ feed. (first : OutView)
            → FeedStands (tributary_of slots.now port) first first [] feed) }
        ensures slots { IfOk result (λ feed. feed.source.slots ≡ slots.now) }
    {
        let line = LineOut::new(alloc, 0, LineKind::Otu2, false)?;
        let source = TribSource::new(alloc, slots)?;
        let mut map = SlotMap::new(LineKind::Otu2);
        map.allot(slots, port);
        Ok(Feed {
            line,
            source,
            map,
            mfas: 0,
        })
    }

    /// Does a turn, which takes the bytes of the buffer in this range: writes the eight frames of its multiframe. Of
    /// more bytes than complete 15,232 groups it takes the first. The source keeps the buffer, of 15,233 bytes a slot,
    /// and gives one of its own in exchange, whose bytes are of no account.
    pub fn turn<K: Sink>(
        &mut self,
        buffer: &mut Vec<u8>,
        bytes: Range<usize>,
        place: &mut OutPlaceOf<K>,
    )
        requires in_order { bytes.start ≤ bytes.end }
        requires within { bytes.end ≤ vec_len buffer.old }
        requires room { vec_len buffer.old ≡ length self.old.source.slots.list * (GROUPS + 1) }
        requires plain { self.old.source.slots.kind ≡ LineKind.Otu2 }
        ensures stands { (own : Tributary) (first : OutView) (turns : List (List ℕ))
            → FeedStands own first (out_view K.Sink place.old) turns self.old
            → Completes own turns (slice_range buffer.old.items bytes.start bytes.end)
            → FeedStands own first (out_view K.Sink place.new)
            (turns ++ slice_range buffer.old.items bytes.start bytes.end ∷ []) self.new }
        ensures slots { self.new.source.slots ≡ self.old.source.slots }
        ensures room_stays { vec_len buffer.new ≡ vec_len buffer.old }
        ensures gained { (written : List ℕ) × Gained (out_view K.Sink place.old) written (out_view K.Sink place.new) }
    {
        take_bytes(&mut self.source, buffer, bytes);
        for n in 0..OTU2_SLOTS as u8 {
            self.put_frame(n, place);
        }
    }
}

ghost use Rattle.tributary_line.specs.Steps.FeedTurn.{FeedIn, IsBegun, IsFilled};

impl Feed {
    // Writes frame `n`, from 0, of a turn.
    fn put_frame<K: Sink>(&mut self, n: u8, place: &mut OutPlaceOf<K>)
        requires number { n < OTU2_SLOTS }
        requires begun { IsBegun n self.old.source }
        ensures stands { (own : Tributary) (first : OutView) (turns : List (List ℕ))
            → FeedIn own first (out_view K.Sink place.old) turns n self.old
            → FeedIn own first (out_view K.Sink place.new) turns (n + 1) self.new }
        ensures begun { IsBegun (n + 1) self.new.source }
        ensures slots { self.new.source.slots ≡ self.old.source.slots }
        ensures gained { (written : List ℕ) × Gained (out_view K.Sink place.old) written (out_view K.Sink place.new) }
    {
        fill_line(&mut self.source, n, &mut self.line);
        self.line.finish(self.mfas, &self.map, place);
        self.mfas = self.mfas.wrapping_add(1);
    }
}

// A turn of the source, which takes the first bytes of the buffer in this range: those that complete at most 15,232
// groups.
fn take_bytes(source: &mut TribSource, buffer: &mut Vec<u8>, bytes: Range<usize>)
    requires in_order { bytes.start ≤ bytes.end }
    requires within { bytes.end ≤ vec_len buffer.old }
    requires room { vec_len buffer.old ≡ length source.old.slots.list * (GROUPS + 1) }
    requires plain { source.old.slots.kind ≡ LineKind.Otu2 }
    ensures stands { (own : Tributary) (turns : List (List ℕ)) (filled : ℕ) → SourceStands own turns filled source.old
        → Completes own turns (slice_range buffer.old.items bytes.start bytes.end)
        → SourceStands own (turns ++ slice_range buffer.old.items bytes.start bytes.end ∷ []) 0 source.new }
    ensures begun { IsBegun 0 source.new }
    ensures slots { source.new.slots ≡ source.old.slots }
    ensures room_stays { vec_len buffer.new ≡ vec_len buffer.old }
{
    let count = (bytes.end - bytes.start).min(source.room());
    source.take_over(buffer, bytes.start..bytes.start + count);
}

// The source puts its own into the next frame of the line.
fn fill_line(source: &mut TribSource, n: u8, line: &mut LineOut)
    requires number { n < OTU2_SLOTS }
    requires begun { IsBegun n source.old }
    ensures filled { IsFilled n source.old line.new.frame }
    ensures line { line.new ≡ record line.old { frame = line.new.frame } }
    ensures stands { (own : Tributary) (turns : List (List ℕ)) → SourceStands own turns n source.old
        → SourceStands own turns (n + 1) source.new }
    ensures begun { IsBegun (n + 1) source.new }
    ensures slots { source.new.slots ≡ source.old.slots }
{
    fill_blank(source, n, line.begin());
}

// The same of a frame that is all 0.
fn fill_blank(source: &mut TribSource, n: u8, frame: &mut Frame<LINE_COLUMNS>)
    requires number { n < OTU2_SLOTS }
    requires begun { IsBegun n source.old }
    requires blank { (place : ℕ) → slice_index frame.old place ≡ 0 }
    ensures filled { IsFilled n source.old frame.new }
    ensures stands { (own : Tributary) (turns : List (List ℕ)) → SourceStands own turns n source.old
        → SourceStands own turns (n + 1) source.new }
    ensures begun { IsBegun (n + 1) source.new }
    ensures slots { source.new.slots ≡ source.old.slots }
{
    source.fill(n, frame);
    prove_eq!(frame.as_bytes().len(), LINE_FRAME_BYTES);
}
