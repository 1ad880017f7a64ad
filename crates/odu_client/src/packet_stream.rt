// The payload of a client's frames: the packets of a text as a stream of GFP frames.
ghost use Rattle.std.specs.Prelude.{◌≡◌, ◌≢◌, ◌≤◌, ℕ, List, [], ◌∷◌, ◌++◌, true, false, length, take, IfOk, IfSome};
ghost use Rattle.otn_base.specs.declared.limits.TheConstants.{CLIENT_PAYLOAD_BYTES};
ghost use Rattle.port_base.specs.InPlace.{in_view};
ghost use Rattle.port_base.specs.Views.{InView};
ghost use Rattle.packet_text.specs.LinesStand.{LinesView, lines_view};
ghost use Rattle.odu_client.specs.AlignedRuns.{payload_of};
ghost use Rattle.odu_client.specs.Framing.{StreamState, StreamMade, TextStands};
ghost use Rattle.odu_client.specs.Steps.Framing.{StreamReady, GetsReady, StreamsBy, IdlesBy, Repeats};
ghost use Rattle.odu_client.specs.PacketStream.{fresh_stream};

use frame_geometry::Frame;
use gfp_frames::GfpMaker;
use otn_base::limits::CLIENT_COLUMNS;
use otn_base::{Memory, copy_front};
use packet_text::{Line, PacketLines};
use port_base::{InPlaceOf, Source};
use std::alloc::Global;
use std::marker::Model;

// Bytes of an idle frame.
const IDLE_BYTES: usize = 4;

/// Makes one idle frame, then the frames of a text's packets without a gap, then idle frames for ever. A packet is read
/// only when the frame before it is used up.
#[derive(Drop)]
pub(crate) struct PacketStream {
    maker: GfpMaker,
    fcs: bool,
    // The last answer of the text's lines.
    answer: Line,
    packets: u64,
}

impl Model for PacketStream {
    ghost use Rattle.odu_client.specs.Framing.{StreamState};

    ghost Value = { StreamState };

    ghost view = { λ s. record { maker = s.maker; fcs = s.fcs; answer = s.answer; packets = s.packets } };
}

impl PacketStream {
    /// A stream of which nothing was emitted, with FCS. All memory is taken here.
    pub(crate) fn new(alloc: Global) -> Result<PacketStream, Memory>
        ensures { IfOk result (λ stream. stream ≡ fresh_stream true) }
    {
        Ok(PacketStream {
            maker: GfpMaker::new(alloc)?,
            fcs: true,
            answer: Line::Packet,
            packets: 0,
        })
    }

    /// Begins anew.
    pub(crate) fn restart(&mut self, fcs: bool)
        ensures { self.new ≡ fresh_stream fcs }
    {
        self.maker.restart();
        self.fcs = fcs;
        self.answer = Line::Packet;
        self.packets = 0;
    }

    /// How many packets were begun. The count stops at 2^64-1.
    pub(crate) fn packets(&self) -> u64
        ensures { result ≡ self.now.packets }
    {
        self.packets
    }

    /// The last answer of the text's lines.
    pub(crate) fn answer(&self) -> Line
        ensures { result ≡ self.now.answer }
    {
        self.answer
    }

    /// Whether there may be packets yet.
    pub(crate) fn goes_on(&self) -> bool
        ensures yes { result ≡ true → self.now.answer ≡ Line.Packet }
        ensures no { result ≡ false → self.now.answer ≢ Line.Packet }
    {
        self.answer == Line::Packet
    }

    /// The next bytes of the stream, as the payload of a frame, row by row. Says whether the next frame's will be the
    /// same: no packet is left, and as much of an idle frame is in hand as before.
    pub(crate) fn fill_payload<P: Source>(
        &mut self,
        lines: &mut PacketLines,
        place: &mut InPlaceOf<P>,
        frame: &mut Frame<CLIENT_COLUMNS>,
    ) -> bool
        ensures size { length (payload_of frame.new) ≡ CLIENT_PAYLOAD_BYTES }
        ensures goes { StreamsBy (in_view P.Source place.old) (in_view P.Source place.new) (payload_of frame.new)
            (lines_view lines.old) (lines_view lines.new) self.old self.new }
        ensures over { self.old.answer ≢ Line.Packet → (place.new ≡ place.old) × (lines.new ≡ lines.old)
            × (self.new.answer ≡ self.old.answer) }
        ensures again { result ≡ true → Repeats (payload_of frame.new) self.new }
    {
        let over = !self.goes_on();
        let mut hand = [0; IDLE_BYTES];
        let count = keep_few(self.maker.hand(), &mut hand);
        self.fill_rows(lines, place, frame);
        over && is_again(self.maker.hand(), &hand, count)
    }

    // The same, without a look at the next frame.
    fn fill_rows<P: Source>(
        &mut self,
        lines: &mut PacketLines,
        place: &mut InPlaceOf<P>,
        frame: &mut Frame<CLIENT_COLUMNS>,
    )
        ensures size { length (payload_of frame.new) ≡ CLIENT_PAYLOAD_BYTES }
        ensures goes { StreamsBy (in_view P.Source place.old) (in_view P.Source place.new) (payload_of frame.new)
            (lines_view lines.old) (lines_view lines.new) self.old self.new }
        ensures over { self.old.answer ≢ Line.Packet → (place.new ≡ place.old) × (lines.new ≡ lines.old)
            × (self.new.answer ≡ self.old.answer) }
        ensures idle { IdlesBy (payload_of frame.new) self.old self.new }
    {
        self.fill(lines, place, frame.payload_row_mut(1));
        self.fill(lines, place, frame.payload_row_mut(2));
        self.fill(lines, place, frame.payload_row_mut(3));
        self.fill(lines, place, frame.payload_row_mut(4));
    }

    // The next bytes of the stream.
    fn fill<P: Source>(
        &mut self,
        lines: &mut PacketLines,
        place: &mut InPlaceOf<P>,
        into: &mut [u8],
    )
        ensures size { length into.new ≡ length into.old }
        ensures goes { StreamsBy (in_view P.Source place.old) (in_view P.Source place.new) into.new
            (lines_view lines.old) (lines_view lines.new) self.old self.new }
        ensures over { self.old.answer ≢ Line.Packet → (place.new ≡ place.old) × (lines.new ≡ lines.old)
            × (self.new.answer ≡ self.old.answer) }
        ensures idle { IdlesBy into.new self.old self.new }
    {
        let mut done = 0;
        while done < into.len() {
            self.ask(lines, place);
            done += self.give(&mut into[done..]);
        }
    }

    // Takes the next packet in hand where no frame is, as long as there is one.
    fn ask<P: Source>(&mut self, lines: &mut PacketLines, place: &mut InPlaceOf<P>)
        ensures some { self.new.answer ≡ Line.Packet → self.new.maker.hand ≢ [] }
        ensures ready { (first : InView) (read emitted : List ℕ) (packets : List (List ℕ))
            → TextStands first (in_view P.Source place.old) read packets (lines_view lines.old) self.old
            → StreamMade packets emitted self.old
            → GetsReady first (in_view P.Source place.new) read emitted packets (lines_view lines.old)
            (lines_view lines.new) self.old.fcs self.new }
        ensures over { self.old.answer ≢ Line.Packet → (place.new ≡ place.old) × (lines.new ≡ lines.old)
            × (self.new.answer ≡ self.old.answer) }
        ensures stays { self.old.answer ≢ Line.Packet → self.new ≡ self.old }
    {
        if !self.maker.idle() {
            return;
        }
        if self.answer != Line::Packet {
            return;
        }
        self.answer = lines.take(place);
        if self.answer == Line::Packet {
            self.maker.offer(lines.packet(), self.fcs);
            self.packets = self.packets.saturating_add(1);
        }
    }

    // The next bytes of the frame in hand; behind the packets as many as there is room for.
    fn give(&mut self, into: &mut [u8]) -> usize
        requires room { 1 ≤ length into.old }
        requires some { self.old.answer ≡ Line.Packet → self.old.maker.hand ≢ [] }
        ensures some { 1 ≤ result }
        ensures within { result ≤ length into.old }
        ensures size { length into.new ≡ length into.old }
        ensures made { (packets : List (List ℕ)) (emitted : List ℕ) → StreamReady packets emitted self.old
            → StreamMade packets (emitted ++ take result into.new) self.new }
        ensures same { (self.new.fcs ≡ self.old.fcs) × (self.new.answer ≡ self.old.answer) }
        ensures idle { IdlesBy (take result into.new) self.old self.new }
    {
        if self.answer == Line::Packet {
            return self.maker.give(into);
        }
        self.maker.fill(into);
        into.len()
    }
}

// Keeps these bytes, where there is room for them, and says how many they are.
fn keep_few(bytes: &[u8], kept: &mut [u8]) -> Option<usize>
    ensures size { length kept.new ≡ length kept.old }
    ensures within { IfSome result (λ n. n ≤ length kept.new) }
    ensures kept { IfSome result (λ n. take n kept.new ≡ bytes.now) }
{
    let count = bytes.len();
    if count > kept.len() {
        return None;
    }
    copy_front(kept, bytes);
    Some(count)
}

// Whether bytes were kept, so many, and these are the same.
fn is_again(bytes: &[u8], kept: &[u8], count: Option<usize>) -> bool
    requires { IfSome count (λ n. n ≤ length kept.now) }
    ensures { result ≡ true → (was : List ℕ) → IfSome count (λ n. take n kept.now ≡ was) → bytes.now ≡ was }
{
    match count {
        Some(n) => bytes == &kept[..n],
        None => false,
    }
}
