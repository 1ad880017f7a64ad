// The frames of a client out of its text.
ghost use Rattle.std.specs.Prelude.{◌≡◌, ◌≢◌, ◌<◌, ◌≤◌, ◌+◌, ◌⊎◌, ℕ, List, [], ◌∷◌, ◌++◌, true, false, length, take, drop, IfOk, Option, option_map};
ghost use Rattle.port_base.specs.InPlace.{in_view};
ghost use Rattle.port_base.specs.Views.{InView};
ghost use Rattle.packet_text.specs.LinesStand.{lines_view, fresh_lines};
ghost use Rattle.otn_base.specs.Counts.{saturated};
ghost use Rattle.packet_text.specs.PacketText.{packets_of};
ghost use Rattle.odu_client.specs.ClientInput.{is_spent, bad_line, packets_begun};
ghost use Rattle.odu_client.specs.Framing.{FramerState, ClientStands, Fills, OfItsInput, OfItsText};
ghost use Rattle.odu_client.specs.FramerSteps.{fresh_framer};
ghost use Rattle.odu_client.specs.Steps.FramerSteps.{FramedSome, Makes, Gives};
ghost use Rattle.odu_client.specs.Steps.Framing.{IsKnown, StreamsBy};
ghost use Rattle.odu_client.specs.AlignedRuns.{payload_of};
ghost use Rattle.frame_geometry.specs.PayloadParity.{payload_parity_of};
ghost use Rattle.otn_base.specs.declared.limits.TheConstants.{CLIENT_COLUMNS, CLIENT_FRAME_BYTES, CLIENT_PAYLOAD_BYTES};

use crate::client_overhead::ClientOverhead;
use crate::packet_stream::PacketStream;
use frame_geometry::Frame;
use frame_overhead::payload_parity;
use otn_base::limits::{CLIENT_COLUMNS, CLIENT_FRAME_BYTES};
use otn_base::{Memory, Trace, copy_front};
use packet_text::{Line, PacketLines};
use port_base::{InPlaceOf, Source};
use std::alloc::Global;
use std::marker::Model;

/// Makes the frames of a client out of the packets of its text (G.709 clause 17.4). A frame is made when its first byte
/// is needed, and the payload that it carries then; a packet is read only when the GFP frame before it is used up.
/// Contracts see what a framer keeps, and which bytes of its stream were emitted.
#[derive(Drop)]
pub struct ClientFramer {
    trace: Trace,
    stream: PacketStream,
    overhead: ClientOverhead,
    frame: Frame<CLIENT_COLUMNS>,
    // Where the next frame has the payload of the one in hand: what that gives to the BIP-8.
    again: Option<u8>,
    // How many bytes of the frame in hand were emitted: all where there is none.
    at: usize,
    // Whether the packets' end was not seen before the frame in hand.
    fresh: bool,
}

impl Model for ClientFramer {
    ghost use Rattle.std.specs.Prelude.{◌≡◌, ◌≤◌, drop, length};
    ghost use Rattle.odu_client.specs.Framing.{FramerState};
    ghost use Rattle.odu_client.specs.Steps.Framing.{IsKnown};
    ghost use Rattle.otn_base.specs.declared.limits.TheConstants.{CLIENT_FRAME_BYTES};

    ghost Value = { FramerState };

    ghost view = { λ f. record {
      sapi = f.trace;
      stream = f.stream;
      path = f.overhead.path;
      mfas = f.overhead.mfas;
      left = drop f.at f.frame;
      fresh = f.fresh;
    } };

    ghost invariant = { λ f. (f.at ≤ CLIENT_FRAME_BYTES) × (length f.frame ≡ CLIENT_FRAME_BYTES)
        × IsKnown f.again f.frame f.stream };
}

impl ClientFramer {
    /// A framer with an empty trace whose packets have FCS, and of which nothing was emitted. All memory is taken here.
    pub fn new(alloc: Global) -> Result<ClientFramer, Memory>
        ensures fresh { IfOk result (λ framer. framer ≡ fresh_framer [] true) }
        ensures stands { IfOk result (λ framer. (first : InView) → ClientStands first first [] [] fresh_lines framer) }
    {
        Ok(ClientFramer {
            trace: no_trace(),
            stream: PacketStream::new(alloc)?,
            overhead: ClientOverhead::new(),
            frame: Frame::new(alloc)?,
            again: None,
            at: CLIENT_FRAME_BYTES,
            fresh: true,
        })
    }

    /// Begins anew, as for another text: with this trace, and with FCS or without.
    pub fn restart(&mut self, trace: &Trace, fcs: bool)
        ensures fresh { self.new ≡ fresh_framer trace.now fcs }
        ensures stands { (first : InView) → ClientStands first first [] [] fresh_lines self.new }
    {
        self.trace = same_trace(trace);
        self.stream.restart(fcs);
        self.overhead = ClientOverhead::new();
        self.again = None;
        self.at = CLIENT_FRAME_BYTES;
        self.fresh = true;
    }

    /// The next bytes of the client's stream. The lines were new or restarted when the framer was, and both were used
    /// since then with each other and with this place alone.
    pub fn fill<P: Source>(
        &mut self,
        lines: &mut PacketLines,
        place: &mut InPlaceOf<P>,
        into: &mut [u8],
    )
        ensures size { length into.new ≡ length into.old }
        ensures fills { (first : InView) (read emitted : List ℕ)
            → ClientStands first (in_view P.Source place.old) read emitted (lines_view lines.old) self.old
            → Fills first (in_view P.Source place.new) read emitted into.new (lines_view lines.old)
            (lines_view lines.new) self.old self.new }

        // once no packet is left nothing is read
        ensures over { self.old.stream.answer ≢ Line.Packet → (place.new ≡ place.old) × (lines.new ≡ lines.old) }

        // nor while the frame in hand has these bytes
        ensures hand { length into.old ≤ length self.old.left → (place.new ≡ place.old) × (lines.new ≡ lines.old) }
    {
        let mut done = 0;
        while done < into.len() {
            self.have_frame(lines, place);
            done += self.give(&mut into[done..]);
        }
    }

    /// Whether the text has ended, and the frame in which that was seen was emitted whole.
    pub fn spent(&self) -> bool
        ensures { OfItsInput self.now (λ input emitted. result ≡ is_spent input self.now.stream.fcs emitted) }
    {
        match self.stream.answer() {
            Line::End => self.is_emitted(),
            _ => false,
        }
    }

    /// How many packets are begun: the first byte of their GFP frame stands in a frame that was made. The count stops
    /// at 2^64-1.
    pub fn packets(&self) -> u64
        ensures { OfItsText self.now (λ text emitted.
            result ≡ saturated (packets_begun (packets_of text).packets self.now.stream.fcs emitted)) }
    {
        self.stream.packets()
    }

    /// The number of the bad line, from 1, once it is seen.
    pub fn bad(&self) -> Option<u64>
        ensures { OfItsInput self.now (λ input emitted.
            result ≡ option_map saturated (bad_line input self.now.stream.fcs emitted)) }
    {
        match self.stream.answer() {
            Line::Bad(number) => Some(number),
            _ => None,
        }
    }

    // Whether the frame in which the packets' end was seen was emitted.
    fn is_emitted(&self) -> bool
        ensures yes { result ≡ true → (self.now.fresh ≡ false) ⊎ (self.now.left ≡ []) }
        ensures not_yet { result ≡ false → (self.now.fresh ≡ true) × (1 ≤ length self.now.left) }
    {
        if !self.fresh {
            return true;
        }
        self.at >= CLIENT_FRAME_BYTES
    }

    // Makes the next frame where all of the one in hand was emitted.
    fn have_frame<P: Source>(&mut self, lines: &mut PacketLines, place: &mut InPlaceOf<P>)
        ensures some { self.new.left ≢ [] }
        ensures makes { (first : InView) (read emitted : List ℕ)
            → FramedSome first (in_view P.Source place.old) read emitted (lines_view lines.old) self.old
            → Makes first (in_view P.Source place.new) read emitted (lines_view lines.old)
            (lines_view lines.new) self.old self.new }
        ensures over { self.old.stream.answer ≢ Line.Packet → (place.new ≡ place.old) × (lines.new ≡ lines.old)
            × (self.new.stream.answer ≡ self.old.stream.answer) }
        ensures hand { self.old.left ≢ [] → (place.new ≡ place.old) × (lines.new ≡ lines.old) × (self.new ≡ self.old) }
    {
        if self.at < CLIENT_FRAME_BYTES {
            return;
        }
        self.fresh = self.stream.goes_on();
        let payload = next_payload(
            &mut self.stream,
            lines,
            place,
            &mut self.frame,
            &mut self.again,
        );
        self.overhead
            .write_with(&mut self.frame, &self.trace, payload);
        self.at = 0;
    }

    // The next bytes of the frame in hand, as many as there is room for: how many.
    fn give(&mut self, into: &mut [u8]) -> usize
        requires room { 1 ≤ length into.old }
        requires some { self.old.left ≢ [] }
        ensures some { 1 ≤ result }
        ensures within { result ≤ length into.old }
        ensures size { length into.new ≡ length into.old }
        ensures short { length self.new.left < CLIENT_FRAME_BYTES }
        ensures gives { Gives (take result into.new) self.old self.new }
    {
        let count = into.len().min(CLIENT_FRAME_BYTES - self.at);
        copy_front(into, &self.frame.as_bytes()[self.at..self.at + count]);
        self.at += count;
        count
    }
}

// Puts the payload of the next frame in place of that of the last one, and answers what it gives to the BIP-8. Where it
// is known that they are the same, nothing is written.
fn next_payload<P: Source>(
    stream: &mut PacketStream,
    lines: &mut PacketLines,
    place: &mut InPlaceOf<P>,
    frame: &mut Frame<CLIENT_COLUMNS>,
    again: &mut Option<u8>,
) -> u8
    requires { IsKnown again.old frame.old stream.old }
    ensures size { length (payload_of frame.new) ≡ CLIENT_PAYLOAD_BYTES }
    ensures goes { StreamsBy (in_view P.Source place.old) (in_view P.Source place.new) (payload_of frame.new)
        (lines_view lines.old) (lines_view lines.new) stream.old stream.new }
    ensures over { stream.old.answer ≢ Line.Packet → (place.new ≡ place.old) × (lines.new ≡ lines.old)
        × (stream.new.answer ≡ stream.old.answer) }
    ensures parity { result ≡ payload_parity_of CLIENT_COLUMNS frame.new }
    ensures again { IsKnown again.new frame.new stream.new }
{
    if let Some(parity) = *again {
        return parity;
    }
    let repeats = stream.fill_payload(lines, place, frame);
    let parity = payload_parity(frame);
    *again = if repeats { Some(parity) } else { None };
    parity
}

// A trace with an empty identifier.
fn no_trace() -> Trace
    ensures { result ≡ [] }
{
    match Trace::new(&[]) {
        Some(trace) => trace,
        None => unreachable!(),
    }
}

fn same_trace(trace: &Trace) -> Trace
    ensures { result ≡ trace.now }
{
    match Trace::new(trace.as_slice()) {
        Some(trace) => trace,
        None => unreachable!(),
    }
}
