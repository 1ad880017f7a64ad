// A client's output: the packets in the bytes that arrive, each written as a line of text.
ghost use Rattle.std.specs.Prelude.{◌≡◌, ◌≤◌, ◌++◌, ℕ, List, [], length, take, IfOk};
ghost use Rattle.odu_client.specs.AlignedRuns.{Arrival, payload_of};
ghost use Rattle.odu_client.specs.Aligner.{news};
ghost use Rattle.odu_client.specs.View.{aligner_state};
ghost use Rattle.port_base.specs.OutPlace.{out_view};
ghost use Rattle.port_base.specs.Views.{OutView};
ghost use Rattle.cross_matrix.specs.Steps.Receiving.{RunRead, AllRead, HoldsAfter};

use crate::held_lines::HeldLines;
use frame_geometry::Frame;
use gfp_frames::GfpReader;
use odu_client::{Aligned, ClientAligner};
use otn_base::Memory;
use otn_base::limits::CLIENT_COLUMNS;
use port_base::{OutPlaceOf, Sink};
use std::alloc::Global;
use std::marker::Model;

/// Finds the client frames in the bytes that arrive, and the packets in the payload of those that are handed
/// on; each break begins the GFP reader anew. No line is held between two calls.
#[derive(Drop)]
pub(crate) struct Receiver {
    aligner: ClientAligner,
    reader: GfpReader,
    lines: HeldLines,
}

impl Model for Receiver {
    ghost use Rattle.odu_client.specs.View.{aligner_state};
    ghost use Rattle.cross_matrix.specs.Receiving.{NoneHeld, ReceiverView};

    ghost Value = { ReceiverView };

    ghost view = { λ r. record { aligner = aligner_state r.aligner; reader = r.reader; frames = r.aligner.frames; packets = r.lines.packets } };

    ghost invariant = { λ r. NoneHeld r.lines };
}

impl Receiver {
    ghost use Rattle.cross_matrix.specs.Receiving.{ReceiverStands};

    /// A receiver at which nothing has arrived. All memory is taken here.
    pub(crate) fn new(alloc: Global) -> Result<Receiver, Memory>
        ensures { IfOk result (λ r. (first : OutView) → ReceiverStands first first [] r) }
    {
        Ok(Receiver {
            aligner: ClientAligner::new(alloc)?,
            reader: GfpReader::new(alloc)?,
            lines: HeldLines::new(alloc)?,
        })
    }

    /// Begins anew.
    pub(crate) fn restart(&mut self)
        ensures { (first : OutView) → ReceiverStands first first [] self.new }
    {
        self.aligner.restart();
        self.reader.restart();
        self.lines.restart();
    }

    /// Takes the bytes that arrive, and writes the packets that they deliver.
    pub(crate) fn take<K: Sink>(&mut self, bytes: &[u8], place: &mut OutPlaceOf<K>)
        ensures { (first : OutView) (arrived : List ℕ)
            → ReceiverStands first (out_view K.Sink place.old) arrived self.old
            → ReceiverStands first (out_view K.Sink place.new) (arrived ++ bytes.now) self.new }
    {
        take_all(
            bytes,
            &mut self.aligner,
            &mut self.reader,
            &mut self.lines,
            place,
        );
        self.lines.flush(place);
    }

    /// How many whole frames were handed on.
    pub(crate) fn frames(&self) -> u64
        ensures { result ≡ self.now.frames }
    {
        self.aligner.frames()
    }

    /// How many packets count.
    pub(crate) fn packets(&self) -> u64
        ensures { result ≡ self.now.packets }
    {
        self.lines.packets()
    }
}

// Takes the bytes that arrive: the lines of the packets that they deliver are due to the place.
fn take_all<K: Sink>(
    bytes: &[u8],
    aligner: &mut ClientAligner,
    reader: &mut GfpReader,
    lines: &mut HeldLines,
    place: &mut OutPlaceOf<K>,
)
    ensures { (first : OutView) (arrived : List ℕ)
        → HoldsAfter first (out_view K.Sink place.old) arrived
        (aligner_state aligner.old) aligner.old.frames reader.old lines.old
        → HoldsAfter first (out_view K.Sink place.new) (arrived ++ bytes.now)
        (aligner_state aligner.new) aligner.new.frames reader.new lines.new }
{
    let mut done = 0;
    while done < bytes.len() {
        done += take_some(&bytes[done..], aligner, reader, lines, place);
    }
}

// Takes bytes up to and with the first that ends a whole frame or a break, or all where none does: how many.
fn take_some<K: Sink>(
    bytes: &[u8],
    aligner: &mut ClientAligner,
    reader: &mut GfpReader,
    lines: &mut HeldLines,
    place: &mut OutPlaceOf<K>,
) -> usize
    ensures within { result ≤ length bytes.now }
    ensures some { 1 ≤ length bytes.now → 1 ≤ result }
    ensures holds { (first : OutView) (arrived : List ℕ)
        → HoldsAfter first (out_view K.Sink place.old) arrived
        (aligner_state aligner.old) aligner.old.frames reader.old lines.old
        → HoldsAfter first (out_view K.Sink place.new) (arrived ++ take result bytes.now)
        (aligner_state aligner.new) aligner.new.frames reader.new lines.new }
{
    let (aligned, count) = aligner.take_some(bytes);
    hand_on(aligned, aligner.frame(), reader, lines, place);
    count
}

// What arrived: the payload of a whole frame is read, and a break begins the reader anew.
fn hand_on<K: Sink>(
    aligned: Aligned,
    frame: &Frame<CLIENT_COLUMNS>,
    reader: &mut GfpReader,
    lines: &mut HeldLines,
    place: &mut OutPlaceOf<K>,
)
    ensures { (first : OutView) (arrived : List Arrival)
        → AllRead first (out_view K.Sink place.old) arrived reader.old lines.old
        → AllRead first (out_view K.Sink place.new) (arrived ++ news aligned frame.now) reader.new lines.new }
{
    match aligned {
        Aligned::Nothing => {}
        Aligned::Whole => read_frame(frame, reader, lines, place),
        Aligned::Break => reader.restart(),
    }
}

// Reads the payload of a frame, row by row.
fn read_frame<K: Sink>(
    frame: &Frame<CLIENT_COLUMNS>,
    reader: &mut GfpReader,
    lines: &mut HeldLines,
    place: &mut OutPlaceOf<K>,
)
    ensures { (first : OutView) (earlier : List (List ℕ)) (read : List ℕ)
        → RunRead first (out_view K.Sink place.old) earlier read reader.old lines.old
        → RunRead first (out_view K.Sink place.new) earlier (read ++ payload_of frame.now) reader.new lines.new }
{
    read_bytes(frame.payload_row(1), reader, lines, place);
    read_bytes(frame.payload_row(2), reader, lines, place);
    read_bytes(frame.payload_row(3), reader, lines, place);
    read_bytes(frame.payload_row(4), reader, lines, place);
}

// Reads bytes of a run.
fn read_bytes<K: Sink>(
    bytes: &[u8],
    reader: &mut GfpReader,
    lines: &mut HeldLines,
    place: &mut OutPlaceOf<K>,
)
    ensures { (first : OutView) (earlier : List (List ℕ)) (read : List ℕ)
        → RunRead first (out_view K.Sink place.old) earlier read reader.old lines.old
        → RunRead first (out_view K.Sink place.new) earlier (read ++ bytes.now) reader.new lines.new }
{
    let mut done = 0;
    while done < bytes.len() {
        done += read_some(&bytes[done..], reader, lines, place);
    }
}

// Reads bytes of a run up to and with the first that delivers a packet, or all where none does: how many.
fn read_some<K: Sink>(
    bytes: &[u8],
    reader: &mut GfpReader,
    lines: &mut HeldLines,
    place: &mut OutPlaceOf<K>,
) -> usize
    ensures within { result ≤ length bytes.now }
    ensures some { 1 ≤ length bytes.now → 1 ≤ result }
    ensures stands { (first : OutView) (earlier : List (List ℕ)) (read : List ℕ)
        → RunRead first (out_view K.Sink place.old) earlier read reader.old lines.old
        → RunRead first (out_view K.Sink place.new) earlier (read ++ take result bytes.now) reader.new lines.new }
{
    match reader.take_some(bytes) {
        (more, Some(packet)) => {
            lines.take(packet, place);
            more
        }
        (more, None) => more,
    }
}
