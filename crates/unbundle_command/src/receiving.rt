// What arrives on channels in the bytes that a sink emits.
ghost use Rattle.std.specs.Prelude.{◌≡◌, ◌≤◌, ◌++◌, ℕ, List, [], length, take};
ghost use Rattle.odu_client.specs.AlignedRuns.{Arrival, payload_of};
ghost use Rattle.odu_client.specs.Aligner.{news};
ghost use Rattle.odu_client.specs.View.{aligner_state};
ghost use Rattle.port_base.specs.Racks.{bays_view};
ghost use Rattle.port_base.specs.Views.{BaysView};
ghost use Rattle.gfp_linear.specs.ChannelArrivals.{ChannelArrival};
ghost use Rattle.unbundle_command.specs.Steps.Receiving.{RunRead, AllRead, HoldsAfter, OnlyClientsOut};

use crate::outputs::Outputs;
use frame_geometry::Frame;
use gfp_linear::ChannelReader;
use odu_client::{Aligned, ClientAligner};
use otn_base::limits::CLIENT_COLUMNS;
use port_base::{Rack, Sink, Source};

/// Takes bytes of a client, finds the client frames in them, and the linear GFP frames in the payload of those that are
/// handed on; each break begins the reader anew. The packets that arrive are due to the client outputs.
pub(crate) fn take_all<I: Source, O: Sink>(
    bytes: &[u8],
    aligner: &mut ClientAligner,
    reader: &mut ChannelReader,
    outputs: &mut Outputs,
    bays: &mut Rack<I, O>,
)
    ensures holds { (first : BaysView) (read : List ℕ)
        → HoldsAfter first (bays_view I.Source O.Sink bays.old) read (aligner_state aligner.old) reader.old outputs.old
        → HoldsAfter first (bays_view I.Source O.Sink bays.new) (read ++ bytes.now)
        (aligner_state aligner.new) reader.new outputs.new }
    ensures alone { OnlyClientsOut (bays_view I.Source O.Sink bays.old) (bays_view I.Source O.Sink bays.new) }
{
    let mut done = 0;
    while done < bytes.len() {
        done += take_some(&bytes[done..], aligner, reader, outputs, bays);
    }
}

// Takes bytes up to and with the first that ends a whole frame or a break, or all where none does: how many.
fn take_some<I: Source, O: Sink>(
    bytes: &[u8],
    aligner: &mut ClientAligner,
    reader: &mut ChannelReader,
    outputs: &mut Outputs,
    bays: &mut Rack<I, O>,
) -> usize
    ensures within { result ≤ length bytes.now }
    ensures some { 1 ≤ length bytes.now → 1 ≤ result }
    ensures holds { (first : BaysView) (read : List ℕ)
        → HoldsAfter first (bays_view I.Source O.Sink bays.old) read (aligner_state aligner.old) reader.old outputs.old
        → HoldsAfter first (bays_view I.Source O.Sink bays.new) (read ++ take result bytes.now)
        (aligner_state aligner.new) reader.new outputs.new }
    ensures alone { OnlyClientsOut (bays_view I.Source O.Sink bays.old) (bays_view I.Source O.Sink bays.new) }
{
    let (aligned, count) = aligner.take_some(bytes);
    hand_on(aligned, aligner.frame(), reader, outputs, bays);
    count
}

// What came: the payload of a whole frame is read, and a break begins the reader anew.
fn hand_on<I: Source, O: Sink>(
    aligned: Aligned,
    frame: &Frame<CLIENT_COLUMNS>,
    reader: &mut ChannelReader,
    outputs: &mut Outputs,
    bays: &mut Rack<I, O>,
)
    ensures read { (first : BaysView) (arrived : List Arrival)
        → AllRead first (bays_view I.Source O.Sink bays.old) arrived reader.old outputs.old
        → AllRead first (bays_view I.Source O.Sink bays.new) (arrived ++ news aligned frame.now) reader.new
        outputs.new }
    ensures alone { OnlyClientsOut (bays_view I.Source O.Sink bays.old) (bays_view I.Source O.Sink bays.new) }
{
    match aligned {
        Aligned::Nothing => {}
        Aligned::Whole => read_frame(frame, reader, outputs, bays),
        Aligned::Break => reader.restart(),
    }
}

// Reads the payload of a frame, row by row.
fn read_frame<I: Source, O: Sink>(
    frame: &Frame<CLIENT_COLUMNS>,
    reader: &mut ChannelReader,
    outputs: &mut Outputs,
    bays: &mut Rack<I, O>,
)
    ensures read { (first : BaysView) (earlier : List ChannelArrival) (read : List ℕ)
        → RunRead first (bays_view I.Source O.Sink bays.old) earlier read reader.old outputs.old
        → RunRead first (bays_view I.Source O.Sink bays.new) earlier
        (read ++ payload_of frame.now) reader.new outputs.new }
    ensures alone { OnlyClientsOut (bays_view I.Source O.Sink bays.old) (bays_view I.Source O.Sink bays.new) }
{
    read_bytes(frame.payload_row(1), reader, outputs, bays);
    read_bytes(frame.payload_row(2), reader, outputs, bays);
    read_bytes(frame.payload_row(3), reader, outputs, bays);
    read_bytes(frame.payload_row(4), reader, outputs, bays);
}

// Reads bytes of a run.
fn read_bytes<I: Source, O: Sink>(
    bytes: &[u8],
    reader: &mut ChannelReader,
    outputs: &mut Outputs,
    bays: &mut Rack<I, O>,
)
    ensures read { (first : BaysView) (earlier : List ChannelArrival) (read : List ℕ)
        → RunRead first (bays_view I.Source O.Sink bays.old) earlier read reader.old outputs.old
        → RunRead first (bays_view I.Source O.Sink bays.new) earlier (read ++ bytes.now) reader.new outputs.new }
    ensures alone { OnlyClientsOut (bays_view I.Source O.Sink bays.old) (bays_view I.Source O.Sink bays.new) }
{
    let mut done = 0;
    while done < bytes.len() {
        done += read_some(&bytes[done..], reader, outputs, bays);
    }
}

// Reads bytes of a run up to and with the first with which something arrives, or all where nothing does: how many.
fn read_some<I: Source, O: Sink>(
    bytes: &[u8],
    reader: &mut ChannelReader,
    outputs: &mut Outputs,
    bays: &mut Rack<I, O>,
) -> usize
    ensures within { result ≤ length bytes.now }
    ensures some { 1 ≤ length bytes.now → 1 ≤ result }
    ensures read { (first : BaysView) (earlier : List ChannelArrival) (read : List ℕ)
        → RunRead first (bays_view I.Source O.Sink bays.old) earlier read reader.old outputs.old
        → RunRead first (bays_view I.Source O.Sink bays.new) earlier
        (read ++ take result bytes.now) reader.new outputs.new }
    ensures alone { OnlyClientsOut (bays_view I.Source O.Sink bays.old) (bays_view I.Source O.Sink bays.new) }
{
    match reader.take_some(bytes) {
        (more, Some(arrival)) => {
            outputs.take(arrival, bays);
            more
        }
        (more, None) => more,
    }
}
