// The line of the report that tells of a channel.
ghost use Rattle.std.specs.Prelude.{◌≡◌, ◌<◌, ◌≤◌, ◌++◌, ◌∷◌, ℕ, length, codes};
ghost use Rattle.std.specs.Fmt.{decimal};
ghost use Rattle.port_base.specs.InPlace.{in_view};
ghost use Rattle.port_base.specs.PortViews.{SinkWrites, sink_view};
ghost use Rattle.port_base.specs.Racks.{bays_view};
ghost use Rattle.device_model.specs.Report.{state_word};
ghost use Rattle.bundle_command.specs.BundleStream.{channel_line};
ghost use Rattle.bundle_command.specs.Steps.Channels.{HasChannel};
ghost use Rattle.bundle_command.specs.Steps.Settled.{line_of, lines_of};

use crate::channel::Channel;
use arrayvec::ArrayString;
use itoa::Buffer;
use port_base::{InPlaceOf, Rack, Sink, Source, Written, write_whole};

/// Digits of a number at most.
const DIGITS: usize = 20;

/// Bytes of the word for a place at most.
const PLACE_WORD: usize = "empty".len();

/// Bytes of the line at most.
const LINE_BYTES: usize = "channel ".len()
    + DIGITS
    + " packets ".len()
    + DIGITS
    + " ".len()
    + PLACE_WORD
    + "\n".len();

/// Writes the lines of all channels, in their order; the first write that fails ends that.
pub(crate) fn write_channels<I: Source, O: Sink, K: Sink>(
    channels: &[Channel],
    bays: &Rack<I, O>,
    report: &mut K,
) -> Written
    requires places { (c : ℕ) (channel : Channel) → HasChannel channels.now c channel → channel.client < 16 }
    ensures { SinkWrites result (sink_view K.Sink report.old)
        (lines_of channels.now (bays_view I.Source O.Sink bays.now)) (sink_view K.Sink report.new) }
{
    for channel in channels {
        if write_channel(channel, bays, report) == Written::Lost {
            return Written::Lost;
        }
    }
    Written::Whole
}

// The line of one channel.
fn write_channel<I: Source, O: Sink, K: Sink>(
    channel: &Channel,
    bays: &Rack<I, O>,
    report: &mut K,
) -> Written
    requires { channel.now.client < 16 }
    ensures { SinkWrites result (sink_view K.Sink report.old) (line_of channel.now (bays_view I.Source O.Sink bays.now))
        (sink_view K.Sink report.new) }
{
    write_line(
        channel.client,
        channel.packets,
        bays.client_in(channel.client),
        report,
    )
}

fn write_line<I: Source, K: Sink>(
    client: u8,
    packets: u64,
    place: &InPlaceOf<I>,
    report: &mut K,
) -> Written
    ensures { SinkWrites result (sink_view K.Sink report.old)
        (channel_line client packets (in_view I.Source place.now).state) (sink_view K.Sink report.new) }
{
    let mut digits = Buffer::new();
    let mut line = ArrayString::<LINE_BYTES>::new();
    line.push_str("channel ");
    line.push_str(digits.format(client));
    line.push_str(" packets ");
    line.push_str(digits.format(packets));
    line.push_str(" ");
    line.push_str(word_of(place));
    line.push_str("\n");
    write_whole(report, line.as_bytes())
}

fn word_of<I: Source>(place: &InPlaceOf<I>) -> &'static str
    ensures word { result.now ≡ state_word (in_view I.Source place.now).state }
    ensures short { length result.now ≤ PLACE_WORD }
{
    match place {
        InPlaceOf::Empty => "empty",
        InPlaceOf::Live(..) => "live",
        InPlaceOf::Dead(..) => "dead",
    }
}
