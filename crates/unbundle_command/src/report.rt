// The report of the command.
ghost use Rattle.std.specs.Prelude.{◌≡◌, ◌≢◌, ◌≤◌, ◌+◌, ◌-◌, ◌*◌, ◌^◌, ◌++◌, List, [], length};
ghost use Rattle.std.specs.Fmt.{decimal};
ghost use Rattle.arrayvec.specs.ArrayString.{array_string_len};
ghost use Rattle.otn_base.specs.declared.limits.TheConstants.{CLIENTS};
ghost use Rattle.port_base.specs.Bytes.{HasFailed};
ghost use Rattle.port_base.specs.PortViews.{sink_view, SinkWrites};
ghost use Rattle.port_base.specs.Views.{BaysView};
ghost use Rattle.gfp_linear.specs.ChannelArrivals.{ChannelArrival};
ghost use Rattle.unbundle_command.specs.Steps.Receiving.{OutputsStand};
ghost use Rattle.unbundle_command.specs.Unbundled.{channel_line, channel_lines, channel_text, report_text};

use crate::channel::Channel;
use crate::outputs::Outputs;
use arrayvec::ArrayString;
use itoa::Buffer;
use otn_base::limits::CLIENTS;
use port_base::{Sink, Written, write_whole};

// The numbers of the line of a channel, in order, each after its label: a further one is one more row here. `put` puts
// them into a text, `width` says how many bytes they take at most.
macro_rules! channel {
    ($do:ident, $text:expr, $cid:expr, $packets:expr, $losses:expr) => {
        $do!($text;
            "channel " => $cid as u64,
            " packets " => $packets,
            " losses " => $losses)
    };
}

macro_rules! put {
    ($text:expr; $($label:literal => $number:expr),*) => {{
        $(put_number($text, $label, $number);)*
    }};
}

macro_rules! width {
    ($text:expr; $($label:literal => $number:expr),*) => {
        0 $(+ $label.len() + DIGITS)*
    };
}

/// Digits of a number at most.
const DIGITS: usize = 20;

/// Bytes of the line of a channel at most.
const CHANNEL_BYTES: usize = channel!(width, (), 0, 0, 0) + "\n".len();

/// Bytes of the last line at most.
const OTHER_BYTES: usize = "other ".len() + DIGITS + "\n".len();

/// Room for a report: all lines that it can have, each of as many bytes as it has at most.
const REPORT_BYTES: usize = CHANNEL_BYTES * CLIENTS + OTHER_BYTES;

/// Writes the report on what arrived.
pub(crate) fn write_report<K: Sink>(outputs: &Outputs, report: &mut K) -> Written
    ensures told { (first now : BaysView) (arrived : List ChannelArrival) → OutputsStand first now arrived outputs.now
        → length arrived ≤ 2 ^ 64 - 1
        → SinkWrites result (sink_view K.Sink report.old) (report_text arrived) (sink_view K.Sink report.new) }
    ensures cause { result ≡ Written.Lost → HasFailed (K.faults report.old) (K.faults report.new) }
    ensures well { result ≢ Written.Lost → K.faults report.new ≡ K.faults report.old }
{
    let mut text = ArrayString::new();
    put_report(&mut text, outputs);
    write_whole(report, text.as_bytes())
}

// Puts it into the empty text.
fn put_report(text: &mut ArrayString<REPORT_BYTES>, outputs: &Outputs)
    requires empty { text.old.bytes ≡ [] }
    ensures { (first now : BaysView) (arrived : List ChannelArrival) → OutputsStand first now arrived outputs.now
        → length arrived ≤ 2 ^ 64 - 1 → text.new.bytes ≡ report_text arrived }
{
    put_channels(text, outputs);
    put_number(text, "other ", outputs.other());
    text.push_str("\n");
}

// The lines of the channels with a client output.
fn put_channels(text: &mut ArrayString<REPORT_BYTES>, outputs: &Outputs)
    requires room { array_string_len text.old + CHANNEL_BYTES * CLIENTS ≤ REPORT_BYTES }
    ensures text { (first now : BaysView) (arrived : List ChannelArrival) → OutputsStand first now arrived outputs.now
        → length arrived ≤ 2 ^ 64 - 1
        → text.new.bytes ≡ text.old.bytes ++ channel_lines arrived CLIENTS }
    ensures most { array_string_len text.new ≤ array_string_len text.old + CHANNEL_BYTES * CLIENTS }
{
    for cid in 0..CLIENTS as u8 {
        put_channel(text, cid, outputs.channel(cid));
    }
}

// The line of a channel, where something arrived on it.
fn put_channel(text: &mut ArrayString<REPORT_BYTES>, cid: u8, channel: &Channel)
    requires room { array_string_len text.old + CHANNEL_BYTES ≤ REPORT_BYTES }
    ensures text { text.new.bytes ≡ text.old.bytes ++ channel_line cid channel.now.packets channel.now.losses }
    ensures most { array_string_len text.new ≤ array_string_len text.old + CHANNEL_BYTES }
{
    let packets = channel.packets();
    let losses = channel.losses();
    if packets > 0 || losses > 0 {
        put_line(text, cid, packets, losses);
    }
}

// The line.
fn put_line(text: &mut ArrayString<REPORT_BYTES>, cid: u8, packets: u64, losses: u64)
    requires room { array_string_len text.old + CHANNEL_BYTES ≤ REPORT_BYTES }
    ensures text { text.new.bytes ≡ text.old.bytes ++ channel_text cid packets losses }
    ensures most { array_string_len text.new ≤ array_string_len text.old + CHANNEL_BYTES }
{
    channel!(put, text, cid, packets, losses);
    text.push_str("\n");
}

// A number after its label.
fn put_number(text: &mut ArrayString<REPORT_BYTES>, label: &str, number: u64)
    requires room { array_string_len text.old + length label.now + DIGITS ≤ REPORT_BYTES }
    ensures text { text.new.bytes ≡ text.old.bytes ++ (label.now ++ decimal number) }
    ensures most { array_string_len text.new ≤ array_string_len text.old + length label.now + DIGITS }
{
    let mut digits = Buffer::new();
    text.push_str(label);
    text.push_str(digits.format(number));
}
