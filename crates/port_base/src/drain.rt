// Writing a whole slice.
ghost use Rattle.std.specs.Prelude.{◌≡◌, ◌≢◌, ◌<◌, ◌≤◌, length, take};
ghost use Rattle.port_base.specs.Bytes.{after, HasFailed};
ghost use Rattle.port_base.specs.OutPlace.{live_out};
ghost use Rattle.port_base.specs.PortViews.{sink_view, SinkWrites};
ghost use Rattle.port_base.specs.Writes.{Gains, Sends, Writes, IsWriting};

use crate::{Failed, Sink};

/// How a whole write ended: all bytes went out, or a call failed.
#[derive(Clone, Copy, Debug, PartialEq, Eq)]
pub enum Written {
    Whole,
    Lost,
}

/// Writes all bytes to a sink that stands in no place. After Lost a part of them went out, from
/// the front, and the sink's count of faults rose or stands at its end; after Whole it is as it
/// was. No bytes: no call.
pub fn write_whole<K: Sink>(sink: &mut K, bytes: &[u8]) -> Written
    ensures port { SinkWrites result (sink_view K.Sink sink.old) bytes.now (sink_view K.Sink sink.new) }
    ensures got { Gains result (K.got sink.old) bytes.now (K.got sink.new) }
    ensures cause { result ≡ Written.Lost → HasFailed (K.faults sink.old) (K.faults sink.new) }
    ensures well { result ≢ Written.Lost → K.faults sink.new ≡ K.faults sink.old }
    ensures later { K.faults sink.old ≤ K.faults sink.new }
    ensures keeps { K.keeps sink.new ≡ K.keeps sink.old }
    ensures same { K.boxed sink.new ≡ K.boxed sink.old }
    ensures empty { length bytes.now ≡ 0 → (sink.new ≡ sink.old) × (result ≡ Written.Whole) }
{
    if bytes.is_empty() {
        return Written::Whole;
    }
    write_counted(sink, bytes).0
}

/// Writes to a sink that stands in no place until all bytes are out or a call fails, and says how many went: they are
/// the first.
pub fn write_counted<K: Sink>(sink: &mut K, bytes: &[u8]) -> (Written, usize)
    ensures within { result.1 ≤ length bytes.now }
    ensures bytes { K.got sink.new ≡ after (K.got sink.old) (take result.1 bytes.now) }
    ensures writing { IsWriting result.0 result.1 (length bytes.now) }
    ensures later { K.faults sink.old ≤ K.faults sink.new }
    ensures cause { result.0 ≡ Written.Lost → HasFailed (K.faults sink.old) (K.faults sink.new) }
    ensures well { result.0 ≢ Written.Lost → K.faults sink.new ≡ K.faults sink.old }
    ensures keeps { K.keeps sink.new ≡ K.keeps sink.old }
    ensures same { K.boxed sink.new ≡ K.boxed sink.old }
{
    let mut done = 0;
    while done < bytes.len() {
        match sink.write(&bytes[done..]) {
            Ok(n) => done += n,
            Err(Failed) => return (Written::Lost, done),
        }
    }
    (Written::Whole, done)
}

/// Writes to the port of a live place until all bytes are out or a call fails, and counts them.
pub(crate) fn drain_counted<K: Sink>(port: &mut K, number: &mut u64, bytes: &[u8]) -> Written
    ensures writes { Writes result (live_out K.Sink port.old number.old) bytes.now
        (live_out K.Sink port.new number.new) }
    ensures well { result ≢ Written.Lost → K.faults port.new ≡ K.faults port.old }
{
    let (answer, written) = write_counted(port, bytes);
    *number = number.saturating_add(written as u64);
    answer
}

/// Writes lines to the port of a live place until all are out or a call fails, counts their bytes, and says how many
/// went.
pub(crate) fn lines_counted<K: Sink>(
    port: &mut K,
    number: &mut u64,
    lines: &[u8],
) -> (Written, usize)
    ensures sends { Sends (live_out K.Sink port.old number.old) (take result.1 lines.now)
        (live_out K.Sink port.new number.new) }
    ensures writing { IsWriting result.0 result.1 (length lines.now) }
    ensures cause { result.0 ≡ Written.Lost → HasFailed (K.faults port.old) (K.faults port.new) }
    ensures well { result.0 ≢ Written.Lost → K.faults port.new ≡ K.faults port.old }
{
    let (answer, written) = port.write_lines(lines);
    *number = number.saturating_add(written as u64);
    (answer, written)
}

/// Writes frames to the port of a live place until all are out or a call fails, counts their bytes, and says how many
/// went.
pub(crate) fn frames_counted<K: Sink>(
    port: &mut K,
    number: &mut u64,
    frames: &[u8],
) -> (Written, usize)
    ensures sends { Sends (live_out K.Sink port.old number.old) (take result.1 frames.now)
        (live_out K.Sink port.new number.new) }
    ensures writing { IsWriting result.0 result.1 (length frames.now) }
    ensures cause { result.0 ≡ Written.Lost → HasFailed (K.faults port.old) (K.faults port.new) }
    ensures well { result.0 ≢ Written.Lost → K.faults port.new ≡ K.faults port.old }
{
    let (answer, written) = port.write_frames(frames);
    *number = number.saturating_add(written as u64);
    (answer, written)
}
