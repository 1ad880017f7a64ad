// The places of a run, filled with what the files of the folder say.
use crate::listing::{Fate, Port, fate_of};
use crate::ports::{InputPort, InputSource, OutputFile, OutputPort, OutputSink};
use crate::traces::Traces;
use otn_base::Memory;
use otn_base::limits::{CLIENTS, LINE_FRAME_BYTES, LINES, MOST_DELIVERED};
use otn_ports::{InPlaceOf, ListedSink, ListedSource, OutPlaceOf, Rack};
use pcap_packets::{PcapSink, PcapSource};
use std::alloc::{AllocError, Global};
use std::io::ErrorKind;
use std::{fs, io};

/// All places of a run.
pub type Places = Rack<InputPort, OutputPort>;

/// Bytes of text that are written at once at most: a packet in hex, and its line's end.
pub const MOST_TEXT: usize = 2 * MOST_DELIVERED + 1;

/// All places. An input is empty where it has no file; each output is live. With captures a client's input is one where
/// it has no file of lines, and each client's output is one.
pub fn fill(
    rt: &HostRuntime,
    fates: &[Fate],
    captures: bool,
    lines: &mut Traces,
    clients: &mut Traces,
) -> io::Result<Places> {
    let alloc = rt.alloc();
    let mut places = Rack::new(alloc).map_err(no_memory)?;
    for n in 0..LINES as u8 {
        let path = format!(in alloc; "line-{n}.in")?;
        let fate = fate_of(fates, Port::LineIn(n));
        let source = plain_file(rt, &path, fate)?;
        places.set_line_in(n, input(alloc, source, lines)?);
        let fate = fate_of(fates, Port::LineOut(n));
        places.set_line_out(n, output(alloc, fate, LINE_FRAME_BYTES, false, lines)?);
    }
    for n in 0..CLIENTS as u8 {
        let fate = fate_of(fates, Port::ClientIn(n));
        let source = client_file(rt, n, fate, captures)?;
        places.set_client_in(n, input(alloc, source, clients)?);
        let fate = fate_of(fates, Port::ClientOut(n));
        places.set_client_out(n, output(alloc, fate, MOST_TEXT, captures, clients)?);
    }
    Ok(places)
}

// The next input, which gives what this source gives. It is empty where there is none.
fn input(
    alloc: Global,
    source: Option<InputSource>,
    traces: &mut Traces,
) -> io::Result<InPlaceOf<InputPort>> {
    let given = traces.next_given(alloc)?;
    Ok(match source {
        Some(source) => InPlaceOf::Live(InputPort::new(source, given), 0),
        None => InPlaceOf::Empty,
    })
}

// What a client's input reads: its lines, or else its capture.
fn client_file(
    rt: &HostRuntime,
    n: u8,
    fate: Option<&Fate>,
    captures: bool,
) -> io::Result<Option<InputSource>> {
    let alloc = rt.alloc();
    let lines = plain_file(rt, &format!(in alloc; "client-{n:02}.in")?, fate)?;
    if lines.is_some() || !captures {
        return Ok(lines);
    }
    match listed_file(rt, &format!(in alloc; "client-{n:02}.pcap")?, fate)? {
        Some(file) => {
            let capture = PcapSource::new(alloc, file).map_err(no_memory)?;
            Ok(Some(InputSource::Capture(capture)))
        }
        None => Ok(None),
    }
}

// What an input reads that has this file, if that is there.
fn plain_file(
    rt: &HostRuntime,
    path: &String,
    fate: Option<&Fate>,
) -> io::Result<Option<InputSource>> {
    Ok(listed_file(rt, path, fate)?.map(|file| InputSource::Plain(file)))
}

// A source of the bytes of a file, with this fate, if it is there.
fn listed_file(
    rt: &HostRuntime,
    path: &String,
    fate: Option<&Fate>,
) -> io::Result<Option<ListedSource>> {
    match fs::read(rt, path.as_str()) {
        Ok(bytes) => Ok(Some(source(rt.alloc(), bytes, fate)?)),
        Err(error) if error.kind() == ErrorKind::NotFound => Ok(None),
        Err(error) => Err(error),
    }
}

// The next output, to which so many bytes are written at once at most. Its file is a capture, or not.
fn output(
    alloc: Global,
    fate: Option<&Fate>,
    most: usize,
    capture: bool,
    traces: &mut Traces,
) -> io::Result<OutPlaceOf<OutputPort>> {
    let sink = sink(alloc, fate, most)?;
    let file = OutputFile::new(sink, traces.next_got(alloc)?);
    let sink = if capture {
        OutputSink::Capture(PcapSink::new(alloc, file).map_err(no_memory)?)
    } else {
        OutputSink::Plain(file)
    };
    Ok(OutPlaceOf::Live(OutputPort::new(sink, traces.next_sent(alloc)?), 0))
}

/// A source of these bytes, with this fate.
pub fn source(
    alloc: Global,
    bytes: Vec<u8>,
    fate: Option<&Fate>,
) -> Result<ListedSource, AllocError> {
    match fate {
        Some(fate) => {
            let most = fate.most.unwrap_or(usize::MAX).max(1);
            Ok(ListedSource::new(bytes, fate.failing.clone()?, most))
        }
        None => Ok(ListedSource::new(bytes, Vec::new(alloc), usize::MAX)),
    }
}

/// A sink with this fate, to which so many bytes are written at once at most. Its room is the listed one, or else
/// enough up to the first call that fails, the last one that is made. None where nothing is listed.
pub fn sink(alloc: Global, fate: Option<&Fate>, most: usize) -> io::Result<Option<ListedSink>> {
    let Some(fate) = fate else {
        return Ok(None);
    };
    let room = match (fate.room, first_failing(&fate.failing)) {
        (Some(room), _) => room,
        (None, Some(call)) => most.saturating_mul(call as usize),
        (None, None) => return Ok(None),
    };
    let sink = ListedSink::with_room(alloc, room, fate.failing.clone()?).map_err(no_memory)?;
    Ok(Some(sink))
}

// The least of these numbers.
fn first_failing(failing: &[u32]) -> Option<u32> {
    let mut first = None;
    for &call in failing {
        first = Some(call.min(first.unwrap_or(call)));
    }
    first
}

// Want of memory as an error of the system.
fn no_memory(_memory: Memory) -> io::Error {
    io::Error::from(ErrorKind::OutOfMemory)
}
