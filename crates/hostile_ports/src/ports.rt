// The ports of a run: they are in memory, fail as they are told to, and leave what they gave or got where it is found
// after their place was emptied too.
ghost use Rattle.std.specs.Prelude.{◌≡◌, ◌≤◌, ◌<◌, false, None, IfOk, length};
ghost use Rattle.hostile_ports.specs.Ports.{source_ended, source_faults, input_ended, input_faults, file_faults};

use otn_ports::{Failed, ListedSink, ListedSource, Sink, Source, Written};
use pcap_packets::{PcapSink, PcapSource};
use std::cell::{Cell, RefCell};
use std::rc::Rc;

/// How many bytes an input gave, or an output took.
pub type Count = Rc<Cell<u64>>;

/// What the file of an output got.
pub type Got = Rc<RefCell<Vec<u8>>>;

/// Bytes as they stand in a file, or the text of a capture in it.
#[derive(Drop)]
pub enum InputSource {
    Plain(ListedSource),
    Capture(PcapSource<ListedSource>),
}

impl Source for InputSource {
    ghost left = { λ _. None };

    ghost faults = { source_faults };

    ghost ended = { source_ended };

    fn read(&mut self, into: &mut [u8]) -> Result<usize, Failed> {
        match self {
            InputSource::Plain(source) => source.read(into),
            InputSource::Capture(source) => source.read(into),
        }
    }

    fn pass(&mut self, _n: usize) {}
}

/// An input.
#[derive(Drop)]
pub struct InputPort {
    source: InputSource,
    given: Count,
}

impl InputPort {
    /// Gives what this source gives, and counts it there.
    pub fn new(source: InputSource, given: Count) -> InputPort {
        InputPort { source, given }
    }
}

impl Source for InputPort {
    ghost left = { λ _. None };

    ghost faults = { input_faults };

    ghost ended = { input_ended };

    fn read(&mut self, into: &mut [u8]) -> Result<usize, Failed> {
        let answer = self.source.read(into);
        if let Ok(n) = answer {
            count(&self.given, n);
        }
        answer
    }

    fn pass(&mut self, _n: usize) {}
}

/// The file of an output. It takes what its sink takes, or all there is where it has none, and fails where there is no
/// memory.
#[derive(Drop)]
pub struct OutputFile {
    sink: Option<ListedSink>,
    got: Got,
    failed: u64,
}

impl OutputFile {
    /// Takes what this sink takes, or all there is, and keeps it there.
    pub fn new(sink: Option<ListedSink>, got: Got) -> OutputFile {
        OutputFile {
            sink,
            got,
            failed: 0,
        }
    }

    // Takes from the front of the bytes, and counts no failure.
    fn take(&mut self, bytes: &[u8]) -> Result<usize, Failed>
        ensures bound { IfOk result (λ n. n ≤ length bytes.now) }
        ensures progress { IfOk result (λ n. 0 < length bytes.now → 0 < n) }
        ensures faults { file_faults self.new ≡ file_faults self.old }
    {
        let n = match &mut self.sink {
            Some(sink) => sink.write(bytes)?,
            None => bytes.len(),
        };
        keep(&self.got, &bytes[..n])?;
        Ok(n)
    }
}

impl Sink for OutputFile {
    ghost got = { λ _. None };

    ghost faults = { file_faults };

    ghost keeps = { λ _. false };

    fn write(&mut self, bytes: &[u8]) -> Result<usize, Failed> {
        let answer = self.take(bytes);
        if answer.is_err() {
            self.failed = self.failed.saturating_add(1);
        }
        answer
    }

    fn kept(&self) -> Option<&[u8]> {
        None
    }
}

/// Bytes as they come, or the capture that they are the text of.
#[derive(Drop)]
pub enum OutputSink {
    Plain(OutputFile),
    Capture(PcapSink<OutputFile>),
}

impl Sink for OutputSink {
    ghost use Rattle.hostile_ports.specs.Outputs.{sink_faults};

    ghost got = { λ _. None };

    ghost faults = { sink_faults };

    ghost keeps = { λ _. false };

    fn write(&mut self, bytes: &[u8]) -> Result<usize, Failed> {
        match self {
            OutputSink::Plain(sink) => sink.write(bytes),
            OutputSink::Capture(sink) => sink.write(bytes),
        }
    }

    fn write_lines(&mut self, lines: &[u8]) -> (Written, usize) {
        match self {
            OutputSink::Plain(sink) => sink.write_lines(lines),
            OutputSink::Capture(sink) => sink.write_lines(lines),
        }
    }

    fn kept(&self) -> Option<&[u8]> {
        None
    }
}

/// An output.
#[derive(Drop)]
pub struct OutputPort {
    sink: OutputSink,
    sent: Count,
}

impl OutputPort {
    /// Takes what this sink takes, and counts it there.
    pub fn new(sink: OutputSink, sent: Count) -> OutputPort {
        OutputPort { sink, sent }
    }
}

impl Sink for OutputPort {
    ghost use Rattle.hostile_ports.specs.Outputs.{output_faults};

    ghost got = { λ _. None };

    ghost faults = { output_faults };

    ghost keeps = { λ _. false };

    fn write(&mut self, bytes: &[u8]) -> Result<usize, Failed> {
        let answer = self.sink.write(bytes);
        if let Ok(n) = answer {
            count(&self.sent, n);
        }
        answer
    }

    fn write_lines(&mut self, lines: &[u8]) -> (Written, usize) {
        let (answer, went) = self.sink.write_lines(lines);
        count(&self.sent, went);
        (answer, went)
    }

    fn kept(&self) -> Option<&[u8]> {
        None
    }
}

// Counts so many bytes more.
fn count(number: &Count, more: usize) {
    number.set(number.get().saturating_add(more as u64));
}

// Appends these bytes.
fn keep(got: &Got, bytes: &[u8]) -> Result<(), Failed> {
    let mut kept = got.try_borrow_mut().map_err(|_| Failed)?;
    kept.extend_from_slice(bytes).map_err(|_| Failed)
}
