// The ports of files: their bytes as they are, or the packets of captures.
ghost use Rattle.program_words.specs.Ports.{input_at_hand, input_ended, input_faults, input_left, is_input_boxed};
ghost use Rattle.program_words.specs.Ports.{is_output_boxed, output_faults, output_got, output_keeps};

use otn_base::SharedBytes;
use pcap_packets::{PcapSink, PcapSource};
use port_base::{Failed, Sink, Source, Written};
use std::alloc::Global;

/// What the place of an input file holds: the file as it is, or the capture that it has. Each call on it, and each of
/// its meanings, is that of what it holds.
#[derive(Drop)]
pub enum InputPort<S> {
    Plain(S),
    Capture(PcapSource<S>),
}

impl<S: Source> Source for InputPort<S> {
    ghost left = { input_left S.left };

    ghost faults = { input_faults S.faults };

    ghost ended = { input_ended S.ended };

    ghost boxed = { is_input_boxed S.boxed };

    ghost at_hand = { input_at_hand S.at_hand };

    fn read(&mut self, into: &mut [u8]) -> Result<usize, Failed> {
        match self {
            InputPort::Plain(source) => source.read(into),
            InputPort::Capture(source) => source.read(into),
        }
    }

    fn look_ahead(&mut self, alloc: Global) {
        if let InputPort::Plain(source) = self {
            source.look_ahead(alloc);
        }
    }

    fn peek(&self) -> &[u8] {
        if let InputPort::Plain(source) = self {
            source.peek()
        } else {
            &[]
        }
    }

    fn share(&self, n: usize) -> Option<SharedBytes> {
        if let InputPort::Plain(source) = self {
            source.share(n)
        } else {
            None
        }
    }

    fn pass(&mut self, n: usize) {
        if let InputPort::Plain(source) = self {
            source.pass(n);
        }
    }
}

/// What the place of an output file holds, likewise.
#[derive(Drop)]
pub enum OutputPort<S: Sink> {
    Plain(S),
    Capture(PcapSink<S>),
}

impl<S: Sink> Sink for OutputPort<S> {
    ghost got = { output_got S.got };

    ghost faults = { output_faults S.faults };

    ghost keeps = { output_keeps S.keeps };

    ghost boxed = { is_output_boxed S.boxed };

    fn write(&mut self, bytes: &[u8]) -> Result<usize, Failed> {
        match self {
            OutputPort::Plain(sink) => sink.write(bytes),
            OutputPort::Capture(sink) => sink.write(bytes),
        }
    }

    fn write_lines(&mut self, lines: &[u8]) -> (Written, usize) {
        match self {
            OutputPort::Plain(sink) => sink.write_lines(lines),
            OutputPort::Capture(sink) => sink.write_lines(lines),
        }
    }

    fn write_frames(&mut self, frames: &[u8]) -> (Written, usize) {
        match self {
            OutputPort::Plain(sink) => sink.write_frames(frames),
            OutputPort::Capture(sink) => sink.write_frames(frames),
        }
    }

    fn kept(&self) -> Option<&[u8]> {
        match self {
            OutputPort::Plain(sink) => sink.kept(),
            OutputPort::Capture(sink) => sink.kept(),
        }
    }
}
