// Ports outside a network: those at its edge, and the ends of fibres that are cut.
ghost use Rattle.network_carry.specs.Outside.{is_outside_boxed, outside_at_hand, outside_ended, outside_faults, outside_left};
ghost use Rattle.network_carry.specs.Outside.{is_outside_out_boxed, outside_got, outside_keeps, outside_out_faults};

use crate::cut_ends::{CutSink, CutSource};
use otn_base::SharedBytes;
use port_base::{Failed, Sink, Source, Written};
use std::alloc::Global;

/// What an input from outside reads: a port, or the far end of a fibre that is cut. Each call on it, and each of its
/// meanings, is that of what it holds.
#[derive(Drop)]
pub enum Outside<P> {
    Port(P),
    Cut(CutSource),
}

impl<P: Source> Source for Outside<P> {
    ghost left = { outside_left P.left };

    ghost faults = { outside_faults P.faults };

    ghost ended = { outside_ended P.ended };

    ghost boxed = { is_outside_boxed P.boxed };

    ghost at_hand = { outside_at_hand P.at_hand };

    fn read(&mut self, into: &mut [u8]) -> Result<usize, Failed> {
        match self {
            Outside::Port(source) => source.read(into),
            Outside::Cut(source) => source.read(into),
        }
    }

    fn look_ahead(&mut self, alloc: Global) {
        if let Outside::Port(source) = self {
            source.look_ahead(alloc);
        }
    }

    fn peek(&self) -> &[u8] {
        if let Outside::Port(source) = self {
            source.peek()
        } else {
            &[]
        }
    }

    fn share(&self, n: usize) -> Option<SharedBytes> {
        if let Outside::Port(source) = self {
            source.share(n)
        } else {
            None
        }
    }

    fn pass(&mut self, n: usize) {
        if let Outside::Port(source) = self {
            source.pass(n);
        }
    }
}

/// What an output to the outside writes to, likewise: a port, or the near end of a fibre that is cut.
#[derive(Drop)]
pub enum OutsideSink<K> {
    Port(K),
    Cut(CutSink),
}

impl<K: Sink> Sink for OutsideSink<K> {
    ghost got = { outside_got K.got };

    ghost faults = { outside_out_faults K.faults };

    ghost keeps = { outside_keeps K.keeps };

    ghost boxed = { is_outside_out_boxed K.boxed };

    fn write(&mut self, bytes: &[u8]) -> Result<usize, Failed> {
        match self {
            OutsideSink::Port(sink) => sink.write(bytes),
            OutsideSink::Cut(sink) => sink.write(bytes),
        }
    }

    fn write_lines(&mut self, lines: &[u8]) -> (Written, usize) {
        match self {
            OutsideSink::Port(sink) => sink.write_lines(lines),
            OutsideSink::Cut(sink) => sink.write_lines(lines),
        }
    }

    fn write_frames(&mut self, frames: &[u8]) -> (Written, usize) {
        match self {
            OutsideSink::Port(sink) => sink.write_frames(frames),
            OutsideSink::Cut(sink) => sink.write_frames(frames),
        }
    }

    fn kept(&self) -> Option<&[u8]> {
        match self {
            OutsideSink::Port(sink) => sink.kept(),
            OutsideSink::Cut(sink) => sink.kept(),
        }
    }
}
