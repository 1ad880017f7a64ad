// What the places of a node of a network hold: ports at the edge, and the ends of fibres.
ghost use Rattle.network_run.specs.EdgePorts.{edge_at_hand, edge_ended, edge_faults, edge_left, is_edge_boxed};
ghost use Rattle.network_run.specs.EdgePorts.{edge_got, edge_keeps, edge_out_faults, is_edge_out_boxed};

use crate::FibreSink;
use filled_ports::FilledSource;
use otn_base::SharedBytes;
use port_base::{Failed, Sink, Source, Written};
use std::alloc::Global;

/// What the place of an input holds: a port at the edge of the network, or the far end of a fibre. Each call on it, and
/// each of its meanings, is that of what it holds.
#[derive(Drop)]
pub enum NetIn<P> {
    Edge(P),
    Fibre(FilledSource),
}

impl<P: Source> Source for NetIn<P> {
    ghost left = { edge_left P.left };

    ghost faults = { edge_faults P.faults };

    ghost ended = { edge_ended P.ended };

    ghost boxed = { is_edge_boxed P.boxed };

    ghost at_hand = { edge_at_hand P.at_hand };

    fn read(&mut self, into: &mut [u8]) -> Result<usize, Failed> {
        match self {
            NetIn::Edge(source) => source.read(into),
            NetIn::Fibre(source) => source.read(into),
        }
    }

    fn look_ahead(&mut self, alloc: Global) {
        if let NetIn::Edge(source) = self {
            source.look_ahead(alloc);
        }
    }

    fn peek(&self) -> &[u8] {
        if let NetIn::Edge(source) = self {
            source.peek()
        } else {
            &[]
        }
    }

    fn share(&self, n: usize) -> Option<SharedBytes> {
        if let NetIn::Edge(source) = self {
            source.share(n)
        } else {
            None
        }
    }

    fn pass(&mut self, n: usize) {
        if let NetIn::Edge(source) = self {
            source.pass(n);
        }
    }
}

/// What the place of an output holds, likewise: of a fibre it is the near end, which may begin several.
#[derive(Drop)]
pub enum NetOut<K> {
    Edge(K),
    Fibre(FibreSink),
}

impl<K: Sink> Sink for NetOut<K> {
    ghost got = { edge_got K.got };

    ghost faults = { edge_out_faults K.faults };

    ghost keeps = { edge_keeps K.keeps };

    ghost boxed = { is_edge_out_boxed K.boxed };

    fn write(&mut self, bytes: &[u8]) -> Result<usize, Failed> {
        match self {
            NetOut::Edge(sink) => sink.write(bytes),
            NetOut::Fibre(sink) => sink.write(bytes),
        }
    }

    fn write_lines(&mut self, lines: &[u8]) -> (Written, usize) {
        match self {
            NetOut::Edge(sink) => sink.write_lines(lines),
            NetOut::Fibre(sink) => sink.write_lines(lines),
        }
    }

    fn write_frames(&mut self, frames: &[u8]) -> (Written, usize) {
        match self {
            NetOut::Edge(sink) => sink.write_frames(frames),
            NetOut::Fibre(sink) => sink.write_frames(frames),
        }
    }

    fn kept(&self) -> Option<&[u8]> {
        match self {
            NetOut::Edge(sink) => sink.kept(),
            NetOut::Fibre(sink) => sink.kept(),
        }
    }
}
