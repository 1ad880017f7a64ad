// What is known of places whose sinks have failed.
ghost use Rattle.port_base.specs.Racks.{bays_view};
ghost use Rattle.bounded_ports.specs.Full.{FailsFull};

use crate::BoundedSink;
use port_base::{Rack, Sink, Source};

/// An output place with a bounded sink that has failed is full: its sink has got as many bytes as it has room for. So
/// one to which fewer went has not failed.
pub fn full_where_failed<P: Source, const ROOM: usize>(_bays: &Rack<P, BoundedSink<ROOM>>)
    ensures { FailsFull ROOM (bays_view P.Source ⟦<BoundedSink<ROOM> as Sink>⟧ _bays.now) }
{}
