// What goes over a fibre, written to a sink beside it.
use network_run::{NetOut, Site};
use otn_base::limits::LINES;
use port_base::{OutPlaceOf, Sink, Source};

/// What leaves on a line output at which a fibre begins is written to the port of this place too. Where that fails, the
/// place dies: the fibre does not know of it.
#[derive(Drop)]
pub struct Recording<R> {
    node: usize,
    line: u8,
    mark: u64,
    place: OutPlaceOf<R>,
}

impl<R: Sink> Recording<R> {
    /// Of this line output of the node with this index, which got nothing yet.
    pub fn new(node: usize, line: u8, place: OutPlaceOf<R>) -> Recording<R> {
        Recording {
            node,
            line,
            mark: 0,
            place,
        }
    }

    /// Its place.
    pub fn place(&self) -> &OutPlaceOf<R> {
        &self.place
    }
}

/// Writes to each what left on its line since it was written last, and was not let go of.
pub(crate) fn record_all<P: Source, K: Sink, R: Sink>(
    recordings: &mut Vec<Recording<R>>,
    sites: &[Site<P, K>],
) {
    for recording in recordings.iter_mut() {
        record_one(recording, sites);
    }
}

fn record_one<P: Source, K: Sink, R: Sink>(recording: &mut Recording<R>, sites: &[Site<P, K>]) {
    if recording.line >= LINES as u8 {
        return;
    }
    let Some(site) = sites.get(recording.node) else {
        return;
    };
    record_place(recording, site.bays.line_out(recording.line));
}

fn record_place<K: Sink, R: Sink>(recording: &mut Recording<R>, place: &OutPlaceOf<NetOut<K>>) {
    if let OutPlaceOf::Live(NetOut::Fibre(sink), _) = place {
        if let Some(bytes) = sink.since(recording.mark) {
            let _ = recording.place.write_frames(bytes);
            recording.mark = sink.total();
        }
    }
}
