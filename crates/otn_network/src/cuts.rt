// The ends of the fibres of a network that are cut.
use crate::files::{NodePlaces, RunSink, RunSource};
use crate::reading::Joined;
use network_carry::{Outside, OutsideSink, Recording, cut_fibre, turn_bytes};
use network_run::NetIn;
use otn_base::limits::LINES;
use otn_base::{Memory, PortName};
use port_base::{InPlaceOf, OutPlaceOf};
use std::alloc::Global;
use turn_pieces::uses;

/// Puts the far end of each fibre that is cut at its line, and adds its near end to what is recorded: what leaves on
/// the line is written to it.
pub(crate) fn put_cut_ends(
    alloc: Global,
    joined: &Joined,
    places: &mut [NodePlaces],
    recordings: &mut Vec<Recording<RunSink>>,
) -> Result<(), Memory> {
    let fibres = joined.file.fibres.as_slice();
    for i in 0..fibres.len() {
        if joined.file.cuts.is_cut(i + 1) {
            put_ends(alloc, joined, i, places, recordings)?;
        }
    }
    Ok(())
}

fn put_ends(
    alloc: Global,
    joined: &Joined,
    index: usize,
    places: &mut [NodePlaces],
    recordings: &mut Vec<Recording<RunSink>>,
) -> Result<(), Memory> {
    let Some(fibre) = joined.file.fibres.as_slice().get(index) else {
        return Ok(());
    };
    let plans = joined.plans.as_slice();
    let (Some(plan), Some(next)) = (plans.get(fibre.from_node()), plans.get(fibre.to_node())) else {
        return Ok(());
    };
    // What comes at a line that no entry reads would be kept for ever.
    if !uses(next, PortName::LineIn(fibre.to_line())) {
        return Ok(());
    }
    let room = turn_bytes(plan, PortName::LineOut(fibre.from_line()));
    let cuts = joined.file.cuts.as_slice();
    let (sink, source) = cut_fibre(alloc, cuts, index + 1, room)?;
    let place = OutPlaceOf::Live(OutsideSink::Cut(sink), 0);
    recordings.push(Recording::new(fibre.from_node(), fibre.from_line(), place))?;
    put_far(
        places,
        fibre.to_node(),
        fibre.to_line(),
        Outside::Cut(source),
    );
    Ok(())
}

fn put_far(places: &mut [NodePlaces], node: usize, line: u8, source: RunSource) {
    if line >= LINES as u8 {
        return;
    }
    if let Some(bays) = places.get_mut(node) {
        bays.set_line_in(line, InPlaceOf::Live(NetIn::Edge(source), 0));
    }
}
