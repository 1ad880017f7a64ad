// The ends of fibres at the places of a node.
ghost use Rattle.std.specs.Prelude.{◌≡◌, ◌==◌, ◌&&◌, ◌<◌, ◌≤◌, [], false, IfOk};
ghost use Rattle.std.specs.List.{list_any};
ghost use Rattle.otn_base.specs.declared.limits.TheConstants.{MOST_SLOTS};
ghost use Rattle.port_base.specs.InPlace.{in_view};
ghost use Rattle.port_base.specs.OutPlace.{out_view};
ghost use Rattle.filled_ports.specs.Filled.{filled_left, filled_ended};
ghost use Rattle.live_laws.specs.Live.{holding, telling};
ghost use Rattle.network_run.specs.Sites.{net_sink, net_source, rack_view};
ghost use Rattle.network_carry.specs.Ends.{FarEnd, FarEnds, NearEnd, NearEnds, begins_at, ends_at};

use filled_ports::{FilledSource, Handed};
use network_file::FibreEnds;
use network_run::{FibreSink, NetIn, NetOut};
use otn_base::limits::{LINE_FRAME_BYTES, LINES};
use otn_base::{Memory, PortName};
use plan_file::Plan;
use port_base::{InPlaceOf, OutPlaceOf, Rack, Sink, Source};
use std::alloc::Global;
use turn_pieces::{kind_by, uses};

/// Puts the far ends of all fibres that lead to the node with this index at its line inputs, each with room for what
/// comes in a turn. A place that stood there is dropped.
pub(crate) fn put_far_ends<P: Source, K: Sink>(
    alloc: Global,
    fibres: &[FibreEnds],
    node: usize,
    plan: &Plan,
    bays: &mut Rack<NetIn<P>, NetOut<K>>,
) -> Result<(), Memory>
    ensures { IfOk result (λ _. FarEnds fibres.now node 4 (rack_view P.Source K.Sink bays.old)
        (rack_view P.Source K.Sink bays.new)) }
{
    for c in 0..LINES as u8 {
        put_far_end(alloc, fibres, node, plan, c, bays)?;
    }
    Ok(())
}

fn put_far_end<P: Source, K: Sink>(
    alloc: Global,
    fibres: &[FibreEnds],
    node: usize,
    plan: &Plan,
    c: u8,
    bays: &mut Rack<NetIn<P>, NetOut<K>>,
) -> Result<(), Memory>
    requires few { c < 4 }
    ensures { IfOk result (λ _. FarEnd fibres.now node c (rack_view P.Source K.Sink bays.old)
        (rack_view P.Source K.Sink bays.new)) }
{
    if leads_to(fibres, node, c) {
        let end = far_end(alloc, turn_bytes(plan, PortName::LineIn(c)))?;
        bays.set_line_in(c, end);
    }
    Ok(())
}

/// Whether some fibre leads to this line input of the node with this index.
pub fn leads_to(fibres: &[FibreEnds], node: usize, c: u8) -> bool
    ensures { result ≡ list_any (ends_at node c) fibres.now }
{
    fibres
        .iter()
        .any(|f| f.to_node() == node && f.to_line() == c)
}

fn far_end<P: Source>(alloc: Global, room: usize) -> Result<InPlaceOf<NetIn<P>>, Memory>
    ensures { IfOk result (λ place. in_view (net_source P.Source) place ≡ holding []) }
{
    let source = far_source(alloc, room)?;
    Ok(InPlaceOf::Live(NetIn::Fibre(source), 0))
}

// A source that holds nothing, and has room for so many bytes: it gave as many that were handed in.
fn far_source(alloc: Global, room: usize) -> Result<FilledSource, Memory>
    ensures left { IfOk result (λ source. filled_left source ≡ []) }
    ensures ended { IfOk result (λ source. filled_ended source ≡ false) }
{
    let mut source = FilledSource::new(alloc);
    let mut bytes = zeros(alloc, room)?;
    if source.hand_in(&bytes)? == Handed::Taken {
        let _ = source.read(&mut bytes);
    }
    Ok(source)
}

fn zeros(alloc: Global, count: usize) -> Result<Vec<u8>, Memory> {
    Ok(vec![in alloc; 0; count]?)
}

/// The near end of fibres at this line output of the node of the plan, with room for what leaves in a turn.
pub fn near_end_at<K: Sink>(
    alloc: Global,
    plan: &Plan,
    b: u8,
) -> Result<OutPlaceOf<NetOut<K>>, Memory>
    ensures { IfOk result (λ place. out_view (net_sink K.Sink) place ≡ telling) }
{
    near_end(alloc, turn_bytes(plan, PortName::LineOut(b)))
}

/// Puts the near end of all fibres that begin at a line output of the node with this index there, with room for what
/// leaves in a turn. A place that stood there is dropped.
pub(crate) fn put_near_ends<P: Source, K: Sink>(
    alloc: Global,
    fibres: &[FibreEnds],
    node: usize,
    plan: &Plan,
    bays: &mut Rack<NetIn<P>, NetOut<K>>,
) -> Result<(), Memory>
    ensures { IfOk result (λ _. NearEnds fibres.now node 4 (rack_view P.Source K.Sink bays.old)
        (rack_view P.Source K.Sink bays.new)) }
{
    for b in 0..LINES as u8 {
        put_near_end(alloc, fibres, node, plan, b, bays)?;
    }
    Ok(())
}

fn put_near_end<P: Source, K: Sink>(
    alloc: Global,
    fibres: &[FibreEnds],
    node: usize,
    plan: &Plan,
    b: u8,
    bays: &mut Rack<NetIn<P>, NetOut<K>>,
) -> Result<(), Memory>
    requires few { b < 4 }
    ensures { IfOk result (λ _. NearEnd fibres.now node b (rack_view P.Source K.Sink bays.old)
        (rack_view P.Source K.Sink bays.new)) }
{
    if begins_at(fibres, node, b) {
        let end = near_end_at(alloc, plan, b)?;
        bays.set_line_out(b, end);
    }
    Ok(())
}

/// Whether some fibre begins at this line output of the node with this index.
pub fn begins_at(fibres: &[FibreEnds], node: usize, b: u8) -> bool
    ensures { result ≡ list_any (begins_at node b) fibres.now }
{
    fibres
        .iter()
        .any(|f| f.from_node() == node && f.from_line() == b)
}

/// How many bytes come or leave on a line in a turn: none where the plan does not use it.
pub fn turn_bytes(plan: &Plan, line: PortName) -> usize {
    if uses(plan, line) {
        frames_of(plan, line) * LINE_FRAME_BYTES
    } else {
        0
    }
}

// How many frames a line has in a turn.
fn frames_of(plan: &Plan, line: PortName) -> usize
    ensures { result ≤ MOST_SLOTS }
{
    match line {
        PortName::LineIn(c) => kind_by(plan.otu3_in.as_slice(), c).slots() as usize,
        PortName::LineOut(b) => kind_by(plan.otu3_out.as_slice(), b).slots() as usize,
        PortName::ClientIn(_) => 0,
        PortName::ClientOut(_) => 0,
    }
}

fn near_end<K: Sink>(alloc: Global, room: usize) -> Result<OutPlaceOf<NetOut<K>>, Memory>
    ensures { IfOk result (λ place. out_view (net_sink K.Sink) place ≡ telling) }
{
    let sink = FibreSink::with_room(alloc, room)?;
    Ok(OutPlaceOf::Live(NetOut::Fibre(sink), 0))
}
