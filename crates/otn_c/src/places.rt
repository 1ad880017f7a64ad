// The places of a call, in memory.
ghost use Rattle.std.specs.Prelude.{◌≡◌, ◌<◌, ℕ, IfOk, MatchOption, OnSome, length};
ghost use Rattle.port_base.specs.InPlace.{in_view};
ghost use Rattle.port_base.specs.OutPlace.{out_view};
ghost use Rattle.port_base.specs.Racks.{bays_view};
ghost use Rattle.line_tool.specs.TrialRuns.{waiting};
ghost use Rattle.otn_c.specs.Blocks.{IsNoPart};
ghost use Rattle.otn_c.specs.Places.{OpensWith, HasNoPart, LinesUpTo, ClientsUpTo, input_at};

use crate::blocks::part;
use crate::{GrowingSink, SliceSource};
use otn_base::Memory;
use otn_base::limits::{CLIENTS, LINES};
use port_base::{InPlaceOf, OutPlaceOf, Rack, Sink, Source};
use std::alloc::Global;

/// Places in memory, whose outputs grow.
pub(crate) type Places<'a> = Rack<SliceSource<'a>, GrowingSink>;

/// The places of a call with these inputs, whose flags say which are there, and with so much room for each output. None
/// where an input is no part of the block.
pub(crate) fn places_of<'a>(
    alloc: Global,
    block: &'a [u8],
    ends: &[usize],
    present: &[u8],
    rooms: &[usize],
) -> Result<Option<Places<'a>>, Memory>
    requires ends { length ends.now ≡ 20 }
    requires present { length present.now ≡ 20 }
    requires rooms { length rooms.now ≡ 20 }
    ensures opens { IfOk result (λ made. MatchOption made (HasNoPart block.now ends.now)
        (λ bays. OpensWith present.now block.now ends.now
        (bays_view ⟦<SliceSource<'static> as Source>⟧ ⟦<GrowingSink as Sink>⟧ bays))) }
    ensures parts { IfOk result (λ made. OnSome made (HasNoPart block.now ends.now → ⊥)) }
{
    let mut bays = Rack::new(alloc)?;
    let Some(()) = fill_lines(alloc, &mut bays, block, ends, present, rooms)? else {
        return Ok(None);
    };
    let Some(()) = fill_clients(alloc, &mut bays, block, ends, present, rooms)? else {
        return Ok(None);
    };
    Ok(Some(bays))
}

// Fills the places of the lines.
fn fill_lines<'a>(
    alloc: Global,
    bays: &mut Places<'a>,
    block: &'a [u8],
    ends: &[usize],
    present: &[u8],
    rooms: &[usize],
) -> Result<Option<()>, Memory>
    requires ends { length ends.now ≡ 20 }
    requires present { length present.now ≡ 20 }
    requires rooms { length rooms.now ≡ 20 }
    ensures { IfOk result (λ made. MatchOption made (HasNoPart block.now ends.now)
        (λ _. LinesUpTo present.now block.now ends.now 4
        (bays_view ⟦<SliceSource<'static> as Source>⟧ ⟦<GrowingSink as Sink>⟧ bays.old)
        (bays_view ⟦<SliceSource<'static> as Source>⟧ ⟦<GrowingSink as Sink>⟧ bays.new))) }
{
    for n in 0..LINES as u8 {
        let Some(place) = input(block, ends, present, n as usize) else {
            return Ok(None);
        };
        bays.set_line_in(n, place);
        bays.set_line_out(n, output(alloc, rooms[n as usize]));
    }
    Ok(Some(()))
}

// Fills the places of the clients.
fn fill_clients<'a>(
    alloc: Global,
    bays: &mut Places<'a>,
    block: &'a [u8],
    ends: &[usize],
    present: &[u8],
    rooms: &[usize],
) -> Result<Option<()>, Memory>
    requires ends { length ends.now ≡ 20 }
    requires present { length present.now ≡ 20 }
    requires rooms { length rooms.now ≡ 20 }
    ensures { IfOk result (λ made. MatchOption made (HasNoPart block.now ends.now)
        (λ _. ClientsUpTo present.now block.now ends.now 16
        (bays_view ⟦<SliceSource<'static> as Source>⟧ ⟦<GrowingSink as Sink>⟧ bays.old)
        (bays_view ⟦<SliceSource<'static> as Source>⟧ ⟦<GrowingSink as Sink>⟧ bays.new))) }
{
    for n in 0..CLIENTS as u8 {
        let Some(place) = input(block, ends, present, LINES + n as usize) else {
            return Ok(None);
        };
        bays.set_client_in(n, place);
        bays.set_client_out(n, output(alloc, rooms[LINES + n as usize]));
    }
    Ok(Some(()))
}

// The place of an input: empty where its flag is 0. None where it is no part of the block.
fn input<'a>(
    block: &'a [u8],
    ends: &[usize],
    present: &[u8],
    n: usize,
) -> Option<InPlaceOf<SliceSource<'a>>>
    requires ends { n < length ends.now }
    requires present { n < length present.now }
    ensures place { MatchOption result (IsNoPart block.now ends.now n)
        (λ place. in_view ⟦<SliceSource<'static> as Source>⟧ place ≡ input_at present.now block.now ends.now n) }
    ensures part { OnSome result (IsNoPart block.now ends.now n → ⊥) }
{
    let bytes = part(block, ends, n)?;
    if present[n] == 0 {
        return Some(InPlaceOf::Empty);
    }
    Some(InPlaceOf::Live(SliceSource::new(bytes), 0))
}

// The place of an output, which got nothing yet, with so much room.
fn output(alloc: Global, room: usize) -> OutPlaceOf<GrowingSink>
    ensures { out_view ⟦<GrowingSink as Sink>⟧ result ≡ waiting }
{
    OutPlaceOf::Live(GrowingSink::with(alloc, room), 0)
}
