// What the outputs of a call got, put into a block.
ghost use Rattle.std.specs.Prelude.{◌≡◌, ◌<◌, Some, IfSome, length};
ghost use Rattle.port_base.specs.OutPlace.{out_view};
ghost use Rattle.port_base.specs.Racks.{bays_view};
ghost use Rattle.otn_c.specs.Places.{IsPut, IsPutOf, OutUpTo, output_at};

use crate::blocks::put;
use crate::places::Places;
use crate::{GrowingSink, SliceSource};
use otn_base::limits::{CLIENTS, LINES};
use port_base::{OutPlaceOf, Sink, Source};

/// Inputs, and outputs, of a call.
pub(crate) const PORTS: usize = LINES + CLIENTS;

/// Puts what each output got into the block, one behind the other, as far as there is room, and where each of them
/// ends, or would end, among the ends: of a client output too whose place was retired. The answer is the last of the
/// ends; none where it is no number of this machine.
pub(crate) fn put_outputs(bays: &Places<'_>, block: &mut [u8], ends: &mut [usize]) -> Option<usize>
    requires ends { length ends.old ≡ 20 }
    ensures block { length block.new ≡ length block.old }
    ensures ends { length ends.new ≡ length ends.old }
    ensures out { IfSome result (OutUpTo 20
        (bays_view ⟦<SliceSource<'static> as Source>⟧ ⟦<GrowingSink as Sink>⟧ bays.now) block.new ends.new) }
{
    let mut total = 0;
    for n in 0..PORTS {
        let end = put_output(place_of(bays, n), block, total)?;
        ends[n] = end;
        total = end;
    }
    Some(total)
}

// The place of output n.
fn place_of<'a>(bays: &'a Places<'_>, n: usize) -> &'a OutPlaceOf<GrowingSink>
    requires { n < 20 }
    ensures { out_view ⟦<GrowingSink as Sink>⟧ result.now ≡ output_at
        (bays_view ⟦<SliceSource<'static> as Source>⟧ ⟦<GrowingSink as Sink>⟧ bays.now) n }
{
    if n < LINES {
        bays.line_out(n as u8)
    } else {
        bays.client_out((n - LINES) as u8)
    }
}

// Puts what the port of a place got behind the first `at` bytes of the block, and answers where it ends.
fn put_output(place: &OutPlaceOf<GrowingSink>, block: &mut [u8], at: usize) -> Option<usize>
    ensures length { length block.new ≡ length block.old }
    ensures put { IfSome result (IsPutOf (out_view ⟦<GrowingSink as Sink>⟧ place.now) at block.old block.new) }
{
    put_bytes(block, at, got_of(place))
}

// What the port of a place got, and nothing where the place never had a port.
fn got_of(place: &OutPlaceOf<GrowingSink>) -> &[u8]
    ensures { (out_view ⟦<GrowingSink as Sink>⟧ place.now).got ≡ Some result.now }
{
    match place.kept() {
        Some(bytes) => bytes,
        None => &[],
    }
}

// Puts bytes behind the first `at` bytes of the block, where there is room, and answers where they end, or would end.
fn put_bytes(block: &mut [u8], at: usize, bytes: &[u8]) -> Option<usize>
    ensures length { length block.new ≡ length block.old }
    ensures put { IfSome result (IsPut bytes.now at block.old block.new) }
{
    let end = at.checked_add(bytes.len())?;
    if end <= block.len() {
        put(block, at, bytes);
    }
    Some(end)
}
