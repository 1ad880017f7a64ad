// The tributary sink, over a steady line.
ghost use Rattle.std.specs.Prelude.{◌≡◌, ◌+◌, ◌*◌, ◌≤◌, IfOk, IfSome, length, vec_len};
ghost use Rattle.otn_base.specs.declared.limits.TheConstants.{GROUPS};

use frame_geometry::Frame;
use otn_base::limits::{GROUPS, LINE_COLUMNS};
use otn_base::{LineKind, Memory, Slots};
use std::alloc::Global;
use trib_sink::TribSink;

const SLOT_NUMBERS: [u8; 8] = [1, 2, 3, 4, 5, 6, 7, 8];

/// Hands so many turns of a steady line to a sink of the first `count` slots, and sums up what it emits.
pub(crate) fn take(alloc: Global, count: usize, turns: u32) -> Result<u32, Memory> {
    let Some(slots) = first_slots(count) else {
        return Ok(0);
    };
    let frame = steady_frame(alloc)?;
    let mut sink = TribSink::new(alloc, &slots, 1)?;
    let mut into = room_for(alloc, &slots)?;
    let mut checksum = 0u32;
    for turn in 0..turns {
        checksum = checksum.wrapping_add(take_turn(&mut sink, &frame, turn, &mut into));
    }
    Ok(checksum)
}

/// The first slots of a line, None where there are not so many.
pub(crate) fn first_slots(count: usize) -> Option<Slots>
    ensures { IfSome result (λ slots. slots.kind ≡ LineKind.Otu2) }
{
    Slots::new(SLOT_NUMBERS.get(..count)?, LineKind::Otu2)
}

// Room for what a turn may emit.
fn room_for(alloc: Global, slots: &Slots) -> Result<Vec<u8>, Memory>
    ensures { IfOk result (λ into. vec_len into ≡ length slots.now.list * (GROUPS + 1)) }
{
    Ok(vec![in alloc; 0; slots.count() as usize * (GROUPS + 1)]?)
}

// A frame of a line on which every slot is of tributary port 1 and says 15,168 data groups in each
// multiframe, with no byte left over.
fn steady_frame(alloc: Global) -> Result<Frame<LINE_COLUMNS>, Memory> {
    let mut frame = Frame::new(alloc)?;
    for row in 1..5_u32 {
        for column in 17..3825_u32 {
            frame.set(row, column, ((row + column) % 251) as u8);
        }
    }
    frame.set(1, 16, 0xED);
    frame.set(2, 16, 0x03);
    frame.set(3, 16, 0x2E);
    frame.set(4, 15, 0x80);
    Ok(frame)
}

// One turn of eight such frames: a sum over how many bytes it emits, and the first of them.
fn take_turn(sink: &mut TribSink, frame: &Frame<LINE_COLUMNS>, turn: u32, into: &mut [u8]) -> u32
    requires fresh { sink.old.taken ≡ 0 }
    requires kind { sink.old.slots.kind ≡ LineKind.Otu2 }
    requires room { length sink.old.slots.list * (GROUPS + 1) ≤ length into.old }
    ensures fresh { sink.new.taken ≡ 0 }
    ensures slots { sink.new.slots ≡ sink.old.slots }
{
    for n in 0..8_u8 {
        let expected = (turn % 32 * 8) as u8 + n;
        sink.take_frame(n, frame, expected);
    }
    let emitted = sink.end_turn(true, into);
    let first = into.first().copied().unwrap_or(0);
    let count = (emitted % 65_536) as u32;
    count.wrapping_mul(256).wrapping_add(u32::from(first))
}
