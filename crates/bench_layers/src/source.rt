// The tributary source, at a steady rate.
ghost use Rattle.std.specs.Prelude.{◌≡◌, ◌*◌, IfOk, length, vec_len};
ghost use Rattle.otn_base.specs.declared.limits.TheConstants.{NOMINAL};

use crate::sink::first_slots;
use frame_geometry::Frame;
use otn_base::limits::{LINE_COLUMNS, NOMINAL};
use otn_base::{LineKind, Memory, Slots};
use std::alloc::Global;
use trib_source::TribSource;

/// Has a source of the first `count` slots fill the frames of so many turns, each with the bytes of an ODU0
/// at its nominal rate for each slot, and sums up what it fills.
pub(crate) fn put(alloc: Global, count: usize, turns: u32) -> Result<u32, Memory> {
    let Some(slots) = first_slots(count) else {
        return Ok(0);
    };
    let bytes = nominal_bytes(alloc, &slots)?;
    let mut frame = Frame::new(alloc)?;
    let mut source = TribSource::new(alloc, &slots)?;
    let mut checksum = 0u32;
    for _turn in 0..turns {
        checksum = checksum.wrapping_add(put_turn(&mut source, &bytes, &mut frame));
    }
    Ok(checksum)
}

// What an ODU0 for each of the slots has in a multiframe.
fn nominal_bytes(alloc: Global, slots: &Slots) -> Result<Vec<u8>, Memory>
    ensures { IfOk result (λ bytes. vec_len bytes ≡ length slots.now.list * NOMINAL) }
{
    let mut bytes = vec![in alloc; 0; slots.count() as usize * NOMINAL]?;
    for (i, byte) in bytes.iter_mut().enumerate() {
        *byte = (i % 251) as u8;
    }
    Ok(bytes)
}

// One turn of eight frames: a sum over a byte of each.
fn put_turn(source: &mut TribSource, bytes: &[u8], frame: &mut Frame<LINE_COLUMNS>) -> u32
    requires cnd { source.old.cnd ≡ 0 }
    requires kind { source.old.slots.kind ≡ LineKind.Otu2 }
    requires size { length bytes.now ≡ length source.old.slots.list * NOMINAL }
    ensures cnd { source.new.cnd ≡ 0 }
    ensures slots { source.new.slots ≡ source.old.slots }
{
    source.begin_turn(bytes);
    let mut sum = 0u32;
    for n in 0..8_u8 {
        source.fill(n, frame);
        sum = sum
            .wrapping_mul(31)
            .wrapping_add(u32::from(frame.get(4, 33)));
    }
    sum
}
