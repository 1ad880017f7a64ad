// Rows taken apart into slots and put together, over a row of 3,808 bytes that changes a little each time.
ghost use Rattle.std.specs.Prelude.{◌≡◌, ◌⊎◌, IfOk, length, vec_len};
ghost use Rattle.otn_base.specs.SlotList.{IsSlotList};
ghost use Rattle.lane_kernels.specs.SlotPlaces.{IsSlotCount};

use lane_kernels::{
    SlotRows, join, parity, put_slot, put_slots, split, take_slot, take_slots, xor_mask,
};
use otn_base::limits::{OTU2_SLOTS, OTU3_SLOTS, PAYLOAD_COLUMNS};
use otn_base::{LineKind, Memory, Slots};
use std::alloc::Global;

// Cycles of a row of an OTU2 and of an OTU3, and every eighth slot of an OTU3.
const CYCLES: usize = PAYLOAD_COLUMNS / OTU2_SLOTS;

const OTU3_CYCLES: usize = PAYLOAD_COLUMNS / OTU3_SLOTS;

const EVERY_EIGHTH: [u8; 4] = [8, 16, 24, 32];

/// Takes a row apart so many times.
pub(crate) fn split_rows<const SLOTS: usize>(alloc: Global, times: u32) -> Result<u32, Memory>
    requires { IsSlotCount SLOTS }
{
    let mut rows = SlotRows::<SLOTS>::new(alloc)?;
    let mut row = row_of(alloc, PAYLOAD_COLUMNS)?;
    for turn in 0..times {
        touch(&mut row, turn);
        split(&row, &mut rows);
    }
    Ok(sum(rows.slot(1)))
}

/// Puts a row together so many times.
pub(crate) fn join_rows<const SLOTS: usize>(alloc: Global, times: u32) -> Result<u32, Memory>
    requires { IsSlotCount SLOTS }
{
    let mut rows = SlotRows::<SLOTS>::new(alloc)?;
    let mut row = row_of(alloc, PAYLOAD_COLUMNS)?;
    split(&row, &mut rows);
    for turn in 0..times {
        touch(rows.slot_mut(1), turn);
        join(&rows, &mut row);
    }
    Ok(sum(&row))
}

/// Takes slot 3 out of a row so many times.
pub(crate) fn take_rows<const SLOTS: usize>(alloc: Global, times: u32) -> Result<u32, Memory>
    requires { IsSlotCount SLOTS }
{
    let mut row = row_of(alloc, PAYLOAD_COLUMNS)?;
    let mut bytes = row_of(alloc, PAYLOAD_COLUMNS / SLOTS)?;
    for turn in 0..times {
        touch(&mut row, turn);
        take_slot::<SLOTS>(&row, 3, &mut bytes);
    }
    Ok(sum(&bytes))
}

/// Puts slot 3 into a row so many times.
pub(crate) fn put_rows<const SLOTS: usize>(alloc: Global, times: u32) -> Result<u32, Memory>
    requires { IsSlotCount SLOTS }
{
    let mut row = row_of(alloc, PAYLOAD_COLUMNS)?;
    let mut bytes = row_of(alloc, PAYLOAD_COLUMNS / SLOTS)?;
    for turn in 0..times {
        touch(&mut bytes, turn);
        put_slot::<SLOTS>(&bytes, 3, &mut row);
    }
    Ok(sum(&row))
}

/// Takes these slots of an OTU2 out of a row so many times.
pub(crate) fn take_several(alloc: Global, slots: &Slots, times: u32) -> Result<u32, Memory> {
    match slots.kind() {
        LineKind::Otu2 => take_list(alloc, slots.as_slice(), times),
        LineKind::Otu3 => Ok(0),
    }
}

fn take_list(alloc: Global, slots: &[u8], times: u32) -> Result<u32, Memory>
    requires { IsSlotList OTU2_SLOTS slots.now }
{
    let mut row = row_of(alloc, PAYLOAD_COLUMNS)?;
    let mut bytes = row_of(alloc, slots.len() * CYCLES)?;
    for turn in 0..times {
        touch(&mut row, turn);
        take_slots::<OTU2_SLOTS>(&row, CYCLES, slots, &mut bytes);
    }
    Ok(sum(&bytes))
}

/// Puts these slots of an OTU2 into a row so many times.
pub(crate) fn put_several(alloc: Global, slots: &Slots, times: u32) -> Result<u32, Memory> {
    match slots.kind() {
        LineKind::Otu2 => put_list(alloc, slots.as_slice(), times),
        LineKind::Otu3 => Ok(0),
    }
}

fn put_list(alloc: Global, slots: &[u8], times: u32) -> Result<u32, Memory>
    requires { IsSlotList OTU2_SLOTS slots.now }
{
    let mut row = row_of(alloc, PAYLOAD_COLUMNS)?;
    let mut bytes = row_of(alloc, slots.len() * CYCLES)?;
    for turn in 0..times {
        touch(&mut bytes, turn);
        put_slots::<OTU2_SLOTS>(&bytes, CYCLES, slots, &mut row);
    }
    Ok(sum(&row))
}

/// Takes every eighth slot of 32 out of a row so many times.
pub(crate) fn take_of_thirty_two(alloc: Global, times: u32) -> Result<u32, Memory> {
    let mut row = row_of(alloc, PAYLOAD_COLUMNS)?;
    let mut bytes = row_of(alloc, EVERY_EIGHTH.len() * OTU3_CYCLES)?;
    for turn in 0..times {
        touch(&mut row, turn);
        take_slots::<OTU3_SLOTS>(&row, OTU3_CYCLES, &EVERY_EIGHTH, &mut bytes);
    }
    Ok(sum(&bytes))
}

/// Puts every eighth slot of 32 into a row so many times.
pub(crate) fn put_of_thirty_two(alloc: Global, times: u32) -> Result<u32, Memory> {
    let mut row = row_of(alloc, PAYLOAD_COLUMNS)?;
    let mut bytes = row_of(alloc, EVERY_EIGHTH.len() * OTU3_CYCLES)?;
    for turn in 0..times {
        touch(&mut bytes, turn);
        put_slots::<OTU3_SLOTS>(&bytes, OTU3_CYCLES, &EVERY_EIGHTH, &mut row);
    }
    Ok(sum(&row))
}

/// The parity of so many bytes, so many times.
pub(crate) fn parities(alloc: Global, count: u32, times: u32) -> Result<u32, Memory> {
    let mut bytes = row_of(alloc, count as usize)?;
    let mut mix = 0u32;
    for turn in 0..times {
        touch(&mut bytes, turn);
        mix = mix.wrapping_mul(31).wrapping_add(parity(&bytes) as u32);
    }
    Ok(mix)
}

/// Masks so many bytes so many times.
pub(crate) fn masked(alloc: Global, count: u32, times: u32) -> Result<u32, Memory> {
    let mut bytes = row_of(alloc, count as usize)?;
    let mut mask = row_of(alloc, count as usize)?;
    mask_often(&mut bytes, &mut mask, times);
    Ok(sum(&bytes))
}

fn mask_often(bytes: &mut [u8], mask: &mut [u8], times: u32)
    requires { length mask.old ≡ length bytes.old }
{
    for turn in 0..times {
        touch(mask, turn);
        xor_mask(bytes, mask);
    }
}

// Bytes that differ.
fn row_of(alloc: Global, count: usize) -> Result<Vec<u8>, Memory>
    ensures { IfOk result (λ row. vec_len row ≡ count) }
{
    let mut row = vec![in alloc; 0u8; count]?;
    for (i, byte) in row.iter_mut().enumerate() {
        *byte = (i % 251) as u8;
    }
    Ok(row)
}

fn touch(bytes: &mut [u8], turn: u32) {
    if let Some(byte) = bytes.first_mut() {
        *byte = (turn % 256) as u8;
    }
}

// A checksum of all bytes.
fn sum(bytes: &[u8]) -> u32 {
    let mut mix = 0u32;
    for byte in bytes {
        mix = mix.wrapping_mul(31).wrapping_add(*byte as u32);
    }
    mix
}
