// Worked rows, in which byte x is x mod 251, and the same bytes one by one.
ghost use Rattle.std.specs.Prelude.{IfOk, vec_len, ◌≡◌};
ghost use Rattle.lane_kernels.specs.SlotPlaces.{IsSlotCount};

use lane_kernels::{
    SlotRows, join, join8, parity, put_slot, put_slots, split, split8, take_slot, take_slots,
    xor_mask,
};
use otn_base::{LineKind, Memory, Slots};
use std::alloc::Global;
use std::test::Fail;

const OF_THIRTY_TWO: [u8; 4] = [2, 16, 17, 32];

fn numbered(alloc: Global, count: usize) -> Result<Vec<u8>, Memory>
    ensures { IfOk result (λ row. vec_len row ≡ count) }
{
    let mut row = vec![in alloc; 0u8; count]?;
    for (x, byte) in row.iter_mut().enumerate() {
        *byte = (x % 251) as u8;
    }
    Ok(row)
}

// How many bytes of a row do not stand in the slots one by one.
fn misplaced<const SLOTS: usize>(row: &[u8], rows: &SlotRows<SLOTS>) -> usize
    requires { IsSlotCount SLOTS }
{
    let mut wrong = 0usize;
    for (x, byte) in row.iter().enumerate() {
        let slot = rows.slot((x % SLOTS) as u8 + 1);
        if slot.get(x / SLOTS) != Some(byte) {
            wrong = wrong.saturating_add(1);
        }
    }
    wrong
}

#[test]
fn thirty_two_slots(rt: HostRuntime) -> Result<(), Fail> {
    let row = numbered(rt.alloc(), 3808)?;
    let mut rows = SlotRows::<32>::new(rt.alloc())?;
    split(&row, &mut rows);
    assert_eq!(rt; rows.slot(32).get(118).copied(), Some(42));
    assert_eq!(rt; misplaced(&row, &rows), 0);
    let mut joined = numbered(rt.alloc(), 3808)?;
    joined.fill(0);
    join(&rows, &mut joined);
    assert_eq!(rt; joined.as_slice(), row.as_slice());
    Ok(())
}

#[test]
fn eight_slots(rt: HostRuntime) -> Result<(), Fail> {
    let row = numbered(rt.alloc(), 3808)?;
    let mut rows = SlotRows::<8>::new(rt.alloc())?;
    split8(&row, &mut rows);
    assert_eq!(rt; misplaced(&row, &rows), 0);
    let mut joined = numbered(rt.alloc(), 3808)?;
    joined.fill(0);
    join8(&rows, &mut joined);
    assert_eq!(rt; joined.as_slice(), row.as_slice());
    let mut third = [0u8; 476];
    take_slot::<8>(&row, 3, &mut third);
    assert_eq!(rt; third.as_slice(), rows.slot(3));
    joined.fill(0);
    put_slot::<8>(&third, 3, &mut joined);
    assert_eq!(rt; joined.get(3802).copied(), row.get(3802).copied());
    assert_eq!(rt; joined.get(3803).copied(), Some(0));
    Ok(())
}

#[test]
fn several_of_eight(rt: HostRuntime) -> Result<(), Fail> {
    let row = numbered(rt.alloc(), 3808)?;
    let slots = Slots::new(&[1, 3, 8], LineKind::Otu2).ok_or("three slots that rise")?;
    if slots.count() != 3 {
        return Ok(());
    }
    let mut bytes = numbered(rt.alloc(), 1428)?;
    take_slots::<8>(&row, 476, slots.as_slice(), &mut bytes);
    for (i, expected) in [
        (0usize, 0u8),
        (1, 2),
        (2, 7),
        (3, 8),
        (1425, 35),
        (1427, 42),
    ] {
        assert_eq!(rt; bytes.get(i).copied(), Some(expected), "byte {i}");
    }
    let mut back = numbered(rt.alloc(), 3808)?;
    back.fill(255);
    put_slots::<8>(&bytes, 476, slots.as_slice(), &mut back);
    for (x, expected) in [
        (0usize, 0u8),
        (1, 255),
        (2, 2),
        (7, 7),
        (3800, 35),
        (3807, 42),
    ] {
        assert_eq!(rt; back.get(x).copied(), Some(expected), "byte {x}");
    }
    Ok(())
}

#[test]
fn several_of_thirty_two(rt: HostRuntime) -> Result<(), Fail> {
    let row = numbered(rt.alloc(), 3808)?;
    let mut bytes = numbered(rt.alloc(), 476)?;
    take_slots::<32>(&row, 119, &OF_THIRTY_TWO, &mut bytes);
    for (i, expected) in [
        (0usize, 1u8),
        (1, 15),
        (2, 16),
        (3, 31),
        (4, 33),
        (474, 27),
        (475, 42),
    ] {
        assert_eq!(rt; bytes.get(i).copied(), Some(expected), "byte {i}");
    }
    let mut back = numbered(rt.alloc(), 3808)?;
    back.fill(255);
    put_slots::<32>(&bytes, 119, &OF_THIRTY_TWO, &mut back);
    for (x, expected) in [
        (0usize, 255u8),
        (1, 1),
        (15, 15),
        (16, 16),
        (17, 255),
        (3807, 42),
    ] {
        assert_eq!(rt; back.get(x).copied(), Some(expected), "byte {x}");
    }
    Ok(())
}

#[test]
fn sums_and_masks(rt: HostRuntime) -> Result<(), Fail> {
    let mut bytes = numbered(rt.alloc(), 200)?;
    let mask = numbered(rt.alloc(), 200)?;
    let mut sum = 0u8;
    for byte in bytes.as_slice() {
        sum ^= *byte;
    }
    assert_eq!(rt; parity(&bytes), sum);
    xor_mask(&mut bytes, &mask);
    assert_eq!(rt; bytes.iter().all(|byte| *byte == 0), true);
    Ok(())
}
