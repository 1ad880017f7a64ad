// Worked values: where the payload byte in column c is (c - 17) mod 256.
ghost use Rattle.std.specs.Prelude.{◌≡◌, ◌≤◌, IfOk, vec_len};

use frame_geometry::Frame;
use frame_overhead::payload_parity;
use odtu_columns::{FillFrame, SlotFrame, group, message, put_row_groups, row_groups, slot_row};
use otn_base::{LineKind, Memory, Slots};
use std::alloc::Global;
use std::test::Fail;

// Every payload byte of a row says its column.
fn number_columns(frame: &mut Frame<4080>, row: u32)
    requires row_low { 1 ≤ row }
    requires row_high { row ≤ 4 }
{
    for (i, byte) in frame.payload_row_mut(row).iter_mut().enumerate() {
        *byte = (i % 256) as u8;
    }
}

// The slots of this list on a line of this kind.
fn slots_on(kind: LineKind, list: &[u8]) -> Result<Slots, Fail>
    ensures { IfOk result (λ slots. slots ≡ record { kind = kind; list = list.now }) }
{
    match Slots::new(list, kind) {
        Some(slots) => Ok(slots),
        None => Err(Fail::from("no slots that rise")),
    }
}

// So many bytes of one value.
fn filled(alloc: Global, count: usize, byte: u8) -> Result<Vec<u8>, Memory>
    ensures { IfOk result (λ v. vec_len v ≡ count) }
{
    Ok(vec![in alloc; byte; count]?)
}

// The first of these places where another byte is than is told here, counted from 1, or 0 where there is none.
fn first_unlike(bytes: &[u8], told: &[(usize, u8)]) -> usize {
    let mut n = 0usize;
    for (place, byte) in told {
        n = n.saturating_add(1);
        if bytes.get(*place) != Some(byte) {
            return n;
        }
    }
    0
}

// The same of the places of a frame, by row and column.
fn first_unlike_in(frame: &Frame<4080>, told: &[(u32, u32, u8)]) -> usize {
    let mut n = 0usize;
    for (row, col, byte) in told {
        n = n.saturating_add(1);
        let there = frame.get((*row).clamp(1, 4), (*col).clamp(1, 4080));
        if there != *byte {
            return n;
        }
    }
    0
}

const SLOT_17: [(usize, u8); 10] = [
    (0, 0x10),
    (1, 0x30),
    (2, 0x50),
    (3, 0x70),
    (4, 0x90),
    (5, 0xB0),
    (6, 0xD0),
    (7, 0xF0),
    (8, 0x10),
    (118, 0xD0),
];

#[test]
fn slot_seventeen_of_32(rt: HostRuntime) -> Result<(), Fail> {
    let mut frame = Frame::<4080>::new(rt.alloc())?;
    number_columns(&mut frame, 1);
    let mut bytes = filled(rt.alloc(), 119, 255)?;
    slot_row(&frame, LineKind::Otu3, 17, 1, &mut bytes);
    assert_eq!(rt; first_unlike(&bytes, &SLOT_17), 0);
    Ok(())
}

const ROW_OF_THREE: [(usize, u8); 6] = [
    (0, 0x00),
    (1, 0x02),
    (2, 0x07),
    (3, 0x08),
    (1425, 0xD8),
    (1427, 0xDF),
];

#[test]
fn groups_of_three_slots(rt: HostRuntime) -> Result<(), Fail> {
    let mut frame = Frame::<4080>::new(rt.alloc())?;
    number_columns(&mut frame, 1);
    number_columns(&mut frame, 4);
    let slots = slots_on(LineKind::Otu2, &[1, 3, 8])?;
    let mut bytes = [255u8; 3];
    for (g, expected) in [
        (1u32, [0x00u8, 0x02, 0x07]),
        (33, [0x00, 0x02, 0x07]),
        (476, [0xD8, 0xDA, 0xDF]),
        (477, [0, 0, 0]),
        (1430, [0x08, 0x0A, 0x0F]),
        (1904, [0xD8, 0xDA, 0xDF]),
    ] {
        group(&frame, g, &slots, &mut bytes);
        assert_eq!(rt; bytes, expected, "group {g}");
    }
    let mut row = filled(rt.alloc(), 1428, 255)?;
    row_groups(&frame, 4, &slots, &mut row);
    assert_eq!(rt; first_unlike(&row, &ROW_OF_THREE), 0);
    Ok(())
}

const ROW_OF_TWO: [(u32, u32, u8); 6] = [
    (2, 17, 0x00),
    (2, 48, 0x1F),
    (2, 49, 0x20),
    (2, 50, 0),
    (2, 3793, 0xC0),
    (2, 3824, 0xDF),
];

#[test]
fn groups_of_two_slots_of_32(rt: HostRuntime) -> Result<(), Fail> {
    let mut frame = Frame::<4080>::new(rt.alloc())?;
    number_columns(&mut frame, 4);
    let slots = slots_on(LineKind::Otu3, &[1, 32])?;
    let mut bytes = [255u8; 2];
    for (g, expected) in [(357u32, [0u8, 0]), (358, [0x00, 0x1F]), (476, [0xC0, 0xDF])] {
        group(&frame, g, &slots, &mut bytes);
        assert_eq!(rt; bytes, expected, "group {g}");
    }
    let mut row = filled(rt.alloc(), 238, 255)?;
    row_groups(&frame, 4, &slots, &mut row);
    frame.clear();
    put_row_groups(&mut frame, 2, &slots, &row);
    assert_eq!(rt; first_unlike_in(&frame, &ROW_OF_TWO), 0);
    Ok(())
}

#[test]
fn message_columns(rt: HostRuntime) -> Result<(), Fail> {
    let mut frame = Frame::<4080>::new(rt.alloc())?;
    for (row, col, byte) in [
        (1, 16, 0xED),
        (2, 16, 0x03),
        (3, 16, 0x2E),
        (1, 15, 4),
        (2, 15, 5),
        (3, 15, 6),
        (4, 15, 7),
        (4, 16, 8),
    ] {
        frame.set(row, col, byte);
    }
    assert_eq!(rt; message(&frame), [0xED, 0x03, 0x2E, 4, 5, 6]);
    Ok(())
}

// Puts a byte into all groups of a row for some slots of an OTU2, and a message that begins with the row's number.
fn fill_slots<F: FillFrame>(
    frame: &mut F,
    alloc: Global,
    row: u32,
    list: &[u8],
    byte: u8,
) -> Result<(), Fail>
    requires row_low { 1 ≤ row }
    requires row_high { row ≤ 4 }
{
    let slots = slots_on(LineKind::Otu2, list)?;
    let groups = filled(alloc, slots.count() as usize * 476, byte)?;
    frame.fill_row_groups(row, &slots, &groups);
    frame.fill_message([row as u8, 2, 3, 4, 5, 6]);
    Ok(())
}

// Fills a frame by one slot after the other, of which slot 5 is put by none, and then by two at once.
fn fill_one_by_one<F: FillFrame>(frame: &mut F, alloc: Global) -> Result<(), Fail> {
    for row in 1..5u32 {
        for slot in [7u8, 1, 2, 3, 4, 6, 8] {
            let byte = slot.wrapping_mul(16).wrapping_add(row as u8);
            fill_slots(frame, alloc, row, &[slot], byte)?;
        }
    }
    fill_slots(frame, alloc, 3, &[2, 5], 9)
}

// A frame that is filled so.
fn filled_frame(alloc: Global) -> Result<Frame<4080>, Fail> {
    let mut frame = Frame::<4080>::new(alloc)?;
    fill_one_by_one(&mut frame, alloc)?;
    Ok(frame)
}

// A frame kept by slots that is filled so.
fn filled_slots(alloc: Global) -> Result<SlotFrame, Fail> {
    let mut by_slots = SlotFrame::new(alloc)?;
    fill_one_by_one(&mut by_slots, alloc)?;
    Ok(by_slots)
}

fn is_same(one: &Frame<4080>, other: &Frame<4080>) -> bool {
    one.as_bytes() == other.as_bytes()
}

fn is_clear(frame: &Frame<4080>) -> bool {
    frame.as_bytes().iter().all(|byte| *byte == 0)
}

const JOINED: [(u32, u32, u8); 5] = [
    (1, 17, 0x11),
    (4, 24, 0x84),
    (2, 21, 0),
    (3, 21, 9),
    (2, 16, 2),
];

#[test]
fn slots_one_after_another(rt: HostRuntime) -> Result<(), Fail> {
    let frame = filled_frame(rt.alloc())?;
    let mut by_slots = filled_slots(rt.alloc())?;
    let mut joined = Frame::<4080>::new(rt.alloc())?;
    let payload = by_slots.join_into(&mut joined);
    assert_eq!(rt;
        (
            is_same(&joined, &frame),
            first_unlike_in(&joined, &JOINED),
            payload
        ),
        (true, 0, payload_parity(&frame))
    );
    by_slots.clear();
    let payload = by_slots.join_into(&mut joined);
    assert_eq!(rt; (is_clear(&joined), payload), (true, 0));
    Ok(())
}
