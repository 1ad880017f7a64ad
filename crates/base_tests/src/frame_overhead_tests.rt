// Worked parities.
use frame_geometry::Frame;
use frame_overhead::{ParityCheck, ParityDelay, parity, parity_with, payload_parity};
use std::test::Fail;

#[test]
fn the_opu_area_counts(rt: HostRuntime) -> Result<(), Fail> {
    let mut frame = Frame::<4080>::new(rt.alloc())?;
    for (row, col, byte) in [
        (1, 14, 0x80),
        (1, 15, 0x01),
        (2, 3824, 0x02),
        (3, 3825, 0x80),
        (4, 15, 0x21),
        (4, 4080, 0x80),
    ] {
        frame.set(row, col, byte);
    }
    assert_eq!(rt; parity(&frame), 0x22);
    assert_eq!(rt; payload_parity(&frame), 0x02);
    assert_eq!(rt; parity_with(&frame, 0x02), 0x22);
    Ok(())
}

#[test]
fn two_frames_later(rt: HostRuntime) {
    let mut delay = ParityDelay::new();
    let mut check = ParityCheck::new();
    for (parity, due, carried, wrong) in [
        (0x21_u8, None, 9_u8, 0_u64),
        (0x00, None, 9, 0),
        (0xC0, Some(0x21_u8), 0x21, 0),
        (0x07, Some(0x00), 0xC0, 1),
        (0x00, Some(0xC0), 0xC0, 1),
    ] {
        assert_eq!(rt; delay.due(), due);
        delay.send(parity);
        check.take(carried, parity);
        assert_eq!(rt; check.wrong(), wrong);
    }
}
