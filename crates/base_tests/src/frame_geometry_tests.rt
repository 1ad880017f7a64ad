// Places of G.709 by their arithmetic, at both widths.
use frame_geometry::Frame;
use std::test::Fail;

fn byte_at(bytes: &[u8], place: usize) -> u8 {
    match bytes.get(place) {
        Some(byte) => *byte,
        None => 0,
    }
}

#[test]
fn line_frame_places(rt: HostRuntime) -> Result<(), Fail> {
    let mut frame = Frame::<4080>::new(rt.alloc())?;
    for (row, col, place) in [
        (1, 1, 0),
        (1, 7, 6),
        (2, 14, 4093),
        (3, 12, 8171),
        (4, 4080, 16319),
    ] {
        frame.set(row, col, 165);
        let is_overhead = frame.overhead(row, col.min(16)) == 165;
        assert_eq!(rt;
            (
                frame.get(row, col),
                is_overhead,
                byte_at(frame.as_bytes(), place)
            ),
            (165, col <= 16, 165),
            "row {row}, column {col}"
        );
        frame.set(row, col, 0);
    }
    Ok(())
}

#[test]
fn client_frame_rows(rt: HostRuntime) -> Result<(), Fail> {
    let mut frame = Frame::<3824>::new(rt.alloc())?;
    frame.payload_row_mut(4)[3807] = 77;
    assert_eq!(rt;
        [
            frame.get(4, 3824),
            frame.payload_row(4)[3807],
            byte_at(frame.as_bytes(), 15295),
        ],
        [77; 3]
    );
    frame.as_bytes_mut()[16] = 78;
    assert_eq!(rt; frame.payload_row(1)[0], 78);
    frame.clear();
    assert_eq!(rt; frame.get(4, 3824), 0);
    Ok(())
}

#[test]
fn frame_is_filled(rt: HostRuntime) -> Result<(), Fail> {
    let mut filled = Frame::<3824>::new(rt.alloc())?;
    let mut frame = Frame::<3824>::new(rt.alloc())?;
    filled.set(2, 17, 9);
    frame.fill_from(filled.as_bytes());
    assert_eq!(rt; frame.payload_row(2)[0], 9);
    Ok(())
}
