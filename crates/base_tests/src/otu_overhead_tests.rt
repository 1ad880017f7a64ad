// The overhead of worked frames.
use frame_geometry::Frame;
use otn_base::Trace;
use otu_overhead::{OtuCheck, OtuWriter, line_mask};
use std::test::Fail;

#[test]
fn section_of_five_frames(rt: HostRuntime) -> Result<(), Fail> {
    let trace = Trace::new(b"LINE-2").ok_or("refused")?;
    let mut writer = OtuWriter::new();
    let mut check = OtuCheck::new();
    let mut mfas = 0_u8;
    for (psi, tti, bip) in [
        (0x21_u8, 0_u8, 0_u8),
        (0x00, b'L', 0x00),
        (0xC0, b'I', 0x21),
        (0xC0, b'N', 0x00),
        (0xC0, b'E', 0xC0),
    ] {
        let mut frame = Frame::<4080>::new(rt.alloc())?;
        frame.set(4, 15, psi);
        frame.set(2, 4080, 7);
        frame.set(2, 3824, 0);
        writer.write(&mut frame, mfas, &trace);
        let section = [
            frame.get(1, 6),
            frame.get(1, 7),
            frame.get(1, 8),
            frame.get(1, 9),
        ];
        assert_eq!(rt; (section, frame.get(2, 4080)), ([0x28, mfas, tti, bip], 0));
        if mfas == 3 {
            frame.set(1, 9, 1);
            frame.set(1, 1, 0);
        }
        check.take(&frame);
        mfas = mfas.wrapping_add(1);
    }
    assert_eq!(rt; (check.fas(), check.sm()), (1, 1));
    Ok(())
}

// The sequence begins again after 2^16 - 1 bits: its bits 65,536 to 65,559 are those from 1 to 24.
#[test]
fn mask_of_a_scrambled_line(rt: HostRuntime) -> Result<(), Fail> {
    let mut mask = Frame::<4080>::new(rt.alloc())?;
    mask.set(1, 1, 7);
    line_mask(mask.as_bytes_mut());
    for (row, col, byte) in [
        (1, 1, 0_u8),
        (1, 6, 0),
        (1, 7, 0xFF),
        (1, 8, 0xFF),
        (1, 9, 0x4E),
        (1, 10, 0x91),
        (3, 39, 0xFF),
        (3, 40, 0xFE),
        (3, 41, 0x9D),
    ] {
        assert_eq!(rt; mask.get(row, col), byte, "row {row}, column {col}");
    }
    Ok(())
}
