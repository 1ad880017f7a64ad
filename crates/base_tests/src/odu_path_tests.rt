// The path overhead of worked frames.
use frame_geometry::Frame;
use odu_path::{PathCheck, PathWriter, stat};
use otn_base::Trace;
use std::test::Fail;

#[test]
fn path_of_a_client(rt: HostRuntime) -> Result<(), Fail> {
    let trace = Trace::new(b"east").ok_or("refused")?;
    let mut writer = PathWriter::new();
    let mut check = PathCheck::new();
    let mut mfas = 0_u8;
    for (psi, tti, bip) in [
        (0x05_u8, 0_u8, 0_u8),
        (0x00, b'e', 0x00),
        (0x00, b'a', 0x05),
        (0x11, b's', 0x00),
    ] {
        let mut frame = Frame::<3824>::new(rt.alloc())?;
        frame.set(4, 15, psi);
        frame.set(2, 14, 9);
        writer.write(&mut frame, mfas, &trace);
        let path = [frame.get(3, 10), frame.get(3, 11), frame.get(3, 12)];
        assert_eq!(rt;
            (frame.get(2, 14), path, stat(&frame)),
            (0, [tti, bip, 1], 1)
        );
        if mfas == 2 {
            frame.set(3, 11, 4);
        }
        check.take(&frame);
        mfas = mfas.wrapping_add(1);
    }
    assert_eq!(rt; check.pm(), 1);
    Ok(())
}

// A line on which every slot is free: all that its OPU holds are the PSI bytes.
#[test]
fn path_of_a_free_line(rt: HostRuntime) -> Result<(), Fail> {
    let trace = Trace::new(b"LINE-0").ok_or("refused")?;
    let mut writer = PathWriter::new();
    let mut mfas = 0_u8;
    for (psi, bip) in [
        (0x21_u8, 0x00_u8),
        (0x00, 0x00),
        (0xC0, 0x21),
        (0xC0, 0x00),
        (0xC0, 0xC0),
    ] {
        let mut frame = Frame::<4080>::new(rt.alloc())?;
        frame.set(4, 15, psi);
        writer.write(&mut frame, mfas, &trace);
        assert_eq!(rt; frame.get(3, 11), bip, "frame {mfas}");
        mfas = mfas.wrapping_add(1);
    }
    Ok(())
}
