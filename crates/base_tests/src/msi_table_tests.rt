// Worked values of the marks and of the PSI.
use msi_table::{MsiWatch, SlotMap, psi_byte};
use otn_base::{LineKind, Slots};
use std::test::Fail;

#[test]
fn two_wrong_bytes_mark(rt: HostRuntime) {
    let mut watch = MsiWatch::new(3);
    for (byte, marked) in [
        (0x83u8, false),
        (0x82, false),
        (0xC0, false),
        (0x02, true),
        (0xFF, true),
        (0x82, false),
        (0x80, false),
        (0x82, false),
        (0x82, false),
        (0x42, false),
        (0x42, true),
    ] {
        watch.take(byte);
        assert_eq!(rt; watch.marked(), marked, "after {byte}");
    }
}

#[test]
fn psi_of_two_tributaries(rt: HostRuntime) -> Result<(), Fail> {
    let odu0 = Slots::new(&[3], LineKind::Otu2).ok_or("one slot")?;
    let flex = Slots::new(&[1, 2, 8], LineKind::Otu2).ok_or("three slots that rise")?;
    let mut map = SlotMap::new(LineKind::Otu2);
    map.allot(&odu0, 1);
    map.free(&flex);
    map.allot(&flex, 2);
    for (mfas, byte) in [
        (0_u8, 0x21_u8),
        (1, 0),
        (2, 0x81),
        (3, 0x81),
        (4, 0x80),
        (5, 0xC0),
        (8, 0xC0),
        (9, 0x81),
        (10, 0),
        (255, 0),
    ] {
        assert_eq!(rt; psi_byte(mfas, &map), byte, "PSI[{mfas}]");
    }
    map.free(&odu0);
    assert_eq!(rt; (map.port(3), map.port(8)), (0, 2));
    Ok(())
}

#[test]
fn psi_of_a_line_of_32_slots(rt: HostRuntime) -> Result<(), Fail> {
    let slot = Slots::new(&[17], LineKind::Otu3).ok_or("one slot")?;
    let mut map = SlotMap::new(LineKind::Otu3);
    map.allot(&slot, 20);
    for (mfas, byte) in [
        (0_u8, 0x21_u8),
        (1, 0),
        (2, 0xC0),
        (10, 0xC0),
        (18, 0x93),
        (33, 0xC0),
        (34, 0),
    ] {
        assert_eq!(rt; psi_byte(mfas, &map), byte, "PSI[{mfas}]");
    }
    Ok(())
}
