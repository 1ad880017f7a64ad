// Values from outside: the catalogue of CRC algorithms, the worked examples of the standards, and, for the
// checks of 8 and 5 bits whose generators no catalogue lists, long division of whole numbers in Python.
ghost use Rattle.std.specs.Prelude.{IfOk, vec_len, ◌≡◌};

use crc_small::{crc5, crc8, crc16, crc32, fix_one_bit};
use otn_base::Memory;
use std::alloc::Global;
use std::test::Fail;

#[test]
fn frame_checks(rt: HostRuntime) {
    // CRC-32/BZIP2 of the catalogue, which has this generator, inverts both ends and reflects nothing; and the CRC
    // that bzip2 writes of the last 43 bytes.
    let texts: [&[u8]; 3] = [
        b"123456789",
        b"",
        b"The quick brown fox jumps over the lazy dog",
    ];
    assert_eq!(rt;
        [crc32(texts[0]), crc32(texts[1]), crc32(texts[2])],
        [0xFC89_1918, 0, 0x459D_EE61]
    );
}

// Bytes of a linear congruential sequence.
fn scattered(alloc: Global, count: usize) -> Result<Vec<u8>, Memory>
    ensures { IfOk result (λ bytes. vec_len bytes ≡ count) }
{
    let mut bytes = vec![in alloc; 0u8; count]?;
    let mut last = 1u8;
    for byte in bytes.iter_mut() {
        last = last.wrapping_mul(5).wrapping_add(113);
        *byte = last;
    }
    Ok(bytes)
}

// The same check, bit by bit.
fn bit_by_bit(bytes: &[u8]) -> u32 {
    let mut register = 0xFFFF_FFFFu32;
    for byte in bytes {
        register ^= (*byte as u32) << 24;
        for _ in 0..8u32 {
            let over = register >> 31;
            register = (register << 1) ^ (over * 0x04C1_1DB7);
        }
    }
    register ^ 0xFFFF_FFFF
}

#[test]
fn long_frame_checks(rt: HostRuntime) -> Result<(), Fail> {
    let bytes = scattered(rt.alloc(), 700)?;
    let mut wrong = 0usize;
    for count in 0..700_usize {
        if crc32(&bytes[..count]) != bit_by_bit(&bytes[..count]) {
            wrong = wrong.saturating_add(1);
        }
    }
    assert_eq!(rt; wrong, 0);
    // Of a model in Python.
    assert_eq!(rt; crc32(&bytes), 0x2456_82E7);
    Ok(())
}

#[test]
fn header_checks(rt: HostRuntime) {
    // CRC-16/XMODEM of the catalogue, then GFP headers.
    assert_eq!(rt;
        [
            crc16(b"123456789"),
            crc16(&[0x00, 0x06]),
            crc16(&[0x10, 0x01]),
            crc16(&[0x00, 0x01]),
        ],
        [0x31C3, 0x60C6, 0x1352, 0x1021]
    );
}

#[test]
fn message_checks(rt: HostRuntime) {
    for (jc1, jc2, jc3) in [
        (0x00, 0x03, 0x17),
        (0xED, 0x03, 0x2E),
        (0xED, 0x00, 0x39),
        (0x47, 0xAA, 0x6F),
        (0xEA, 0x63, 0x6E),
        (0x12, 0x34, 0xC2),
    ] {
        assert_eq!(rt; crc8(jc1, jc2), jc3, "JC1 {jc1}, JC2 {jc2}");
    }
}

#[test]
fn remainder_checks(rt: HostRuntime) {
    for (d, check) in [
        (0, 0),
        (1, 3),
        (3, 5),
        (7, 9),
        (512, 0x16),
        (682, 0x19),
        (1023, 0x04),
    ] {
        assert!(rt; d < 1024);
        assert_eq!(rt; crc5(d), check, "D {d}");
    }
}

#[test]
fn headers_mended(rt: HostRuntime) {
    for (header, mended) in [
        (0x0006_60C6, Some(0x0006_60C6)),
        (0x0106_60C6, Some(0x0006_60C6)),
        (0x0006_60C7, Some(0x0006_60C6)),
        (0x0306_60C6, None),
    ] {
        assert_eq!(rt; fix_one_bit(header), mended, "header {header}");
    }
}
