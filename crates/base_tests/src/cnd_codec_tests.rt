// Messages that were worked out by hand, and by two other programs.
use cnd_codec::{hear_d, say_d};

#[test]
fn remainders_said(rt: HostRuntime) {
    for (d, bytes) in [
        (0, [0x00, 0x00, 0x00]),
        (1, [0x00, 0x01, 0x03]),
        (3, [0x00, 0x03, 0x05]),
        (7, [0x00, 0x07, 0x09]),
    ] {
        assert!(rt; d < 1024);
        assert_eq!(rt; say_d(d), bytes, "D {d}");
    }
}

#[test]
fn remainders_heard(rt: HostRuntime) {
    for (bytes, m, d) in [
        ([0x00, 0x03, 0x05], 4, Some(3)),
        ([0x00, 0x03, 0x05], 3, None),
        ([0xE0, 0xE3, 0xE5], 4, Some(3)),
        ([0x00, 0x03, 0x04], 4, None),
        ([0x00, 0x00, 0x00], 1, Some(0)),
    ] {
        assert_eq!(rt; hear_d(bytes, m), d);
    }
}
