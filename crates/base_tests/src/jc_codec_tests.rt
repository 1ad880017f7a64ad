// Messages that were worked out by hand from the table of changes, and by two other programs.
use jc_codec::{Heard, Listener, say};

#[test]
fn numbers_said(rt: HostRuntime) {
    for (former, next, bytes) in [
        (None, 0, [0x00, 0x03, 0x17]),
        (None, 15168, [0xED, 0x03, 0x2E]),
        (Some(15168), 15168, [0xED, 0x00, 0x39]),
        (Some(15168), 15169, [0x47, 0xAA, 0x6F]),
        (Some(15168), 15167, [0xB8, 0x55, 0x12]),
        (Some(15168), 15170, [0x8B, 0x66, 0xF0]),
        (Some(15168), 15166, [0x74, 0x99, 0x8D]),
        (Some(15168), 15171, [0xED, 0x0F, 0x72]),
        (Some(0), 15000, [0xEA, 0x63, 0x6E]),
    ] {
        assert!(rt; next <= 15232);
        match former {
            None => assert_eq!(rt; say(None, next), bytes, "first {next}"),
            Some(kept) => {
                assert!(rt; kept <= 15232);
                assert_eq!(rt; say(Some(kept), next), bytes, "{kept}, {next}");
            }
        }
    }
}

#[test]
fn numbers_heard(rt: HostRuntime) {
    // What a new listener hears, and then one that keeps 15168.
    for (bytes, anew, kept) in [
        (
            [0xED, 0x00, 0x39],
            Heard::Accepted(15168, true),
            Heard::Accepted(15168, true),
        ),
        (
            [0x47, 0xAA, 0x6F],
            Heard::BaseLost,
            Heard::Accepted(15169, false),
        ),
        ([0x47, 0xAA, 0x6E], Heard::Damaged, Heard::Damaged),
    ] {
        let mut listener = Listener::new();
        let before = listener.hear([0xED, 0x03, 0x2E]);
        assert_eq!(rt;
            (Listener::new().hear(bytes), before, listener.hear(bytes)),
            (anew, Heard::Accepted(15168, true), kept)
        );
    }
}
