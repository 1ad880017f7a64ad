// Worked values of the streams.
use maintenance_signals::{Signal, SignalBytes};
use std::test::Fail;

// Goes on by this many pieces of 239 bytes, 64 of which are a frame, and gives the last of them.
fn go_on(stream: &mut SignalBytes, pieces: usize) -> [u8; 239] {
    let mut piece = [1u8; 239];
    for _ in 0..pieces {
        stream.next(&mut piece);
    }
    piece
}

#[test]
fn streams_begin(rt: HostRuntime) {
    for (signal, pattern) in [
        (Signal::Ais, 0xFFu8),
        (Signal::Oci, 0x66),
        (Signal::Lck, 0x55),
    ] {
        let mut stream = SignalBytes::new(signal);
        let mut bytes = [1u8; 16];
        stream.next(&mut bytes);
        let expected = [
            0xF6, 0xF6, 0xF6, 0x28, 0x28, 0x28, 0, 0, 0, 0, 0, 0, 0, 0, pattern, pattern,
        ];
        assert_eq!(rt; bytes, expected);
        stream.restart();
        stream.next(&mut bytes);
        assert_eq!(rt; bytes, expected);
    }
}

#[test]
fn only_ais_clears_ftfl(rt: HostRuntime) {
    for (signal, before, ftfl) in [
        (Signal::Ais, 0xFFu8, 0u8),
        (Signal::Oci, 0x66, 0x66),
        (Signal::Lck, 0x55, 0x55),
    ] {
        let mut stream = SignalBytes::new(signal);
        let piece = go_on(&mut stream, 17);
        assert_eq!(rt; [piece[12], piece[13], piece[14]], [before, ftfl, before]);
    }
}

#[test]
fn frames_count_on(rt: HostRuntime) {
    let mut stream = SignalBytes::new(Signal::Lck);
    for (pieces, mfas) in [(65usize, 1u8), (64, 2), (64 * 253, 255), (64, 0), (64, 1)] {
        let piece = go_on(&mut stream, pieces);
        assert_eq!(rt;
            [piece[5], piece[6], piece[7], piece[14]],
            [0x28, mfas, 0, 0x55]
        );
    }
}
