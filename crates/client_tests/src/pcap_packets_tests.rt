// Worked captures.
use otn_ports::{Failed, ListedSink, ListedSource, Sink, Source};
use pcap_packets::{PcapSink, PcapSource};
use std::alloc::{AllocError, Global};
use std::test::Fail;

// Two packets: 1111, and ff with another length on the line.
const LOW: [u8; 59] = [
    0xD4, 0xC3, 0xB2, 0xA1, 2, 0, 4, 0, 0, 0, 0, 0, 0, 0, 0, 0, 0xFF, 0xFF, 0, 0, 1, 0, 0, 0, 0, 0,
    0, 0, 0, 0, 0, 0, 2, 0, 0, 0, 2, 0, 0, 0, 0x11, 0x11, 0, 0, 0, 0, 0, 0, 0, 0, 1, 0, 0, 0, 5, 0,
    0, 0, 0xFF,
];

const HIGH: [u8; 59] = [
    0xA1, 0xB2, 0xC3, 0xD4, 0, 2, 0, 4, 0, 0, 0, 0, 0, 0, 0, 0, 0, 0, 0xFF, 0xFF, 0, 0, 0, 1, 0, 0,
    0, 0, 0, 0, 0, 0, 0, 0, 0, 2, 0, 0, 0, 2, 0x11, 0x11, 0, 0, 0, 0, 0, 0, 0, 0, 0, 0, 0, 1, 0, 0,
    0, 5, 0xFF,
];

// What comes of a capture, of which each call gives at most so many bytes, and the calls of these numbers fail: the
// text in order, and how many calls of its own failed.
fn text_of(
    alloc: Global,
    capture: &[u8],
    most: usize,
    failing: &[u32],
) -> Result<(Vec<u8>, u32), AllocError> {
    let failing = Vec::from_slice(alloc, failing)?;
    let inner = ListedSource::new(Vec::from_slice(alloc, capture)?, failing, most.max(1));
    let mut source = PcapSource::new(alloc, inner).map_err(|_memory| AllocError)?;
    let mut text = Vec::new(alloc);
    let mut failed = 0u32;
    for _ in 0..1000_u32 {
        let mut room = [0; 5];
        match source.read(&mut room) {
            Ok(0) => return Ok((text, failed)),
            Ok(n) => text.extend_from_slice(&room[..n.min(5)])?,
            Err(_) => failed = failed.saturating_add(1),
        }
    }
    Ok((text, failed))
}

#[test]
fn texts_of_captures(rt: HostRuntime) -> Result<(), Fail> {
    let alloc = rt.alloc();
    let cases: [(&[u8], &[u8]); 5] = [
        (&LOW, b"1111\nff\n"),
        (&HIGH, b"1111\nff\n"),
        (&LOW[..58], b"1111\n!\n"),
        (&LOW[..24], b""),
        (&LOW[..23], b"!\n"),
    ];
    for most in [1usize, 3, 16, 100] {
        for (capture, wanted) in &cases {
            let (text, _) = text_of(alloc, *capture, most, &[])?;
            assert_eq!(rt; text.as_slice(), *wanted, "by {most}");
        }
    }
    let (text, failed) = text_of(alloc, &HIGH, 7, &[1, 3, 4, 9])?;
    assert_eq!(rt; (text.as_slice(), failed), (b"1111\nff\n".as_slice(), 4));
    Ok(())
}

#[test]
fn captures_of_lines(rt: HostRuntime) -> Result<(), Fail> {
    let alloc = rt.alloc();
    // The first call of the sink below fails: the line's record goes on at the next LF.
    let failing = Vec::from_slice(alloc, &[1u32])?;
    let inner = ListedSink::with_room(alloc, 1000, failing).map_err(|_memory| AllocError)?;
    let mut sink = PcapSink::new(alloc, inner).map_err(|_memory| AllocError)?;
    let calls: [(&[u8], Result<usize, Failed>); 8] = [
        (b"1111\n", Ok(4)),
        (b"\n", Err(Failed)),
        (b"2", Err(Failed)),
        (b"\n", Ok(1)),
        (b"\n", Err(Failed)),
        (b"ff", Ok(2)),
        (b"A", Err(Failed)),
        (b"\n", Ok(1)),
    ];
    for (n, (text, answer)) in calls.iter().enumerate() {
        assert_eq!(rt; sink.write(*text), *answer, "call {n}");
    }
    let bytes = match sink.inner().kept() {
        Some(bytes) => bytes,
        None => &[],
    };
    assert_eq!(rt;
        (&bytes[..bytes.len().min(42)], bytes.len()),
        (&LOW[..42], 59)
    );
    let (text, _) = text_of(alloc, bytes, 16, &[])?;
    assert_eq!(rt; text.as_slice(), b"1111\nff\n".as_slice());
    Ok(())
}
