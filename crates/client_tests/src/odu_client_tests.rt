// Whole frames, byte by byte and at once, and frames out of texts.
use odu_client::{Aligned, ClientAligner, ClientFramer, FrameMaker};
use otn_base::Trace;
use packet_text::PacketLines;
use port_base::{InPlaceOf, MemSource, Source};
use std::alloc::{AllocError, Global};
use std::test::Fail;

// A frame with the FAS, and this byte in every other place.
fn frame(alloc: Global, filling: u8) -> Result<Vec<u8>, AllocError> {
    let mut bytes = Vec::new(alloc);
    for byte in [0xF6_u8, 0xF6, 0xF6, 0x28, 0x28, 0x28] {
        bytes.push(byte)?;
    }
    for _ in 0..15_290_u16 {
        bytes.push(filling)?;
    }
    Ok(bytes)
}

// The first answer that is not `Nothing`, and after how many bytes.
fn first_news(aligner: &mut ClientAligner, bytes: &[u8]) -> (Aligned, usize) {
    let mut count = 0_usize;
    for byte in bytes {
        count = count.saturating_add(1);
        let aligned = aligner.take(*byte);
        if aligned != Aligned::Nothing {
            return (aligned, count);
        }
    }
    (Aligned::Nothing, count)
}

#[test]
fn an_open_connection_then_a_client(rt: HostRuntime) -> Result<(), Fail> {
    let alloc = rt.alloc();
    let open = frame(alloc, 0x66)?;
    let client = frame(alloc, 0x01)?;
    let mut aligner = ClientAligner::new(alloc).map_err(|_memory| AllocError)?;
    assert_eq!(rt; first_news(&mut aligner, &open), (Aligned::Break, 15_296));
    assert_eq!(rt; first_news(&mut aligner, &client), (Aligned::Whole, 15_296));
    assert_eq!(rt; aligner.take_some(&client), (Aligned::Whole, 15_296));
    assert_eq!(rt; aligner.take_some(&open), (Aligned::Break, 15_296));
    assert_eq!(rt; aligner.frames(), 2);
    Ok(())
}

// The first bytes that a framer makes of a place, and the rest of its first frame; whether it is spent after each; how
// many packets are begun, and the bad line.
#[derive(Drop)]
struct FirstFrame {
    first: [u8; 16],
    rest: Vec<u8>,
    spent: (bool, bool),
    packets: u64,
    bad: Option<u64>,
}

fn first_frame<P: Source>(
    alloc: Global,
    mut place: InPlaceOf<P>,
) -> Result<FirstFrame, AllocError> {
    let mut lines = PacketLines::new(alloc).map_err(|_memory| AllocError)?;
    let mut framer = ClientFramer::new(alloc).map_err(|_memory| AllocError)?;
    match Trace::new(b"EAST") {
        Some(trace) => framer.restart(&trace, false),
        None => {}
    }
    let mut first = [0; 16];
    framer.fill(&mut lines, &mut place, &mut first);
    let early = framer.spent();
    let mut rest = zeros(alloc, 15_280)?;
    framer.fill(&mut lines, &mut place, &mut rest);
    Ok(FirstFrame {
        first,
        rest,
        spent: (early, framer.spent()),
        packets: framer.packets(),
        bad: framer.bad(),
    })
}

fn zeros(alloc: Global, n: usize) -> Result<Vec<u8>, AllocError> {
    vec![in alloc; 0u8; n]
}

const FIRST_BYTES: [u8; 16] = [
    0xF6, 0xF6, 0xF6, 0x28, 0x28, 0x28, 0, 0, 0, 0, 0, 0, 0, 0, 0, 0,
];

#[test]
fn an_empty_place(rt: HostRuntime) -> Result<(), Fail> {
    let made = first_frame(rt.alloc(), InPlaceOf::<MemSource>::Empty)?;
    assert_eq!(rt; made.first, FIRST_BYTES);
    assert_eq!(rt; made.spent, (false, true));
    assert_eq!(rt; made.packets, 0);
    assert_eq!(rt; made.bad, None);
    Ok(())
}

#[test]
fn a_packet_and_a_bad_line(rt: HostRuntime) -> Result<(), Fail> {
    let alloc = rt.alloc();
    let text = Vec::from_slice(alloc, b"1111\n2222\n\nabc\n3333\n")?;
    let made = first_frame(alloc, InPlaceOf::Live(MemSource::new(text), 0))?;
    let front = [
        0xB6_u8, 0xAB, 0x31, 0xE0, 0xB6, 0xAD, 0x51, 0x26, 0x00, 0x01, 0x10, 0x21, 0x11, 0x11,
        0xB6, 0xAD, 0x51, 0x26, 0x00, 0x23, 0x14, 0x03, 0x00, 0x02, 0xB6, 0xAB, 0x31, 0xE0, 0xB6,
        0xAB, 0x31, 0xE0,
    ];
    assert!(rt; made.rest.as_slice().starts_with(&front));
    assert_eq!(rt; made.spent, (false, false));
    assert_eq!(rt; made.packets, 2);
    assert_eq!(rt; made.bad, Some(4));
    Ok(())
}

// A payload of this byte.
fn payload(alloc: Global, byte: u8, n: usize) -> Result<Vec<u8>, AllocError> {
    vec![in alloc; byte; n]
}

// Two frames of a payload: MFAS, PSI, and the first and the last column of the payload.
#[test]
fn frames_of_a_payload(rt: HostRuntime) -> Result<(), Fail> {
    let alloc = rt.alloc();
    let payload = payload(alloc, 0x5A, 15_232)?;
    let mut maker = FrameMaker::new(alloc).map_err(|_memory| AllocError)?;
    if let Some(trace) = Trace::new(b"EAST")
        && payload.len() == 15_232
    {
        let first = maker.make(&payload, &trace);
        assert!(rt; (first.get(1, 7), first.get(4, 15)) == (0, 0x05));
        assert!(rt; (first.get(1, 17), first.get(4, 3824)) == (0x5A, 0x5A));
        let second = maker.make(&payload, &trace);
        assert!(rt; (second.get(1, 7), second.get(4, 15)) == (1, 0));
        maker.restart();
        assert_eq!(rt; maker.make(&payload, &trace).get(1, 7), 0);
    }
    Ok(())
}

// Four frames of a text, whose packets have no FCS.
fn four_frames(alloc: Global, text: &[u8]) -> Result<Vec<u8>, AllocError> {
    let mut place = InPlaceOf::Live(MemSource::new(Vec::from_slice(alloc, text)?), 0);
    let mut lines = PacketLines::new(alloc).map_err(|_memory| AllocError)?;
    let mut framer = ClientFramer::new(alloc).map_err(|_memory| AllocError)?;
    match Trace::new(b"EAST") {
        Some(trace) => framer.restart(&trace, false),
        None => {}
    }
    let mut frames = zeros(alloc, 61_184)?;
    framer.fill(&mut lines, &mut place, &mut frames);
    Ok(frames)
}

// How many payload bytes of these frames, from byte `begin` of the payload on, are not those of idle frames.
fn strays(frames: &[u8], begin: usize) -> usize {
    let idle = [0xB6_u8, 0xAB, 0x31, 0xE0];
    let mut strays = 0_usize;
    let mut count = 0_usize;
    for (at, byte) in frames.iter().enumerate() {
        if at % 3_824 >= 16 {
            if count >= begin && *byte != idle[(count - begin) % 4] {
                strays = strays.saturating_add(1);
            }
            count = count.saturating_add(1);
        }
    }
    strays
}

// The BIP-8 of frame `n`, from 0: of columns 15 to 3824.
fn parity_of(frames: &[u8], n: usize) -> u8 {
    let mut parity = 0;
    for (at, byte) in frames.iter().enumerate() {
        if at / 15_296 == n && at % 3_824 >= 14 {
            parity ^= *byte;
        }
    }
    parity
}

// The PM BIP-8 of frames 2 and 3, from 0, of four: row 3, column 11.
fn parities_sent(frames: &[u8]) -> Option<(u8, u8)> {
    Some((*frames.get(38_250)?, *frames.get(53_546)?))
}

// Behind the packet idle frames alone are sent, from each place in a group of four bytes on; and the parity of frames
// that have the same payload is right all the same.
#[test]
fn idle_frames_go_on_from_frame_to_frame(rt: HostRuntime) -> Result<(), Fail> {
    let alloc = rt.alloc();
    let one = four_frames(alloc, b"11\n")?;
    let two = four_frames(alloc, b"1111\n")?;
    let three = four_frames(alloc, b"111111\n")?;
    let four = four_frames(alloc, b"11111111\n")?;
    assert_eq!(rt; (strays(&one, 13), strays(&two, 14)), (0, 0));
    assert_eq!(rt; (strays(&three, 15), strays(&four, 16)), (0, 0));
    for frames in [&one, &two, &three, &four] {
        let sent = parities_sent(frames);
        assert_eq!(rt; sent, Some((parity_of(frames, 0), parity_of(frames, 1))));
    }
    Ok(())
}
