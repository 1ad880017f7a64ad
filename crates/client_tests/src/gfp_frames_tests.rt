// Fixed streams both ways.
use gfp_frames::{GfpMaker, GfpReader};
use gfp_scrambler::Descrambler;
use std::test::Fail;

// The packets 1111, 2222, 3333 and 4444, and their stream without FCS, with one more idle frame.
static PACKETS: [u8; 8] = [0x11, 0x11, 0x22, 0x22, 0x33, 0x33, 0x44, 0x44];

static STREAM: [u8; 48] = [
    0xB6, 0xAB, 0x31, 0xE0, 0xB6, 0xAD, 0x51, 0x26, 0x00, 0x01, 0x10, 0x21, 0x11, 0x11, 0xB6, 0xAD,
    0x51, 0x26, 0x00, 0x23, 0x14, 0x03, 0x00, 0x02, 0xB6, 0xAD, 0x51, 0x26, 0x04, 0x63, 0x90, 0x41,
    0x33, 0x73, 0xB6, 0xAD, 0x51, 0x26, 0x8C, 0x73, 0x18, 0x07, 0x2A, 0x35, 0xB6, 0xAB, 0x31, 0xE0,
];

#[test]
fn stream_of_four_packets_is_made(rt: HostRuntime) -> Result<(), Fail> {
    let mut maker = GfpMaker::new(rt.alloc())?;
    let mut packets = PACKETS.as_slice();
    for byte in &STREAM {
        if maker.idle() && packets.len() >= 2 {
            let (packet, rest) = packets.split_at(2);
            maker.offer(packet, false);
            packets = rest;
        }
        assert_eq!(rt; maker.next_byte(), *byte);
    }
    assert!(rt; maker.idle());
    Ok(())
}

// Puts the packets that these bytes deliver one after another.
fn read(reader: &mut GfpReader, bytes: &[u8], packets: &mut Vec<u8>) -> Result<(), Fail> {
    for byte in bytes {
        if let Some(packet) = reader.take(*byte) {
            packets.extend_from_slice(packet)?;
        }
    }
    Ok(())
}

// The same stream in pieces: an idle frame, a frame in two parts, whole frames, and what comes after the last.
#[test]
fn stream_is_made_in_pieces(rt: HostRuntime) -> Result<(), Fail> {
    let mut maker = GfpMaker::new(rt.alloc())?;
    let mut made = [0u8; 48];
    assert_eq!(rt; maker.give(&mut made), 4);
    offer_two(&mut maker, 0x11);
    assert_eq!(rt; maker.give(&mut made[4..9]), 5);
    assert_eq!(rt; maker.give(&mut made[9..]), 5);
    offer_two(&mut maker, 0x22);
    assert_eq!(rt; maker.give(&mut made[14..]), 10);
    offer_two(&mut maker, 0x33);
    assert_eq!(rt; maker.give(&mut made[24..]), 10);
    assert_eq!(rt; maker.give(&mut made[34..]), 0);
    offer_two(&mut maker, 0x44);
    maker.fill(&mut made[34..]);
    assert!(rt; made == STREAM);
    Ok(())
}

// A packet of the same byte twice, where no frame is in hand.
fn offer_two(maker: &mut GfpMaker, byte: u8) {
    if maker.idle() {
        maker.offer(&[byte, byte], false);
    }
}

// What is left of an idle frame is given before the next one.
#[test]
fn idle_frames_go_on(rt: HostRuntime) -> Result<(), Fail> {
    let mut maker = GfpMaker::new(rt.alloc())?;
    let mut made = [0u8; 11];
    maker.fill(&mut made[..3]);
    maker.fill(&mut made[3..]);
    assert!(rt;
        made == [
            0xB6u8, 0xAB, 0x31, 0xE0, 0xB6, 0xAB, 0x31, 0xE0, 0xB6, 0xAB, 0x31
        ]
    );
    assert_eq!(rt; maker.next_byte(), 0xE0);
    Ok(())
}

#[test]
fn stream_is_read_in_pieces(rt: HostRuntime) -> Result<(), Fail> {
    let mut reader = GfpReader::new(rt.alloc())?;
    for size in &[1usize, 5, 13, 48] {
        reader.restart();
        let mut packets = Vec::new(rt.alloc());
        for piece in STREAM.chunks((*size).max(1)) {
            read_piece(&mut reader, piece, &mut packets)?;
        }
        assert!(rt; packets.as_slice() == PACKETS.as_slice());
    }
    Ok(())
}

// Puts the packets that these bytes deliver one after another.
fn read_piece(reader: &mut GfpReader, bytes: &[u8], packets: &mut Vec<u8>) -> Result<(), Fail> {
    let mut rest = bytes;
    for _ in 0..bytes.len() {
        let (count, packet) = reader.take_some(rest);
        if let Some(packet) = packet {
            packets.extend_from_slice(packet)?;
        }
        rest = &rest[count..];
    }
    Ok(())
}

#[test]
fn stream_is_read_with_wrong_bits(rt: HostRuntime) -> Result<(), Fail> {
    let mut reader = GfpReader::new(rt.alloc())?;
    // The first byte of the second client header, and how many bytes of packets are delivered: right,
    // with one wrong bit, and with two.
    let rows = [(0xB6u8, 8usize), (0xB7, 8), (0xB5, 2)];
    for (first, count) in &rows {
        let mut stream = STREAM;
        stream[14] = *first;
        reader.restart();
        let mut packets = Vec::new(rt.alloc());
        read(&mut reader, &stream, &mut packets)?;
        assert!(rt; packets.as_slice() == &PACKETS[..(*count).min(8)]);
    }
    Ok(())
}

// A header of an area of 8 bytes stands before the stream and hides its first two headers. The frame of
// 2222 is then the PRESYNC frame, 3333 is descrambled after bits 0, and 4444 after 3333.
#[test]
fn false_header_hides_true_ones(rt: HostRuntime) -> Result<(), Fail> {
    let mut reader = GfpReader::new(rt.alloc())?;
    let mut packets = Vec::new(rt.alloc());
    read(&mut reader, &[0xB6, 0xA3, 0xB0, 0xE8], &mut packets)?;
    read(&mut reader, &STREAM, &mut packets)?;
    assert!(rt; packets.as_slice() == &PACKETS[6..]);
    Ok(())
}

// The plain area of the packet "123456789" with FCS: the CRC-32 is the one that bzip2 writes for it.
#[test]
fn frame_check_sequence(rt: HostRuntime) -> Result<(), Fail> {
    let mut maker = GfpMaker::new(rt.alloc())?;
    for byte in &[0xB6u8, 0xAB, 0x31, 0xE0] {
        assert_eq!(rt; maker.next_byte(), *byte);
    }
    assert!(rt; maker.idle());
    if maker.idle() {
        maker.offer(b"123456789", true);
    }
    let mut header = [0u8; 4];
    for byte in header.iter_mut() {
        *byte = maker.next_byte();
    }
    let mut area = [0u8; 17];
    for byte in area.iter_mut() {
        *byte = maker.next_byte();
    }
    Descrambler::new().descramble(&mut area);
    assert!(rt; area.as_slice() == b"\x10\x01\x13\x52123456789\xFC\x89\x19\x18".as_slice());
    Ok(())
}

#[test]
fn header_of_sixty_bytes(rt: HostRuntime) -> Result<(), Fail> {
    let mut maker = GfpMaker::new(rt.alloc())?;
    let packet = [0x5Au8; 60];
    let start = [
        0xB6u8, 0xAB, 0x31, 0xE0, 0xB6, 0xEF, 0x39, 0xA0, 0x10, 0x01, 0x13, 0x52,
    ];
    for byte in &start {
        let next = maker.next_byte();
        if maker.idle() {
            maker.offer(&packet, true);
        }
        assert_eq!(rt; next, *byte);
    }
    Ok(())
}

// A packet of the greatest size, with FCS and without.
#[test]
fn greatest_packet_arrives(rt: HostRuntime) -> Result<(), Fail> {
    let mut maker = GfpMaker::new(rt.alloc())?;
    let mut reader = GfpReader::new(rt.alloc())?;
    let mut packet = Vec::new(rt.alloc());
    for n in 0..65_527u32 {
        packet.push((n % 251) as u8)?;
    }
    for fcs in &[true, false] {
        let mut arrived = false;
        for _ in 0..65_543u32 {
            if maker.idle() && packet.len() == 65_527 {
                maker.offer(packet.as_slice(), *fcs);
            }
            let byte = maker.next_byte();
            if let Some(got) = reader.take(byte) {
                assert!(rt; got == packet.as_slice());
                arrived = true;
            }
        }
        assert!(rt; arrived);
    }
    Ok(())
}

// The area of a client management frame: client signal fail, an extension header of zeros; and the bytes of its frame
// after the idle frame.
static LOSS: [u8; 8] = [0x81, 0x01, 0x38, 0x88, 0x00, 0x00, 0x00, 0x00];

static LOSS_STREAM: [u8; 20] = [
    0xB6, 0xAB, 0x31, 0xE0, 0xB6, 0xA3, 0xB0, 0xE8, 0x81, 0x01, 0x38, 0x88, 0x00, 0x10, 0x20, 0x27,
    0xB6, 0xAB, 0x31, 0xE0,
];

#[test]
fn area_is_made(rt: HostRuntime) -> Result<(), Fail> {
    let mut maker = GfpMaker::new(rt.alloc())?;
    let mut made = [0u8; 20];
    assert_eq!(rt; maker.give(&mut made), 4);
    if maker.idle() {
        maker.offer_area(&LOSS);
    }
    maker.fill(&mut made[4..]);
    assert!(rt; made == LOSS_STREAM);
    Ok(())
}

// The same area byte by byte, in blocks of 9 bytes, and where it stands.
#[test]
fn area_is_found(rt: HostRuntime) -> Result<(), Fail> {
    let mut reader = GfpReader::new(rt.alloc())?;
    for (at, byte) in LOSS_STREAM.iter().enumerate() {
        match reader.take_area(*byte) {
            Some(area) => assert!(rt; at == 15 && area == LOSS.as_slice()),
            None => assert!(rt; at != 15),
        }
    }
    reader.restart();
    assert!(rt; reader.take_some_area(&LOSS_STREAM[..9]).1.is_none());
    let (count, area) = reader.take_some_area(&LOSS_STREAM[9..]);
    assert!(rt; count == 7 && area.is_some_and(|area| area == LOSS.as_slice()));
    reader.restart();
    assert!(rt; reader.find_area(&LOSS_STREAM) == (16, true));
    assert!(rt; reader.area() == LOSS.as_slice());
    assert!(rt; reader.take_some(&LOSS_STREAM).1.is_none());
    Ok(())
}
