// Rows of the standard's numbers, both ways.
use gfp_linear::{Arrival, ChannelMaker, ChannelReader};
use std::test::Fail;

static LOST: [u8; 32] = [
    0xB6, 0xAB, 0x31, 0xE0, 0xB6, 0xA3, 0xB0, 0xE8, 0x81, 0x01, 0x38, 0x88, 0x00, 0x10, 0x20, 0x27,
    0xB6, 0xA3, 0xB0, 0xE8, 0x90, 0x01, 0x3A, 0x8C, 0x01, 0xF2, 0xFF, 0xD2, 0xB6, 0xAB, 0x31, 0xE0,
];

// Of channels 0 and 5, both lost: an idle frame and the loss frames of both.
#[test]
fn lost_channels(rt: HostRuntime) -> Result<(), Fail> {
    if let Some(mut maker) = ChannelMaker::new(rt.alloc(), &[0, 5])? {
        for byte in &LOST {
            for _ in 0..2 {
                if maker.next_asked().is_some() {
                    maker.lost();
                }
            }
            if maker.next_asked().is_none() {
                assert_eq!(rt; maker.next_byte(), *byte);
            }
        }
    }
    Ok(())
}

// Channel 0 has 1111 and 2222, channel 5 has 5555: an idle frame, the three packets by turns, and an idle frame.
static WOVEN: [u8; 62] = [
    0xB6, 0xAB, 0x31, 0xE0, 0xB6, 0xA5, 0xD0, 0x2E, 0x11, 0x01, 0x20, 0x63, 0x00, 0x02, 0x20, 0x24,
    0x1D, 0x71, 0x75, 0x94, 0x03, 0x09, 0xB6, 0xA5, 0xD0, 0x2E, 0xBF, 0x2F, 0x92, 0xE3, 0x64, 0x37,
    0x1A, 0x07, 0x09, 0x39, 0xD0, 0xD3, 0x0C, 0x25, 0xB6, 0xA5, 0xD0, 0x2E, 0x36, 0x3B, 0x3A, 0x02,
    0x84, 0xA6, 0xC7, 0x67, 0x62, 0x72, 0x7A, 0x60, 0x52, 0xC9, 0xB6, 0xAB, 0x31, 0xE0,
];

// The packets of both channels, two bytes each.
static FIRST: [u8; 4] = [0x11, 0x11, 0x22, 0x22];

static SECOND: [u8; 2] = [0x55, 0x55];

#[test]
fn channels_take_turns(rt: HostRuntime) -> Result<(), Fail> {
    if let Some(mut maker) = ChannelMaker::new(rt.alloc(), &[0, 5])? {
        let mut first = FIRST.as_slice();
        let mut second = SECOND.as_slice();
        for byte in &WOVEN {
            for _ in 0..3 {
                match maker.next_asked() {
                    Some(0) => first = answer(&mut maker, first),
                    Some(_) => second = answer(&mut maker, second),
                    None => {}
                }
            }
            if maker.next_asked().is_none() {
                assert_eq!(rt; maker.next_byte(), *byte);
            }
        }
    }
    Ok(())
}

// The channel that is asked gives the next two of these bytes, or nothing: what is left.
fn answer<'a>(maker: &mut ChannelMaker, rest: &'a [u8]) -> &'a [u8] {
    if maker.next_asked().is_none() {
        return rest;
    }
    if rest.len() < 2 {
        maker.nothing();
        return rest;
    }
    let (packet, left) = rest.split_at(2);
    maker.give(packet);
    left
}

#[test]
fn bytes_are_given_in_blocks(rt: HostRuntime) -> Result<(), Fail> {
    if let Some(mut maker) = ChannelMaker::new(rt.alloc(), &[7])? {
        let mut made = [0u8; 6];
        let first = maker.give_bytes(&mut made);
        let then = maker.give_bytes(&mut made[4..]);
        assert_eq!(rt; (first, then, &made[..4]), (4, 0, &WOVEN[..4]));
    }
    let twice = ChannelMaker::new(rt.alloc(), &[7, 7])?.is_none();
    let nowhere = ChannelMaker::new(rt.alloc(), &[])?.is_none();
    assert_eq!(rt; (twice, nowhere), (true, true));
    Ok(())
}

// What arrives in these bytes, one line an arrival: the CID, and the packet or `!`.
fn read(reader: &mut ChannelReader, bytes: &[u8], found: &mut Vec<u8>) -> Result<(), Fail> {
    for byte in bytes {
        put(reader.take(*byte), found)?;
    }
    Ok(())
}

fn put(arrival: Option<Arrival<'_>>, found: &mut Vec<u8>) -> Result<(), Fail> {
    match arrival {
        Some(Arrival::Packet(cid, packet)) => {
            found.push(cid)?;
            found.extend_from_slice(packet)?;
        }
        Some(Arrival::Loss(cid)) => {
            found.push(cid)?;
            found.push(b'!')?;
        }
        None => {}
    }
    Ok(())
}

#[test]
fn packets_arrive_on_their_channels(rt: HostRuntime) -> Result<(), Fail> {
    let mut reader = ChannelReader::new(rt.alloc())?;
    let mut found = Vec::new(rt.alloc());
    read(&mut reader, &WOVEN, &mut found)?;
    assert!(rt; found.as_slice() == b"\x00\x11\x11\x05\x55\x55\x00\x22\x22".as_slice());
    Ok(())
}

// The same in blocks of a few bytes.
#[test]
fn packets_arrive_in_blocks(rt: HostRuntime) -> Result<(), Fail> {
    let mut reader = ChannelReader::new(rt.alloc())?;
    for size in &[1usize, 7, 62] {
        reader.restart();
        let mut found = Vec::new(rt.alloc());
        for piece in WOVEN.chunks((*size).max(1)) {
            let mut rest = piece;
            for _ in 0..piece.len() {
                let (count, arrival) = reader.take_some(rest);
                put(arrival, &mut found)?;
                rest = &rest[count..];
            }
        }
        assert!(rt; found.as_slice() == b"\x00\x11\x11\x05\x55\x55\x00\x22\x22".as_slice());
    }
    Ok(())
}

// Both channels' loss frames arrive, and none with a wrong bit in the eHEC of the first, which the descrambler passes
// on.
#[test]
fn losses_arrive(rt: HostRuntime) -> Result<(), Fail> {
    let mut reader = ChannelReader::new(rt.alloc())?;
    for (wrong, text) in &[(0u8, b"\x00!\x05!".as_slice()), (1, b"".as_slice())] {
        let mut stream = LOST;
        stream[15] ^= *wrong;
        reader.restart();
        let mut found = Vec::new(rt.alloc());
        read(&mut reader, &stream, &mut found)?;
        assert!(rt; found.as_slice() == *text);
    }
    Ok(())
}
