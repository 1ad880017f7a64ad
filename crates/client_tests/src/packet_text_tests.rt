// Whole texts, line by line.
ghost use Rattle.std.specs.Prelude.{◌≡◌, ◌≤◌, ◌*◌, length};

use hex::{decode_to_slice, encode};
use otn_ports::{
    InPlaceOf, ListedSink, ListedSource, MemSource, OutPlaceOf, ReadBlock, ReaderSource, Source,
    Written,
};
use packet_text::{ByteDigits, Line, PacketLines, decode_digits, write_packet};
use std::alloc::{AllocError, Global};
use std::io::Cursor;
use std::test::Fail;

// The lengths of the packets of a source, a thousand at most, the first byte of each, and the last answer.
fn packets<P: Source>(alloc: Global, source: P) -> Result<(Vec<usize>, Vec<u8>, Line), AllocError> {
    let mut place = InPlaceOf::Live(source, 0);
    let mut lines = PacketLines::new(alloc).map_err(|_memory| AllocError)?;
    let mut lengths = Vec::new(alloc);
    let mut firsts = Vec::new(alloc);
    for _ in 0..1000_u32 {
        let line = lines.take(&mut place);
        if line != Line::Packet {
            return Ok((lengths, firsts, line));
        }
        lengths.push(lines.packet().len())?;
        firsts.push(first(lines.packet()))?;
    }
    Ok((lengths, firsts, Line::Packet))
}

fn first(packet: &[u8]) -> u8 {
    match packet {
        [first, ..] => *first,
        [] => 0,
    }
}

#[test]
fn short_texts(rt: HostRuntime) -> Result<(), Fail> {
    let alloc = rt.alloc();
    let (lengths, firsts, line) = packets(
        alloc,
        MemSource::new(Vec::from_slice(alloc, b"0A0b\r\n\nff")?),
    )?;
    assert_eq!(rt; lengths.as_slice(), [2, 1].as_slice());
    assert_eq!(rt; firsts.as_slice(), [0x0A, 0xFF].as_slice());
    assert_eq!(rt; line, Line::End);
    let (lengths, _, line) = packets(
        alloc,
        MemSource::new(Vec::from_slice(alloc, b"0A0b\r\n\nabc\nff\n")?),
    )?;
    assert_eq!(rt; lengths.as_slice(), [2].as_slice());
    assert_eq!(rt; line, Line::Bad(3));
    Ok(())
}

// Digits of either case, and bytes beside them.
const NEAR: &[u8] = b"0459abcdefACF/:@G`g\0\xFF";

#[test]
fn pairs_are_what_the_library_says(rt: HostRuntime) -> Result<(), Fail> {
    let mut count = 0_u32;
    for first in NEAR {
        for second in NEAR {
            let digits = [*first, *second];
            let (mut kept, mut said) = ([0_u8], [0_u8]);
            let taken = decode_digits(&digits, &mut kept);
            assert_eq!(rt; taken, decode_to_slice(&digits, &mut said).is_ok());
            if taken {
                assert_eq!(rt; kept, said);
                count = count.saturating_add(1);
            }
        }
    }
    assert_eq!(rt; count, 13 * 13);
    Ok(())
}

// Whether the pairs and the library say the same of digits.
fn agree(digits: &[u8], kept: &mut [u8], said: &mut [u8]) -> bool
    requires { length digits.now ≡ 2 * length kept.old }
{
    let taken = decode_digits(digits, kept);
    let is_hex = decode_to_slice(digits, said).is_ok();
    taken == is_hex && (!taken || &*kept == &*said)
}

#[test]
fn blocks_are_what_the_library_says(rt: HostRuntime) -> Result<(), Fail> {
    let mut digits = [b'7'; 70];
    let (mut kept, mut said) = ([0_u8; 35], [0_u8; 35]);
    // each byte at each place of two blocks and one that overlaps
    for at in 0..70_usize {
        for byte in 0..=255_u8 {
            digits[at] = byte;
            assert!(rt; agree(&digits, &mut kept, &mut said));
        }
        digits[at] = b'0' + (at % 10) as u8;
    }
    // each pair at a place of these
    for first in 0..=255_u8 {
        for second in 0..=255_u8 {
            let at = 2 * ((first as usize + second as usize) % 35);
            let before = [digits[at], digits[at + 1]];
            digits[at] = first;
            digits[at + 1] = second;
            assert!(rt; agree(&digits, &mut kept, &mut said));
            digits[at] = before[0];
            digits[at + 1] = before[1];
        }
    }
    Ok(())
}

#[test]
fn the_last_pair_is_judged(rt: HostRuntime) -> Result<(), Fail> {
    let alloc = rt.alloc();
    for text in [b"ff\n00112g\n", b"ff\n0011g2\n", b"ff\n00112\0\n"] {
        let (lengths, _, line) = packets(alloc, MemSource::new(Vec::from_slice(alloc, text)?))?;
        assert_eq!(rt; lengths.as_slice(), [1].as_slice());
        assert_eq!(rt; line, Line::Bad(2));
    }
    Ok(())
}

// So many lines of packets of so many bytes.
fn lines_of(alloc: Global, bytes: usize, count: usize) -> Result<Vec<u8>, AllocError> {
    let mut text = Vec::new(alloc);
    for _ in 0..count {
        for _ in 0..bytes {
            text.push(b'7')?;
            text.push(b'7')?;
        }
        text.push(b'\n')?;
    }
    Ok(text)
}

#[test]
fn the_shortest_and_the_longest(rt: HostRuntime) -> Result<(), Fail> {
    let alloc = rt.alloc();
    for (bytes, count, line) in [
        (1_usize, 2_usize, Line::End),
        (65_527, 2, Line::End),
        (65_528, 0, Line::Bad(1)),
    ] {
        let (lengths, _, last) = packets(alloc, MemSource::new(lines_of(alloc, bytes, 2)?))?;
        assert_eq!(rt; lengths.len(), count);
        for length in lengths.as_slice() {
            assert_eq!(rt; *length, bytes);
        }
        assert_eq!(rt; last, line);
    }
    Ok(())
}

// So many lines, of packets of 1 to 120 bytes. Each byte of a packet is the number of its line, from 0, modulo 256.
fn numbered_lines(alloc: Global, count: u32) -> Result<Vec<u8>, AllocError> {
    let digits = b"0123456789abcdef";
    let mut text = Vec::new(alloc);
    for line in 0..count {
        for _ in 0..line % 120 + 1 {
            text.push(digits[(line / 16 % 16) as usize])?;
            text.push(digits[(line % 16) as usize])?;
        }
        text.push(b'\n')?;
    }
    Ok(text)
}

// The text of a file stands in blocks of 32,768 bytes, and is read there. It gives what the same text in memory does.
#[test]
fn a_text_is_read_where_it_stands(rt: HostRuntime) -> Result<(), Fail> {
    let alloc = rt.alloc();
    let text = numbered_lines(alloc, 990)?;
    let mut source = ReaderSource::over(Cursor::new(Vec::from_slice(alloc, &text)?));
    source.read_by_blocks(alloc, ReadBlock::Text);
    let mut file = InPlaceOf::Live(source, 0);
    let mut memory = InPlaceOf::Live(MemSource::new(text), 0);
    let mut of_file = PacketLines::new(alloc).map_err(|_memory| AllocError)?;
    let mut of_memory = PacketLines::new(alloc).map_err(|_memory| AllocError)?;
    for _ in 0..990_u32 {
        assert_eq!(rt; of_file.take(&mut file), Line::Packet);
        assert_eq!(rt; of_memory.take(&mut memory), Line::Packet);
        assert_eq!(rt; of_file.packet(), of_memory.packet());
    }
    assert_eq!(rt; of_file.take(&mut file), Line::End);
    Ok(())
}

#[test]
fn fails_at_the_third_read(rt: HostRuntime) -> Result<(), Fail> {
    let alloc = rt.alloc();
    let source = ListedSource::new(lines_of(alloc, 60, 200)?, [3_u32].to_vec(alloc)?, 4096);
    let (lengths, _, line) = packets(alloc, source)?;
    assert_eq!(rt; lengths.len(), 67);
    for length in lengths.as_slice() {
        assert_eq!(rt; *length, 60);
    }
    assert_eq!(rt; line, Line::Lost);
    Ok(())
}

// Digits, so many, behind a text.
fn digits_behind(alloc: Global, text: &[u8], count: u32) -> Result<Vec<u8>, AllocError> {
    let mut bytes = Vec::from_slice(alloc, text)?;
    for _ in 0..count {
        bytes.push(b'7')?;
    }
    Ok(bytes)
}

// The first answer that is no packet, of a place whose source fails at the call of this number; how often it is given
// in three more calls; and whether the place is live then.
fn last_answer(
    alloc: Global,
    text: Vec<u8>,
    failing: u32,
) -> Result<(Line, u32, bool), AllocError> {
    let source = ListedSource::new(text, [failing].to_vec(alloc)?, 4096);
    let mut place = InPlaceOf::Live(source, 0);
    let mut lines = PacketLines::new(alloc).map_err(|_memory| AllocError)?;
    let mut last = Line::Packet;
    for _ in 0..100_u32 {
        if last == Line::Packet {
            last = lines.take(&mut place);
        }
    }
    let mut again = 0_u32;
    for _ in 0..3_u32 {
        if lines.take(&mut place) == last {
            again = again.saturating_add(1);
        }
    }
    Ok((last, again, is_live(&place)))
}

fn is_live<P>(place: &InPlaceOf<P>) -> bool {
    matches!(place, InPlaceOf::Live(..))
}

// The source's next call would fail, and is not made: behind the end of the text, a bad line, and 32 blocks without LF.
#[test]
fn nothing_is_read_behind_the_last_answer(rt: HostRuntime) -> Result<(), Fail> {
    let alloc = rt.alloc();
    let ends = Vec::from_slice(alloc, b"ff\n01")?;
    assert_eq!(rt; last_answer(alloc, ends, 3)?, (Line::End, 3, true));
    let bad = digits_behind(alloc, b"ff\nabc\n", 5000)?;
    assert_eq!(rt; last_answer(alloc, bad, 2)?, (Line::Bad(2), 3, true));
    let long = digits_behind(alloc, b"", 140_000)?;
    assert_eq!(rt; last_answer(alloc, long, 33)?, (Line::Bad(1), 3, true));
    let lost = lines_of(alloc, 60, 100)?;
    assert_eq!(rt; last_answer(alloc, lost, 3)?, (Line::Lost, 3, false));
    Ok(())
}

// The sink fails at its third write: two lines went out by then.
#[test]
fn a_line_is_one_write(rt: HostRuntime) -> Result<(), Fail> {
    let alloc = rt.alloc();
    let sink = ListedSink::with_room(alloc, 16, [3_u32].to_vec(alloc)?).map_err(
        |_memory| AllocError,
    )?;
    let mut place = OutPlaceOf::Live(sink, 0);
    let mut text = [0_u8; 9];
    for (packet, written) in [
        ([0x0A_u8, 0xFF], Written::Whole),
        ([0x00, 0x10], Written::Whole),
        ([0x11, 0x22], Written::Lost),
    ] {
        assert_eq!(rt; write_packet(&mut place, &packet, &mut text), written);
    }
    assert_eq!(rt; place.kept(), Some(b"0aff\n0010\n".as_slice()));
    assert!(rt; matches!(place, OutPlaceOf::Dead(_, 10)));
    Ok(())
}

// A packet's line by the kept digits, and how long it is said to be, in a slice with a byte more.
fn kept_line(alloc: Global, packet: &[u8]) -> Result<(Vec<u8>, usize), AllocError>
    requires { length packet.now ≤ 256 }
{
    let mut text = vec![in alloc; b'?'; 2 * packet.len() + 2]?;
    let n = ByteDigits::new().put_line(packet, &mut text);
    Ok((text, n))
}

// The line that the library's digits and LF make, with a byte more.
fn said_line(alloc: Global, packet: &[u8]) -> Result<Vec<u8>, AllocError> {
    let mut text = Vec::from_slice(alloc, encode(alloc, packet)?.as_bytes())?;
    text.push(b'\n')?;
    text.push(b'?')?;
    Ok(text)
}

// The bytes in order.
fn all_bytes() -> [u8; 256] {
    let mut bytes = [0_u8; 256];
    for i in 0..256_usize {
        bytes[i] = i as u8;
    }
    bytes
}

#[test]
fn kept_lines_are_what_the_library_makes(rt: HostRuntime) -> Result<(), Fail> {
    let alloc = rt.alloc();
    let all = all_bytes();
    for (from, to) in [
        (0_usize, 1_usize),
        (255, 256),
        (0x9A, 0xAB),
        (7, 7),
        (240, 256),
        (0x3A, 0x7B),
        (0, 256),
    ] {
        let (text, n) = kept_line(alloc, &all[from..to])?;
        assert_eq!(rt;
            text.as_slice(),
            said_line(alloc, &all[from..to])?.as_slice()
        );
        assert_eq!(rt; n, 2 * (to - from) + 1);
    }
    let (text, _) = kept_line(alloc, b"\x01\x23\x45\x67\x89\xAB\xCD\xEF\xFE")?;
    assert_eq!(rt; text.as_slice(), b"0123456789abcdeffe\n?".as_slice());
    Ok(())
}
