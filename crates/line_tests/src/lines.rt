// Whole lines, piece by piece.
ghost use Rattle.std.specs.Prelude.{None};
ghost use Rattle.port_base.specs.Memory.{memory_ended};

use line_side::{LineCounts, LineIn, LineOut};
use msi_table::SlotMap;
use otn_base::limits::LINE_FRAME_BYTES;
use otn_base::{LineKind, Slots};
use otn_ports::{
    Failed, InPlaceOf, MemSink, MemSource, OutPlaceOf, ReadBlock, ReaderSource, Source,
};
use std::alloc::{AllocError, Global};
use std::cell::Cell;
use std::io;
use std::io::{Cursor, Read};
use std::rc::Rc;
use std::test::Fail;

// A source that fails at the read after so many.
#[derive(Drop)]
struct FailsAfter {
    source: MemSource,
    reads: u32,
    failed: u64,
}

impl Source for FailsAfter {
    ghost left = { λ _. None };

    ghost faults = { λ s. s.failed };

    ghost ended = { λ s. memory_ended s.source };

    fn read(&mut self, into: &mut [u8]) -> Result<usize, Failed> {
        if self.reads == 0 {
            self.failed = self.failed.saturating_add(1);
            return Err(Failed);
        }
        self.reads -= 1;
        self.source.read(into)
    }

    fn pass(&mut self, _n: usize) {}
}

// The bytes of frames with these MFAS bytes, and others behind them. Byte 20 of a frame is its number.
fn line(alloc: Global, mfas: &[u8], rest: usize) -> Result<Vec<u8>, AllocError> {
    let mut bytes = Vec::new(alloc);
    let mut number = 0_u8;
    for first in mfas {
        for place in 0..LINE_FRAME_BYTES {
            bytes.push(match place {
                6 => *first,
                20 => number,
                _ => 0,
            })?;
        }
        number = number.wrapping_add(1);
    }
    for _ in 0..rest {
        bytes.push(0)?;
    }
    Ok(bytes)
}

// The MFAS bytes of so many frames from one on.
fn from(alloc: Global, first: u8, count: usize) -> Result<Vec<u8>, AllocError> {
    let mut mfas = Vec::new(alloc);
    let mut next = first;
    for _ in 0..count {
        mfas.push(next)?;
        next = next.wrapping_add(1);
    }
    Ok(mfas)
}

// Does the turns of a line until it has ended, a hundred at most: for each turn the number of the first frame of its
// multiframe, or 255 where it has none.
fn turns<P: Source>(
    alloc: Global,
    source: P,
    kind: LineKind,
    scrambled: bool,
) -> Result<(Vec<u8>, LineCounts, bool), AllocError> {
    let mut place = InPlaceOf::Live(source, 0);
    let mut line = LineIn::new(alloc, kind, scrambled).map_err(|_memory| AllocError)?;
    let mut firsts = Vec::new(alloc);
    for _ in 0..100_u8 {
        if line.ended() {
            break;
        }
        let mut first = 255;
        for n in 0..kind.slots() {
            if line.piece(&mut place) && n == 0 {
                first = line.frame().get(1, 21);
            }
        }
        firsts.push(if line.end_turn() { first } else { 255 })?;
    }
    Ok((firsts, line.counts(), line.end_seen()))
}

#[test]
fn lead_in_and_rest(rt: HostRuntime) -> Result<(), Fail> {
    let alloc = rt.alloc();
    let mfas = from(alloc, 3, 69)?;
    let (firsts, counts, end_seen) = turns(
        alloc,
        MemSource::new(line(alloc, &mfas, 100)?),
        LineKind::Otu2,
        false,
    )?;
    assert_eq!(rt;
        (firsts.as_slice(), end_seen),
        ([5, 13, 21, 29, 37, 45, 53, 61, 255].as_slice(), true)
    );
    assert_eq!(rt;
        counts,
        LineCounts {
            frames: 69,
            lead_in: 5,
            lost: 0,
            rest: 100,
            fas: 69,
            sm: 66,
            pm: 66
        }
    );
    Ok(())
}

// A reader of bytes that counts its calls.
#[derive(Drop)]
struct Counting {
    bytes: Cursor<Vec<u8>>,
    calls: Rc<Cell<u32>>,
}

impl Read for Counting {
    fn read(&mut self, into: &mut [u8]) -> io::Result<usize> {
        self.calls.set(self.calls.get().saturating_add(1));
        self.bytes.read(into)
    }
}

// A line of a reader gives what the same line in memory does, and looks ahead by four frames, also where its source was
// not told to go by blocks: 18 calls of the reader bring 69 frames and what is over, and one or two find the end.
#[test]
fn a_line_looks_ahead_by_four_frames(rt: HostRuntime) -> Result<(), Fail> {
    let alloc = rt.alloc();
    let bytes = line(alloc, &from(alloc, 3, 69)?, 100)?;
    let in_memory = MemSource::new(bytes.to_vec(alloc)?);
    let wanted = turns(alloc, in_memory, LineKind::Otu2, false)?;
    for by_blocks in [true, false] {
        let calls = Rc::new(alloc, Cell::new(0_u32))?;
        let mut source = ReaderSource::over(Counting {
            bytes: Cursor::new(bytes.to_vec(alloc)?),
            calls: calls.clone()?,
        });
        if by_blocks {
            source.read_by_blocks(alloc, ReadBlock::Frames);
        }
        assert!(rt; turns(alloc, source, LineKind::Otu2, false)? == wanted);
        assert!(rt; calls.get() == 19 || calls.get() == 20);
    }
    Ok(())
}

#[test]
fn short_lines(rt: HostRuntime) -> Result<(), Fail> {
    let alloc = rt.alloc();
    for (count, wrong) in [(0, 0), (7, 4)] {
        let mfas = from(alloc, 0, count)?;
        let (firsts, counts, end_seen) = turns(
            alloc,
            MemSource::new(line(alloc, &mfas, 0)?),
            LineKind::Otu2,
            false,
        )?;
        assert_eq!(rt; (firsts.as_slice(), end_seen), ([255].as_slice(), true));
        assert_eq!(rt;
            counts,
            LineCounts {
                frames: count as u64,
                lead_in: 0,
                lost: 0,
                rest: 0,
                fas: count as u64,
                sm: wrong,
                pm: wrong
            }
        );
    }
    Ok(())
}

#[test]
fn lost_and_found(rt: HostRuntime) -> Result<(), Fail> {
    let alloc = rt.alloc();
    let mfas = [
        0, 1, 2, 3, 4, 5, 6, 7, 8, 9, 10, 0, 0, 0, 0, 0, 16, 17, 18, 19, 0, 0, 0, 0, 24, 25, 26,
        27, 28, 29, 30, 31,
    ];
    let (firsts, counts, _) = turns(
        alloc,
        MemSource::new(line(alloc, &mfas, 0)?),
        LineKind::Otu2,
        false,
    )?;
    assert_eq!(rt; firsts.as_slice(), [0, 255, 16, 24, 255].as_slice());
    assert_eq!(rt;
        counts,
        LineCounts {
            frames: 32,
            lead_in: 0,
            lost: 1,
            rest: 0,
            fas: 32,
            sm: 29,
            pm: 29
        }
    );
    Ok(())
}

#[test]
fn a_line_of_32(rt: HostRuntime) -> Result<(), Fail> {
    let alloc = rt.alloc();
    let mfas = from(alloc, 62, 70)?;
    let (firsts, counts, _) = turns(
        alloc,
        MemSource::new(line(alloc, &mfas, 0)?),
        LineKind::Otu3,
        false,
    )?;
    assert_eq!(rt;
        (
            firsts.as_slice(),
            counts.frames,
            counts.lead_in,
            counts.lost
        ),
        ([2, 34, 255].as_slice(), 70, 2, 0)
    );
    Ok(())
}

#[test]
fn dies_in_a_turn(rt: HostRuntime) -> Result<(), Fail> {
    let alloc = rt.alloc();
    let mfas = from(alloc, 0, 20)?;
    let source = FailsAfter {
        source: MemSource::new(line(alloc, &mfas, 0)?),
        reads: 12,
        failed: 0,
    };
    let (firsts, counts, end_seen) = turns(alloc, source, LineKind::Otu2, false)?;
    assert_eq!(rt; (firsts.as_slice(), end_seen), ([0, 255].as_slice(), false));
    assert_eq!(rt;
        counts,
        LineCounts {
            frames: 12,
            lead_in: 0,
            lost: 0,
            rest: 0,
            fas: 12,
            sm: 9,
            pm: 9
        }
    );
    Ok(())
}

// The byte at a place.
fn at(bytes: &[u8], place: usize) -> u8 {
    match bytes.get(place) {
        Some(byte) => *byte,
        None => 255,
    }
}

// Makes so many frames of line 2, each with one byte in its FEC columns, for a sink with this room. Says what the sink
// got, and how many frames count.
fn written(
    alloc: Global,
    frames: u8,
    room: usize,
    map: &SlotMap,
    kind: LineKind,
    scrambled: bool,
) -> Result<(Vec<u8>, u64), AllocError> {
    let mut out = LineOut::new(alloc, 2, kind, scrambled).map_err(|_memory| AllocError)?;
    let mut place = OutPlaceOf::Live(
        MemSink::with_room(alloc, room).map_err(|_memory| AllocError)?,
        0,
    );
    for mfas in 0..frames {
        if mfas % 2 == 0 {
            out.begin().set(4, 3825, 9);
        } else {
            let frame = out.begin_whole();
            frame.clear();
            frame.set(4, 3825, 9);
        }
        out.finish(mfas, map, &mut place);
    }
    let mut bytes = Vec::new(alloc);
    bytes.extend_from_slice(place.kept().unwrap_or(&[]))?;
    Ok((bytes, out.frames()))
}

#[test]
fn frames_of_a_free_line(rt: HostRuntime) -> Result<(), Fail> {
    let alloc = rt.alloc();
    for kind in [LineKind::Otu2, LineKind::Otu3] {
        let (bytes, frames) = written(alloc, 9, 200_000, &SlotMap::new(kind), kind, false)?;
        // the ninth waits for seven more
        assert_eq!(rt; (frames, bytes.len()), (8, 8 * LINE_FRAME_BYTES));
        for (frame, tti, bip) in [
            (0_usize, 0_u8, 0_u8),
            (1, b'L', 0),
            (2, b'I', 0x21),
            (3, b'N', 0),
            (4, b'E', 0xC0),
            (5, b'-', 0xC0),
            (6, b'2', 0xC0),
            (7, 0, 0xC0),
        ] {
            let start = LINE_FRAME_BYTES * frame;
            let section = [
                at(&bytes, start),
                at(&bytes, start + 6),
                at(&bytes, start + 7),
                at(&bytes, start + 8),
            ];
            let path = [
                at(&bytes, start + 8169),
                at(&bytes, start + 8170),
                at(&bytes, start + 8171),
            ];
            assert_eq!(rt;
                section,
                [0xF6, frame as u8, tti, bip],
                "FAS, MFAS, SM TTI and BIP-8 of frame {frame}"
            );
            assert_eq!(rt;
                path,
                [tti, bip, 1],
                "PM TTI, BIP-8 and STAT of frame {frame}"
            );
            assert_eq!(rt; at(&bytes, start + 16064), 0, "FEC of frame {frame}");
        }
    }
    Ok(())
}

#[test]
fn a_scrambled_line(rt: HostRuntime) -> Result<(), Fail> {
    let alloc = rt.alloc();
    let kind = LineKind::Otu2;
    let (bytes, _) = written(alloc, 16, 300_000, &SlotMap::new(kind), kind, true)?;
    let (read, counts, _) = turns(alloc, MemSource::new(bytes), kind, true)?;
    assert_eq!(rt; read.as_slice(), [0, 0, 255].as_slice());
    assert_eq!(rt;
        (
            counts.frames,
            counts.lead_in,
            counts.fas,
            counts.sm,
            counts.pm
        ),
        (16, 0, 0, 0, 0)
    );

    let (bytes, _) = written(alloc, 16, 300_000, &SlotMap::new(kind), kind, true)?;
    assert_eq!(rt;
        bytes.get(..10),
        Some([0xF6, 0xF6, 0xF6, 0x28, 0x28, 0x28, 0xFF, 0xFF, 0x4E, 0x91].as_slice())
    );
    let (plain, counts, _) = turns(alloc, MemSource::new(bytes), kind, false)?;
    assert_eq!(rt;
        (plain.as_slice(), counts.frames, counts.lead_in, counts.fas),
        ([255, 255, 255].as_slice(), 16, 16, 0)
    );
    Ok(())
}

#[test]
fn a_line_that_dies(rt: HostRuntime) -> Result<(), Fail> {
    let alloc = rt.alloc();
    let kind = LineKind::Otu2;
    let mut map = SlotMap::new(kind);
    let slots = Slots::new(&[1, 2, 8], kind).ok_or("three slots that rise")?;
    map.allot(&slots, 2);
    for (made, room, whole) in [
        (8_u8, 2 * LINE_FRAME_BYTES + 7, 2_u64),
        (16, 2 * LINE_FRAME_BYTES + 7, 2),
        (16, 10 * LINE_FRAME_BYTES, 10),
        (24, 15 * LINE_FRAME_BYTES + 1, 15),
    ] {
        let (bytes, frames) = written(alloc, made, room, &map, kind, false)?;
        // byte 12,254 is PSI[0]
        assert_eq!(rt;
            (frames, bytes.len(), at(&bytes, 12254)),
            (whole, room, 0x21)
        );
    }
    Ok(())
}
