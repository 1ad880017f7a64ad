// A source that looks ahead: what it asks its reader for, and what it gives then.
use otn_base::limits::LINE_FRAME_BYTES;
use otn_ports::{
    Failed, FileSource, InPlace, InPlaceOf, InPort, MemSource, ReadBlock, ReaderSource, Reading,
    Source,
};
use std::alloc::Global;
use std::cell::Cell;
use std::io;
use std::io::{Cursor, Error, ErrorKind, Read};
use std::rc::Rc;
use std::test::Fail;

// A reader that gives at most five bytes a call, each of them the number of the call, from 1, and refuses one call.
#[derive(Drop)]
struct Numbered {
    calls: Rc<Cell<u8>>,
    refused: u8,
    kind: ErrorKind,
}

impl Read for Numbered {
    fn read(&mut self, into: &mut [u8]) -> io::Result<usize> {
        let call = self.calls.get().saturating_add(1);
        self.calls.set(call);
        if call == self.refused {
            return Err(Error::from(self.kind));
        }
        let n = into.len().min(5);
        into[..n].fill(call);
        Ok(n)
    }
}

// A source over such a reader, whose calls are counted there. Call 0 is none.
fn source(
    calls: &Rc<Cell<u8>>,
    refused: u8,
    kind: ErrorKind,
) -> Result<ReaderSource<Numbered>, Fail> {
    Ok(ReaderSource::over(Numbered {
        calls: calls.clone()?,
        refused,
        kind,
    }))
}

fn counted(alloc: Global) -> Result<Rc<Cell<u8>>, Fail> {
    Ok(Rc::new(alloc, Cell::new(0_u8))?)
}

#[test]
fn bytes_at_hand_come_first(rt: HostRuntime) -> Result<(), Fail> {
    let calls = counted(rt.alloc())?;
    let mut source = source(&calls, 0, ErrorKind::Other)?;
    let mut into = [0u8; 3];
    source.look_ahead(rt.alloc());
    assert_eq!(rt; source.peek(), [1, 1, 1, 1, 1].as_slice());
    for (answer, front, left, asked) in [
        (Ok(3), [1, 1, 1], 2_usize, 1_u8),
        (Ok(2), [1, 1, 1], 0, 1),
        (Ok(3), [2, 2, 2], 0, 2),
    ] {
        let read = source.read(&mut into);
        assert_eq!(rt;
            (read, into, source.peek().len(), calls.get()),
            (answer, front, left, asked)
        );
    }
    Ok(())
}

#[test]
fn a_source_with_bytes_at_hand_asks_for_none(rt: HostRuntime) -> Result<(), Fail> {
    let calls = counted(rt.alloc())?;
    let mut source = source(&calls, 0, ErrorKind::Other)?;
    source.look_ahead(rt.alloc());
    source.look_ahead(rt.alloc());
    let once = calls.get();
    let read = source.read(&mut [0; 5]);
    source.look_ahead(rt.alloc());
    assert_eq!(rt; (once, read, calls.get()), (1, Ok(5), 2));
    assert_eq!(rt; source.peek(), [2, 2, 2, 2, 2].as_slice());
    Ok(())
}

#[test]
fn the_next_read_answers_a_refusal(rt: HostRuntime) -> Result<(), Fail> {
    let calls = counted(rt.alloc())?;
    let mut source = source(&calls, 1, ErrorKind::Other)?;
    source.look_ahead(rt.alloc());
    source.look_ahead(rt.alloc());
    assert_eq!(rt; (source.peek().len(), calls.get()), (0, 1));
    for (answer, asked) in [(Err(Failed), 1_u8), (Ok(3), 2), (Ok(3), 3)] {
        let read = source.read(&mut [0; 3]);
        assert_eq!(rt; (read, calls.get()), (answer, asked));
    }
    Ok(())
}

#[test]
fn an_interrupted_look_ahead_is_made_again(rt: HostRuntime) -> Result<(), Fail> {
    let calls = counted(rt.alloc())?;
    let mut source = source(&calls, 1, ErrorKind::Interrupted)?;
    source.look_ahead(rt.alloc());
    assert_eq!(rt; source.peek(), [2, 2, 2, 2, 2].as_slice());
    Ok(())
}

// By blocks: what came is given by small pieces, the second call of the reader is refused, and a read that is as large
// as the block goes without it.
#[test]
fn small_reads_go_by_blocks(rt: HostRuntime) -> Result<(), Fail> {
    let calls = counted(rt.alloc())?;
    let mut source = source(&calls, 2, ErrorKind::Other)?;
    source.read_by_blocks(rt.alloc(), ReadBlock::Text);
    assert_eq!(rt; calls.get(), 0);
    let mut into = [0u8; 3];
    for (answer, byte, left, asked) in [
        (Ok(3), 1_u8, 2_usize, 1_u8),
        (Ok(2), 1, 0, 1),
        (Err(Failed), 1, 0, 2),
        (Ok(3), 3, 2, 3),
        (Ok(2), 3, 0, 3),
        (Ok(3), 4, 2, 4),
    ] {
        let read = source.read(&mut into);
        assert_eq!(rt;
            (read, into[0], source.peek().len(), calls.get()),
            (answer, byte, left, asked)
        );
    }
    let rest = source.read(&mut into);
    let mut large = zeros(rt.alloc(), 40_000)?;
    let read = source.read(&mut large);
    assert_eq!(rt; (rest, read, source.peek().len()), (Ok(2), Ok(5), 0));
    Ok(())
}

// A reader that gives as much as it is asked for, each byte the number of the call, and counts its calls and what the
// last one asked.
#[derive(Drop)]
struct Filling {
    calls: Rc<Cell<u8>>,
    asked: Rc<Cell<usize>>,
}

impl Read for Filling {
    fn read(&mut self, into: &mut [u8]) -> io::Result<usize> {
        self.calls.set(self.calls.get().saturating_add(1));
        self.asked.set(into.len());
        into.fill(self.calls.get());
        Ok(into.len())
    }
}

#[test]
fn a_line_is_read_by_four_frames(rt: HostRuntime) -> Result<(), Fail> {
    let calls = counted(rt.alloc())?;
    let asked = Rc::new(rt.alloc(), Cell::new(0_usize))?;
    let mut source = ReaderSource::over(Filling {
        calls: calls.clone()?,
        asked: asked.clone()?,
    });
    source.read_by_blocks(rt.alloc(), ReadBlock::Frames);
    let mut frame = zeros(rt.alloc(), LINE_FRAME_BYTES)?;
    for made in [1_u8, 1, 1, 1, 2] {
        let read = source.read(&mut frame);
        assert_eq!(rt;
            (read, calls.get(), asked.get()),
            (Ok(LINE_FRAME_BYTES), made, 4 * LINE_FRAME_BYTES)
        );
    }
    Ok(())
}

// A frame at hand is shared where it stands. While it is held on to, its source asks for what is read, and puts nothing
// into the block.
#[test]
fn what_is_held_on_to_stays(rt: HostRuntime) -> Result<(), Fail> {
    let calls = counted(rt.alloc())?;
    let asked = Rc::new(rt.alloc(), Cell::new(0_usize))?;
    let mut source = ReaderSource::over(Filling {
        calls: calls.clone()?,
        asked: asked.clone()?,
    });
    source.read_by_blocks(rt.alloc(), ReadBlock::Frames);
    let mut place = InPlaceOf::Live(source, 0);
    let mut frame = zeros(rt.alloc(), LINE_FRAME_BYTES)?;
    let before = place.share(LINE_FRAME_BYTES).is_none();
    let first = place.read_full(&mut frame);
    let too_many = place.share(3 * LINE_FRAME_BYTES + 1).is_none();
    assert_eq!(rt; (before, first, too_many), (true, Reading::Full, true));
    let held = place.share(LINE_FRAME_BYTES);
    assert_eq!(rt;
        pass_some(&mut place, 4 * LINE_FRAME_BYTES),
        3 * LINE_FRAME_BYTES
    );
    let second = place.read_full(&mut frame);
    assert_eq!(rt;
        (second, all_are(&frame, 2), calls.get(), asked.get()),
        (Reading::Full, true, 2, LINE_FRAME_BYTES)
    );
    let stays = held.is_some_and(|bytes| all_are(bytes.as_bytes(), 1));
    let third = place.read_full(&mut frame);
    assert_eq!(rt;
        (stays, third, all_are(&frame, 3), calls.get(), asked.get()),
        (true, Reading::Full, true, 3, 4 * LINE_FRAME_BYTES)
    );
    Ok(())
}

// Whether all of these bytes are this one.
fn all_are(bytes: &[u8], wanted: u8) -> bool {
    bytes.iter().all(|byte| *byte == wanted)
}

// So many bytes.
fn zeros(alloc: Global, n: usize) -> Result<Vec<u8>, Fail> {
    Ok(vec![in alloc; 0u8; n]?)
}

// A file of text ends where it does, by blocks too.
#[test]
fn the_end_comes_behind_the_last_block(rt: HostRuntime) -> Result<(), Fail> {
    let mut source = ReaderSource::over(Cursor::new(zeros(rt.alloc(), 7)?));
    source.read_by_blocks(rt.alloc(), ReadBlock::Text);
    let mut into = [0u8; 4];
    for answer in [Ok(4), Ok(3), Ok(0), Ok(0)] {
        assert_eq!(rt; source.read(&mut into), answer);
    }
    Ok(())
}

// Goes past so many bytes of those that the place lends, at most, and says how many.
fn pass_some<S: Source>(place: &mut InPlaceOf<S>, most: usize) -> usize {
    let n = place.peek().len().min(most);
    if n > 0 {
        place.pass(n);
    }
    n
}

// The number that a place counts.
fn taken<S>(place: &InPlaceOf<S>) -> u64 {
    match place {
        InPlaceOf::Empty => 0,
        InPlaceOf::Live(_, number) => *number,
        InPlaceOf::Dead(_, number) => *number,
    }
}

#[test]
fn a_place_counts_the_bytes_that_it_goes_past(rt: HostRuntime) -> Result<(), Fail> {
    let calls = counted(rt.alloc())?;
    let source: Box<dyn Source> = Box::new(rt.alloc(), source(&calls, 0, ErrorKind::Other)?)?;
    let mut place = InPlace::Live(InPort::Boxed(source), 100);
    let mut into = [0u8; 4];
    place.look_ahead(rt.alloc());
    let before = taken(&place);
    let passed = pass_some(&mut place, 2);
    assert_eq!(rt; (before, passed, taken(&place)), (100, 2, 102));
    assert_eq!(rt; place.peek(), [1, 1, 1].as_slice());
    let read = place.read_full(&mut into);
    assert_eq!(rt;
        (read, into, taken(&place)),
        (Reading::Full, [1, 1, 1, 2], 106)
    );
    Ok(())
}

#[test]
fn a_place_dies_at_the_read_and_not_before(rt: HostRuntime) -> Result<(), Fail> {
    let calls = counted(rt.alloc())?;
    let mut place = InPlaceOf::Live(source(&calls, 1, ErrorKind::Other)?, 0);
    place.look_ahead(rt.alloc());
    let lives = matches!(place, InPlaceOf::Live(..));
    let read = place.read_full(&mut [0; 4]);
    let is_dead = matches!(place, InPlaceOf::Dead(..));
    place.look_ahead(rt.alloc());
    assert_eq!(rt; (lives, read, is_dead), (true, Reading::Lost, true));
    assert_eq!(rt; (place.peek().len(), calls.get()), (0, 1));
    Ok(())
}

#[test]
fn a_source_with_no_file_has_nothing_at_hand(rt: HostRuntime) -> Result<(), Fail> {
    let mut none = FileSource::of(None);
    none.look_ahead(rt.alloc());
    let none_has = none.peek().len();
    let none_gives = none.read(&mut [0; 3]);
    let mut held = MemSource::new([1, 2].to_vec(rt.alloc())?);
    held.look_ahead(rt.alloc());
    let held_has = held.peek().len();
    let held_gives = held.read(&mut [0; 3]);
    assert_eq!(rt; (none_has, none_gives), (0, Err(Failed)));
    assert_eq!(rt; (held_has, held_gives), (0, Ok(2)));
    Ok(())
}
