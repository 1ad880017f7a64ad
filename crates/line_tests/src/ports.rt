// What proofs can't see: that calls succeed, and what the system does.
ghost use Rattle.std.specs.Prelude.{◌≤◌, IfOk};

use otn_base::limits::LINE_FRAME_BYTES;
use otn_ports::{
    Bays, Chooser, Failed, FileSink, FileSource, FirstReady, InPlace, InPlaceOf, InPort,
    ListedSink, ListedSource, MemSink, MemSource, OutPlace, OutPlaceOf, OutPort, ReaderSource,
    Reading, Sink, Source, SpoiledSource, StdoutSink, WriterSink, Written, write_whole,
};
use std::alloc::Global;
use std::cell::Cell;
use std::fs::File;
use std::io::{Error, ErrorKind, Read, Write};
use std::rc::Rc;
use std::test::Fail;
use std::{env, fs, io, process};

// Ten bytes, from 1.
fn ten(alloc: Global) -> Result<Vec<u8>, Fail> {
    Ok([1, 2, 3, 4, 5, 6, 7, 8, 9, 10].to_vec(alloc)?)
}

// The number that an input place or an output place counts.
fn taken<P>(place: &InPlaceOf<P>) -> u64 {
    match place {
        InPlaceOf::Empty => 0,
        InPlaceOf::Live(_, number) => *number,
        InPlaceOf::Dead(_, number) => *number,
    }
}

fn went<K>(place: &OutPlaceOf<K>) -> u64 {
    match place {
        OutPlaceOf::Empty => 0,
        OutPlaceOf::Retired(..) => 0,
        OutPlaceOf::Live(_, number) => *number,
        OutPlaceOf::Dead(_, number) => *number,
    }
}

fn is_dead<K>(place: &OutPlaceOf<K>) -> bool {
    matches!(place, OutPlaceOf::Dead(..))
}

#[test]
fn a_source_is_read_across_its_end(rt: HostRuntime) -> Result<(), Fail> {
    let mut place = InPlaceOf::Live(MemSource::new(ten(rt.alloc())?), 100);
    let mut into = [0u8; 4];
    for (reading, front, number) in [
        (Reading::Full, [1, 2, 3, 4], 104),
        (Reading::Full, [5, 6, 7, 8], 108),
        (Reading::End(2), [9, 10, 7, 8], 110),
        (Reading::End(0), [9, 10, 7, 8], 110),
    ] {
        let read = place.read_full(&mut into);
        assert_eq!(rt; (read, into, taken(&place)), (reading, front, number));
    }
    let nothing = place.read_full(&mut []);
    place.retire();
    let retired = place.read_full(&mut into);
    assert_eq!(rt;
        (nothing, retired, matches!(place, InPlaceOf::Empty)),
        (Reading::Full, Reading::End(0), true)
    );
    Ok(())
}

#[test]
fn a_sink_runs_out_of_room_in_mid_write(rt: HostRuntime) -> Result<(), Fail> {
    let alloc = rt.alloc();
    let mut place = OutPlaceOf::Live(MemSink::with_room(alloc, 10)?, 0);
    for (written, number, dead) in [
        (Written::Whole, 4, false),
        (Written::Whole, 8, false),
        (Written::Lost, 10, true),
        (Written::Whole, 10, true),
    ] {
        let write = place.write_all(&[1, 2, 3, 4]);
        assert_eq!(rt;
            (write, went(&place), is_dead(&place)),
            (written, number, dead)
        );
    }
    assert_eq!(rt;
        place.kept(),
        Some([1, 2, 3, 4, 1, 2, 3, 4, 1, 2].as_slice())
    );
    let mut report = MemSink::with_room(alloc, 3)?;
    let first = write_whole(&mut report, &[7, 8]);
    let second = write_whole(&mut report, &[9, 10]);
    assert_eq!(rt; (first, second), (Written::Whole, Written::Lost));
    assert_eq!(rt; report.into_bytes().as_slice(), [7, 8, 9].as_slice());
    Ok(())
}

#[test]
fn a_retired_sink_keeps_what_it_got(rt: HostRuntime) -> Result<(), Fail> {
    let mut place = OutPlaceOf::Live(MemSink::with_room(rt.alloc(), 10)?, 0);
    let before = place.write_all(&[1, 2, 3, 4]);
    place.retire();
    let after = place.write_all(&[5, 6]);
    place.retire();
    assert_eq!(rt;
        (before, after, went(&place), place.kept()),
        (
            Written::Whole,
            Written::Whole,
            0,
            Some([1, 2, 3, 4].as_slice())
        )
    );
    Ok(())
}

// Five where five bytes more were read or written.
fn five(more: bool) -> u64
    ensures { result ≤ 5 }
{
    if more { 5 } else { 0 }
}

#[test]
fn each_of_all_places_is_its_own(rt: HostRuntime) -> Result<(), Fail> {
    let alloc = rt.alloc();
    let mut bays = Bays::new(alloc)?;
    for n in 0..16_u8 {
        let source: Box<dyn Source> = Box::new(alloc, MemSource::new(ten(alloc)?))?;
        let sink: Box<dyn Sink> = Box::new(alloc, MemSink::with_room(alloc, 99)?)?;
        bays.set_client_in(n, InPlace::Live(InPort::Boxed(source), n as u64 + 1));
        bays.set_client_out(n, OutPlace::Live(OutPort::Boxed(sink), n as u64 + 21));
        if n < 4 {
            let source = InPort::Held(MemSource::new(ten(alloc)?));
            let sink = OutPort::Held(MemSink::with_room(alloc, 99)?);
            bays.set_line_in(n, InPlace::Live(source, n as u64 + 41));
            bays.set_line_out(n, OutPlace::Live(sink, n as u64 + 61));
        }
    }
    let mut into = [0u8; 5];
    let read = (
        bays.line_in_mut(3).read_full(&mut into),
        bays.client_in_mut(15).read_full(&mut into),
    );
    let wrote = (
        bays.line_out_mut(0).write_all(&into),
        bays.client_out_mut(7).write_all(&into),
    );
    assert_eq!(rt; read, (Reading::Full, Reading::Full));
    assert_eq!(rt; wrote, (Written::Whole, Written::Whole));
    for n in 0..16_u8 {
        assert_eq!(rt;
            (taken(bays.client_in(n)), went(bays.client_out(n))),
            (n as u64 + 1 + five(n == 15), n as u64 + 21 + five(n == 7))
        );
    }
    for n in 0..4_u8 {
        assert_eq!(rt;
            (taken(bays.line_in(n)), went(bays.line_out(n))),
            (n as u64 + 41 + five(n == 3), n as u64 + 61 + five(n == 0))
        );
    }
    Ok(())
}

#[test]
fn a_port_with_no_file_fails(rt: HostRuntime) -> Result<(), Fail> {
    let mut source = FileSource::of(None);
    let read = (source.read(&mut []), source.read(&mut [0; 3]));
    let mut sink = FileSink::of(None);
    let wrote = (sink.write(&[]), sink.write(&[1, 2, 3]));
    assert_eq!(rt; (read, wrote), ((Ok(0), Err(Failed)), (Ok(0), Err(Failed))));
    assert_eq!(rt; sink.kept(), None);
    let mut place = InPlaceOf::Live(source, 0);
    let read = (place.read_full(&mut [0; 3]), place.read_full(&mut [0; 3]));
    assert_eq!(rt; read, (Reading::Lost, Reading::End(0)));
    let mut out = StdoutSink::of(rt.stdout());
    let wrote = write_whole(&mut out, b"ports\n");
    assert_eq!(rt; (wrote, FirstReady::new().pick(3)), (Written::Whole, 0));
    Ok(())
}

// The system, where it interrupts so many calls and then moves one byte, or fails.
#[derive(Drop)]
struct Interrupting {
    calls: u8,
    fails: bool,
}

impl Interrupting {
    fn call(&mut self, len: usize) -> io::Result<usize>
        ensures { IfOk result (λ n. n ≤ len) }
    {
        if self.calls > 0 {
            self.calls -= 1;
            return Err(Error::from(ErrorKind::Interrupted));
        }
        if self.fails {
            return Err(Error::from(ErrorKind::Other));
        }
        Ok(len.min(1))
    }
}

impl Read for Interrupting {
    fn read(&mut self, into: &mut [u8]) -> io::Result<usize> {
        self.call(into.len())
    }
}

impl Write for Interrupting {
    fn write(&mut self, bytes: &[u8]) -> io::Result<usize> {
        self.call(bytes.len())
    }

    fn flush(&mut self) -> io::Result<()> {
        Ok(())
    }
}

#[test]
fn an_interrupted_call_is_tried_again(rt: HostRuntime) {
    for (fails, answer) in [(false, Ok(1)), (true, Err(Failed))] {
        let mut source = ReaderSource::over(Interrupting { calls: 3, fails });
        let mut sink = WriterSink::over(Interrupting { calls: 3, fails });
        assert_eq!(rt;
            (source.read(&mut [0; 2]), sink.write(&[1, 2])),
            (answer, answer)
        );
    }
}

#[test]
fn a_file_comes_back_as_it_was_written(rt: HostRuntime) -> Result<(), Fail> {
    let alloc = rt.alloc();
    let name = format!(in alloc; "otn-ports-{}", process::id(rt.process()))?;
    let mut path = env::temp_dir(&rt)?;
    path.push(name.as_str())?;
    let mut sink = OutPlaceOf::Live(FileSink::of(Some(File::create(&rt, &path)?)), 0);
    assert_eq!(rt; sink.write_all(ten(alloc)?.as_slice()), Written::Whole);
    drop(sink);
    let mut source = InPlaceOf::Live(FileSource::of(Some(File::open(&rt, &path)?)), 0);
    fs::remove_file(&rt, &path)?;
    let mut into = [0u8; 8];
    let read = source.read_full(&mut into);
    assert_eq!(rt; (read, into), (Reading::Full, [1, 2, 3, 4, 5, 6, 7, 8]));
    let read = source.read_full(&mut into);
    assert_eq!(rt; (read, into[0], into[1]), (Reading::End(2), 9, 10));
    Ok(())
}

#[test]
fn a_listed_source_fails_at_its_listed_calls(rt: HostRuntime) -> Result<(), Fail> {
    let alloc = rt.alloc();
    let failing = [2_u32, 4].to_vec(alloc)?;
    let mut source = ListedSource::new(ten(alloc)?, failing, 3);
    let mut into = [0u8; 4];
    for (answer, front) in [
        (Ok(3), [1, 2, 3, 0]),
        (Err(Failed), [1, 2, 3, 0]),
        (Ok(3), [4, 5, 6, 0]),
        (Err(Failed), [4, 5, 6, 0]),
        (Ok(3), [7, 8, 9, 0]),
        (Ok(1), [10, 8, 9, 0]),
        (Ok(0), [10, 8, 9, 0]),
    ] {
        let read = source.read(&mut into);
        assert_eq!(rt; (read, into), (answer, front));
    }
    Ok(())
}

#[test]
fn a_listed_sink_fails_at_its_listed_calls(rt: HostRuntime) -> Result<(), Fail> {
    let alloc = rt.alloc();
    let failing = [2_u32].to_vec(alloc)?;
    let mut sink = ListedSink::with_room(alloc, 6, failing)?;
    for answer in [Ok(4), Err(Failed), Ok(2), Err(Failed)] {
        assert_eq!(rt; sink.write(&[1, 2, 3, 4]), answer);
    }
    assert_eq!(rt; sink.kept(), Some([1, 2, 3, 4, 1, 2].as_slice()));
    Ok(())
}

#[test]
fn a_spoiled_source_changes_listed_places(rt: HostRuntime) -> Result<(), Fail> {
    let alloc = rt.alloc();
    let spoil = [(0_u64, 0xFF_u8), (4, 0x0F), (9, 0x01)].to_vec(alloc)?;
    let source = SpoiledSource::new(MemSource::new(ten(alloc)?), spoil);
    let mut place = InPlaceOf::Live(source, 0);
    let mut into = [0u8; 4];
    for (reading, front) in [
        (Reading::Full, [0xFE, 2, 3, 4]),
        (Reading::Full, [10, 6, 7, 8]),
        (Reading::End(2), [9, 11, 7, 8]),
    ] {
        let read = place.read_full(&mut into);
        assert_eq!(rt; (read, into), (reading, front));
    }
    Ok(())
}

// A pipe that takes at most 1,000 bytes a call.
#[derive(Drop)]
struct Pipe;

impl Write for Pipe {
    fn write(&mut self, bytes: &[u8]) -> io::Result<usize> {
        Ok(bytes.len().min(1_000))
    }

    fn flush(&mut self) -> io::Result<()> {
        Ok(())
    }
}

fn sevens(alloc: Global, n: usize) -> Result<Vec<u8>, Fail> {
    Ok(vec![in alloc; 7u8; n]?)
}

#[test]
fn a_short_write_is_told_as_it_was(rt: HostRuntime) -> Result<(), Fail> {
    let bytes = sevens(rt.alloc(), 1_904)?;
    let mut sink = WriterSink::over(Pipe);
    let first = sink.write(&bytes);
    let mut place = OutPlaceOf::Live(sink, 0);
    let whole = place.write_all(&bytes);
    assert_eq!(rt;
        (first, whole, went(&place)),
        (Ok(1_000), Written::Whole, 1_904)
    );
    Ok(())
}

// A sink that takes five bytes a call at most, and lists how many each of its first calls was given.
#[derive(Drop)]
struct CallList {
    given: [usize; 6],
    calls: usize,
}

impl CallList {
    fn list(&mut self, given: usize) {
        if self.calls < 6 {
            self.given[self.calls] = given;
            self.calls += 1;
        }
    }
}

impl Sink for CallList {
    ghost use Rattle.std.specs.Prelude.{None, false};

    ghost got = { λ _. None };

    ghost faults = { λ _. 0 };

    ghost keeps = { λ _. false };

    fn write(&mut self, bytes: &[u8]) -> Result<usize, Failed> {
        self.list(bytes.len());
        Ok(bytes.len().min(5))
    }

    fn kept(&self) -> Option<&[u8]> {
        None
    }
}

const LINES: &[u8] = b"ab\ncdefghi\n\nj\nkl";

#[test]
fn each_line_is_written_for_itself(rt: HostRuntime) {
    let mut sink = CallList {
        given: [0; 6],
        calls: 0,
    };
    let wrote = sink.write_lines(LINES);
    assert_eq!(rt;
        (wrote, sink.given),
        ((Written::Whole, 16), [3, 8, 3, 1, 2, 2])
    );
}

#[test]
fn lines_up_to_a_failed_call_went(rt: HostRuntime) -> Result<(), Fail> {
    let alloc = rt.alloc();
    let sink = ListedSink::with_room(alloc, 99, [3_u32].to_vec(alloc)?)?;
    let mut place = OutPlaceOf::Live(sink, 0);
    assert_eq!(rt; place.write_lines(LINES), (Written::Lost, 11));
    assert_eq!(rt; place.kept(), Some(b"ab\ncdefghi\n".as_slice()));
    assert_eq!(rt; place.write_lines(LINES), (Written::Whole, 0));
    Ok(())
}

// A writer that takes all and counts its calls.
#[derive(Drop)]
struct CountedWriter {
    calls: Rc<Cell<u32>>,
}

impl Write for CountedWriter {
    fn write(&mut self, bytes: &[u8]) -> io::Result<usize> {
        self.calls.set(self.calls.get().saturating_add(1));
        Ok(bytes.len())
    }

    fn flush(&mut self) -> io::Result<()> {
        Ok(())
    }
}

#[test]
fn a_writer_takes_all_lines_at_once(rt: HostRuntime) -> Result<(), Fail> {
    let alloc = rt.alloc();
    let calls = Rc::new(alloc, Cell::new(0_u32))?;
    let writer = CountedWriter {
        calls: calls.clone()?,
    };
    let sink: Box<dyn Sink> = Box::new(alloc, WriterSink::over(writer))?;
    let mut place = OutPlace::Live(OutPort::Boxed(sink), 0);
    let wrote = place.write_lines(LINES);
    assert_eq!(rt; (wrote, calls.get()), ((Written::Whole, 16), 1));
    Ok(())
}

#[test]
fn each_frame_is_written_for_itself(rt: HostRuntime) -> Result<(), Fail> {
    let alloc = rt.alloc();
    let sink = ListedSink::with_room(alloc, 99_999, [3_u32].to_vec(alloc)?)?;
    let mut place = OutPlaceOf::Live(sink, 0);
    let frames = vec![in alloc; 0u8; 4 * LINE_FRAME_BYTES]?;
    let wrote = (place.write_frames(&frames), place.write_frames(&frames));
    assert_eq!(rt;
        wrote,
        ((Written::Lost, 2 * LINE_FRAME_BYTES), (Written::Whole, 0))
    );
    Ok(())
}

#[test]
fn a_writer_takes_all_frames_at_once(rt: HostRuntime) -> Result<(), Fail> {
    let alloc = rt.alloc();
    let calls = Rc::new(alloc, Cell::new(0_u32))?;
    let writer = CountedWriter {
        calls: calls.clone()?,
    };
    let mut place = OutPlaceOf::Live(WriterSink::over(writer), 0);
    let frames = vec![in alloc; 0u8; 8 * LINE_FRAME_BYTES]?;
    let wrote = place.write_frames(&frames);
    assert_eq!(rt;
        (wrote, calls.get()),
        ((Written::Whole, 8 * LINE_FRAME_BYTES), 1)
    );
    Ok(())
}
