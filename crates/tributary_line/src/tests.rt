// A tributary put on a line, and taken from it again.
ghost use Rattle.std.specs.Prelude.{◌≡◌, ◌+◌, ◌*◌, length, vec_len};
ghost use Rattle.otn_base.specs.declared.limits.TheConstants.{GROUPS};
ghost use Rattle.tributary_line.specs.TapTurn.{IsBetweenTurns};

use crate::{Feed, Tap};
use otn_base::limits::{GROUPS, LINE_FRAME_BYTES};
use otn_base::{LineKind, Memory, Slots};
use port_base::{InPlaceOf, MemSink, MemSource, OutPlaceOf};
use std::alloc::Global;
use std::test::Fail;
use tributary_model::SinkState;

// Puts a turn of so many bytes, all alike.
fn put_turn(
    feed: &mut Feed,
    buffer: &mut Vec<u8>,
    count: usize,
    byte: u8,
    place: &mut OutPlaceOf<MemSink>,
)
    requires plain { feed.old.source.slots.kind ≡ LineKind.Otu2 }
    requires room { vec_len buffer.old ≡ length feed.old.source.slots.list * (GROUPS + 1) }
    ensures slots { feed.new.source.slots ≡ feed.old.source.slots }
    ensures room_stays { vec_len buffer.new ≡ vec_len buffer.old }
{
    let count = count.min(buffer.len());
    buffer[..count].fill(byte);
    feed.turn(buffer, 0..count, place);
}

// A line of three turns of 45,001, 45,000 and 45,001 bytes.
fn line_of(alloc: Global, slots: &Slots) -> Result<Vec<u8>, Memory>
    requires plain { slots.now.kind ≡ LineKind.Otu2 }
{
    let sink = MemSink::with_room(alloc, 24 * LINE_FRAME_BYTES)?;
    let mut place = OutPlaceOf::Live(sink, 0);
    let mut feed = Feed::new(alloc, 2, slots)?;
    let mut buffer = vec![in alloc; 0; slots.count() as usize * (GROUPS + 1)]?;
    put_turn(&mut feed, &mut buffer, 45_001, 1, &mut place);
    put_turn(&mut feed, &mut buffer, 45_000, 2, &mut place);
    put_turn(&mut feed, &mut buffer, 45_001, 3, &mut place);
    let mut line = Vec::new(alloc);
    line.extend_from_slice(place.kept().unwrap_or(&[]))?;
    Ok(line)
}

// How many bytes a turn emits.
fn take_turn(tap: &mut Tap, place: &mut InPlaceOf<MemSource>, room: &mut Vec<u8>) -> usize
    requires between { IsBetweenTurns tap.old }
    requires room { vec_len room.old ≡ length tap.old.sink.slots.list * (GROUPS + 1) }
    ensures between { IsBetweenTurns tap.new }
    ensures slots { tap.new.sink.slots ≡ tap.old.sink.slots }
    ensures room_stays { vec_len room.new ≡ vec_len room.old }
{
    let emitted = tap.turn(place, room);
    emitted.end - emitted.start
}

// What a sink of that line comes to: how it stands before its turns and after them, how many bytes each emits, and
// whether more came.
fn run_sink(
    alloc: Global,
    slots: &Slots,
    line: Vec<u8>,
) -> Result<(SinkState, [usize; 3], SinkState, bool), Memory>
    requires plain { slots.now.kind ≡ LineKind.Otu2 }
{
    let mut place = InPlaceOf::Live(MemSource::new(line), 0);
    let mut tap = Tap::new(alloc, 2, slots)?;
    let mut room = vec![in alloc; 0; slots.count() as usize * (GROUPS + 1)]?;
    let first = tap.state();
    let one = take_turn(&mut tap, &mut place, &mut room);
    let two = take_turn(&mut tap, &mut place, &mut room);
    let three = take_turn(&mut tap, &mut place, &mut room);
    let more = tap.ask_more(&mut place);
    Ok((first, [one, two, three], tap.state(), more))
}

#[test]
fn put_and_taken(rt: HostRuntime) -> Result<(), Fail> {
    let alloc = rt.alloc();
    let slots = Slots::new(&[1, 2, 5], LineKind::Otu2).ok_or("three slots")?;
    let line = line_of(alloc, &slots)?;
    assert_eq!(rt; line.len(), 24 * LINE_FRAME_BYTES);
    let (first, emitted, last, more) = run_sink(alloc, &slots, line)?;
    assert_eq!(rt; first, SinkState::Waiting);
    assert_eq!(rt; emitted.as_slice(), [0, 0, 45_001].as_slice());
    assert_eq!(rt; last, SinkState::Up);
    assert!(rt; !more);
    Ok(())
}
