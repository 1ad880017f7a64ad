// Sources on turns whose pairs and messages are known by hand.
ghost use Rattle.std.specs.Prelude.{◌≡◌, ◌+◌, ◌-◌, ◌*◌, ◌<◌, ◌≤◌, IfOk, IsSome, length, vec_len};
ghost use Rattle.otn_base.specs.declared.limits.TheConstants.{GROUPS};
ghost use Rattle.otn_base.specs.LineSlots.{slots_of};

use frame_geometry::Frame;
use odtu_columns::message;
use otn_base::limits::GROUPS;
use otn_base::{LineKind, Memory, Slots};
use std::alloc::Global;
use std::ops::Range;
use std::test::Fail;
use trib_source::TribSource;

// What a turn brings, and the message that it says.
type Turn = (usize, [u8; 6]);

// A source of three slots: the pairs (0, 0), (15000, 1), (15000, 1), (15000, 2), (15000, 2), (15001, 0) and
// (15000, 0).
const THREE: [Turn; 7] = [
    (0, [0x00, 0x03, 0x17, 0, 0, 0]),
    (45_001, [0xEA, 0x63, 0x6E, 0, 1, 0x03]),
    (45_000, [0xEA, 0x60, 0x79, 0, 1, 0x03]),
    (45_001, [0xEA, 0x60, 0x79, 0, 2, 0x06]),
    (45_000, [0xEA, 0x60, 0x79, 0, 2, 0x06]),
    (45_001, [0x40, 0xCA, 0x2F, 0, 0, 0x00]),
    (45_000, [0xBF, 0x31, 0x66, 0, 0, 0x00]),
];

// All eight slots of an OTU2 at the ends of their pace: all groups are data, and one of them.
const EIGHT_FULL: [Turn; 2] = [
    (0, [0x00, 0x03, 0x17, 0, 0, 0]),
    (121_856, [0xEE, 0x03, 0xDD, 0, 0, 0]),
];

const EIGHT_SLOW: [Turn; 3] = [
    (0, [0x00, 0x03, 0x17, 0, 0, 0]),
    (8, [0xAA, 0xAA, 0x56, 0, 0, 0]),
    (8, [0x00, 0x04, 0x34, 0, 0, 0]),
];

// All 32 slots of an OTU3: C = 15,232 and D = 0.
const ALL_OF_OTU3: [Turn; 2] = [
    (0, [0x00, 0x03, 0x17, 0, 0, 0]),
    (487_424, [0xEE, 0x03, 0xDD, 0, 0, 0]),
];

// One slot of an OTU3, at the nominal rate of an ODU0.
const ONE_OF_OTU3: [Turn; 3] = [
    (0, [0x00, 0x03, 0x17, 0, 0, 0]),
    (15_168, [0xED, 0x03, 0x2E, 0, 0, 0]),
    (15_168, [0xED, 0x00, 0x39, 0, 0, 0]),
];

const OTU2_SLOTS: [u8; 8] = [1, 2, 3, 4, 5, 6, 7, 8];

const OTU3_SLOTS: [u8; 32] = [
    1, 2, 3, 4, 5, 6, 7, 8, 9, 10, 11, 12, 13, 14, 15, 16, 17, 18, 19, 20, 21, 22, 23, 24, 25, 26,
    27, 28, 29, 30, 31, 32,
];

// So many bytes, each another than the one before.
fn numbered(alloc: Global, size: usize) -> Result<Vec<u8>, Memory>
    ensures { IfOk result (λ bytes. vec_len bytes ≡ size) }
{
    let mut bytes = vec![in alloc; 0u8; size]?;
    for (i, byte) in bytes.iter_mut().enumerate() {
        *byte = (i % 251) as u8;
    }
    Ok(bytes)
}

// Begins a turn that takes these bytes.
fn begin(source: &mut TribSource, bytes: &[u8])
    requires cnd { source.old.cnd < length source.old.slots.list }
    requires size { length bytes.now ≤ length source.old.slots.list * GROUPS }
    ensures slots { source.new.slots ≡ source.old.slots }
    ensures cnd { source.new.cnd < length source.old.slots.list }
    ensures begun { IsSome source.new.said }
    ensures filled { source.new.filled ≡ 0 }
{
    source.begin_turn(bytes);
}

// Has the source fill all frames of a turn that takes these bytes: which of them, from 0, is the first with
// a message, and the message.
fn take_turn(
    source: &mut TribSource,
    bytes: &[u8],
    frames: u8,
    frame: &mut Frame<4080>,
) -> (u8, [u8; 6])
    requires frames { frames ≡ slots_of source.old.slots.kind }
    requires cnd { source.old.cnd < length source.old.slots.list }
    requires size { length bytes.now ≤ length source.old.slots.list * GROUPS }
    ensures slots { source.new.slots ≡ source.old.slots }
    ensures cnd { source.new.cnd < length source.old.slots.list }
{
    begin(source, bytes);
    let mut said = (frames, [0; 6]);
    for n in 0..frames {
        frame.clear();
        source.fill(n, frame);
        said = first_said(said, frames, n, message(frame));
    }
    said
}

fn first_said(said: (u8, [u8; 6]), frames: u8, n: u8, here: [u8; 6]) -> (u8, [u8; 6]) {
    if said.0 == frames && here != [0; 6] {
        return (n, here);
    }
    said
}

// The turn, from 1, in which the source does not say what it should in frame `at`, or 0 where it says all.
fn first_wrong(
    source: &mut TribSource,
    bytes: &[u8],
    frames: u8,
    at: u8,
    turns: &[Turn],
    frame: &mut Frame<4080>,
) -> u8
    requires frames { frames ≡ slots_of source.old.slots.kind }
    requires cnd { source.old.cnd < length source.old.slots.list }
    requires size { length bytes.now ≡ length source.old.slots.list * GROUPS }
{
    let mut t = 0u8;
    for turn in turns {
        t = t.saturating_add(1);
        let (count, said) = *turn;
        let taken = take_turn(source, &bytes[..count.min(bytes.len())], frames, frame);
        if taken != (at, said) {
            return t;
        }
    }
    0
}

// The same of a new source of these slots.
fn wrong_turn(
    alloc: Global,
    list: &[u8],
    kind: LineKind,
    at: u8,
    turns: &[Turn],
) -> Result<u8, Memory> {
    let Some(slots) = Slots::new(list, kind) else {
        return Ok(255);
    };
    let bytes = numbered(alloc, slots.count() as usize * GROUPS)?;
    let mut frame = Frame::<4080>::new(alloc)?;
    let mut source = TribSource::new(alloc, &slots)?;
    source.restart();
    Ok(first_wrong(&mut source, &bytes, kind.slots(), at, turns, &mut frame))
}

// How many bytes the turn after one that brings so many may bring.
fn room_after(alloc: Global, list: &[u8], kind: LineKind, count: usize) -> Result<usize, Memory> {
    let Some(slots) = Slots::new(list, kind) else {
        return Ok(0);
    };
    let size = slots.count() as usize * GROUPS;
    let bytes = numbered(alloc, size)?;
    let mut source = TribSource::new(alloc, &slots)?;
    begin(&mut source, &bytes[..count.min(size)]);
    Ok(source.room())
}

#[test]
fn messages(rt: HostRuntime) -> Result<(), Fail> {
    let alloc = rt.alloc();
    assert_eq!(rt;
        wrong_turn(alloc, &[1, 2, 8], LineKind::Otu2, 7, &THREE)?,
        0
    );
    assert_eq!(rt;
        wrong_turn(alloc, &OTU2_SLOTS, LineKind::Otu2, 7, &EIGHT_FULL)?,
        0
    );
    assert_eq!(rt;
        wrong_turn(alloc, &OTU2_SLOTS, LineKind::Otu2, 7, &EIGHT_SLOW)?,
        0
    );
    assert_eq!(rt;
        wrong_turn(alloc, &OTU3_SLOTS, LineKind::Otu3, 31, &ALL_OF_OTU3)?,
        0
    );
    assert_eq!(rt;
        wrong_turn(alloc, &[17], LineKind::Otu3, 16, &ONE_OF_OTU3)?,
        0
    );
    assert_eq!(rt; room_after(alloc, &[1, 2, 8], LineKind::Otu2, 5)?, 45_696);
    Ok(())
}

// A row, a column, and the byte that stands there.
type Place = (u32, u32, u8);

// Has the source fill frame `at` of a turn after one that takes these bytes.
fn fill_to(source: &mut TribSource, bytes: &[u8], at: u8, frame: &mut Frame<4080>)
    requires at { at < slots_of source.old.slots.kind }
    requires cnd { source.old.cnd < length source.old.slots.list }
    requires size { length bytes.now ≤ length source.old.slots.list * GROUPS }
{
    begin(source, bytes);
    begin(source, &[]);
    for n in 0..at {
        source.fill(n, frame);
    }
    frame.as_bytes_mut().fill(0xAA);
    source.fill(at, frame);
}

// The place, counted from 1, at which frame `at` has another byte, where the turn before brought so many
// bytes, or 0 where it has all of them.
fn wrong_place(
    alloc: Global,
    list: &[u8],
    kind: LineKind,
    count: usize,
    at: u8,
    places: &[Place],
) -> Result<u8, Memory> {
    let Some(slots) = Slots::new(list, kind) else {
        return Ok(255);
    };
    let size = slots.count() as usize * GROUPS;
    let bytes = numbered(alloc, size)?;
    let mut frame = Frame::<4080>::new(alloc)?;
    let mut source = TribSource::new(alloc, &slots)?;
    if at < kind.slots() {
        fill_to(&mut source, &bytes[..count.min(size)], at, &mut frame);
    }
    let mut wrong = 0u8;
    for place in places {
        wrong = wrong.saturating_add(1);
        let (row, column, byte) = *place;
        if frame.get(row.clamp(1, 4), column.clamp(1, 4080)) != byte {
            return Ok(wrong);
        }
    }
    Ok(0)
}

// Slots 1, 2 and 8 in the first frame after 45,001 bytes came.
const THREE_FRAME_0: [Place; 18] = [
    // Group 1 is stuff, and between its columns stand those of slots 3 to 7.
    (1, 17, 0),
    (1, 18, 0),
    (1, 19, 0xAA),
    (1, 23, 0xAA),
    (1, 24, 0),
    // Groups 2 and 3 are data.
    (1, 25, 0),
    (1, 26, 1),
    (1, 27, 0xAA),
    (1, 32, 2),
    (1, 33, 3),
    (1, 40, 5),
    // The frame is that of slot 1, and the message stands in that of slot 8.
    (1, 15, 0),
    (3, 16, 0),
    (4, 15, 0xAA),
    (4, 16, 0xAA),
    (1, 14, 0xAA),
    (4, 3825, 0xAA),
    // Group 1,904: group 476 of each row is in columns 3817 to 3824.
    (4, 3819, 0xAA),
];

// All slots of an OTU3 after a full turn: the bytes in order, 15,232 in each frame.
const ALL_FRAME_31: [Place; 7] = [
    // Byte 31 * 15,232.
    (1, 17, 61),
    (1, 18, 62),
    (1, 48, 92),
    (2, 17, 104),
    // Byte 487,423.
    (4, 3824, 232),
    (1, 16, 0),
    (4, 16, 0xAA),
];

// Slot 17 of an OTU3, where 7,616 bytes came: every other group is data, from group 2 on.
const SLOT_17_FRAME_16: [Place; 11] = [
    // Group 16 * 476 + 1 is stuff, the next one data: byte 16 * 238.
    (1, 33, 0),
    (1, 65, 43),
    (1, 97, 0),
    (1, 129, 44),
    (1, 32, 0xAA),
    (1, 34, 0xAA),
    // 59 groups of 119 are data in row 1; row 2 begins with one.
    (2, 33, 102),
    (2, 65, 0),
    // The message of the number 0 after 7,616.
    (1, 16, 0),
    (2, 16, 0x03),
    (3, 16, 0x17),
];

#[test]
fn groups(rt: HostRuntime) -> Result<(), Fail> {
    let alloc = rt.alloc();
    assert_eq!(rt;
        wrong_place(alloc, &[1, 2, 8], LineKind::Otu2, 45_001, 0, &THREE_FRAME_0)?,
        0
    );
    assert_eq!(rt;
        wrong_place(
            alloc,
            &OTU3_SLOTS,
            LineKind::Otu3,
            487_424,
            31,
            &ALL_FRAME_31
        )?,
        0
    );
    assert_eq!(rt;
        wrong_place(alloc, &[17], LineKind::Otu3, 7_616, 16, &SLOT_17_FRAME_16)?,
        0
    );
    Ok(())
}

// Begins a turn that takes these bytes, and hands over the buffer in which they stand.
fn hand(source: &mut TribSource, buffer: &mut Vec<u8>, bytes: Range<usize>)
    requires cnd { source.old.cnd < length source.old.slots.list }
    requires in_order { bytes.start ≤ bytes.end }
    requires within { bytes.end ≤ vec_len buffer.old }
    requires size { bytes.end - bytes.start ≤ length source.old.slots.list * GROUPS }
    requires room { vec_len buffer.old ≡ length source.old.slots.list * (GROUPS + 1) }
    ensures slots { source.new.slots ≡ source.old.slots }
    ensures cnd { source.new.cnd < length source.old.slots.list }
    ensures begun { IsSome source.new.said }
    ensures filled { source.new.filled ≡ 0 }
    ensures room_stays { vec_len buffer.new ≡ vec_len buffer.old }
{
    source.take_over(buffer, bytes);
}

// Whether two sources put the same frames in their turns.
fn put_alike(
    one: &mut TribSource,
    other: &mut TribSource,
    frame: &mut Frame<4080>,
    beside: &mut Frame<4080>,
) -> bool
    requires kind { one.old.slots.kind ≡ LineKind.Otu2 }
    requires other_kind { other.old.slots.kind ≡ LineKind.Otu2 }
    requires begun { IsSome one.old.said }
    requires other_begun { IsSome other.old.said }
    requires filled { one.old.filled ≡ 0 }
    requires other_filled { other.old.filled ≡ 0 }
    ensures slots { one.new.slots ≡ one.old.slots }
    ensures other_slots { other.new.slots ≡ other.old.slots }
    ensures cnd { one.new.cnd ≡ one.old.cnd }
    ensures other_cnd { other.new.cnd ≡ other.old.cnd }
{
    let mut alike = true;
    for n in 0..8u8 {
        frame.clear();
        beside.clear();
        one.fill(n, frame);
        other.fill(n, beside);
        alike &= frame.as_bytes() == beside.as_bytes();
    }
    alike
}

// The turn, counted from 1, in which a source that is handed the buffers of its turns puts another frame than one that
// is given their bytes, or 0 where there is none. The bytes of a turn stand in the buffer from its number on.
fn first_unlike(
    given: &mut TribSource,
    handed: &mut TribSource,
    bytes: &[u8],
    turns: &[Turn],
    buffer: &mut Vec<u8>,
    frame: &mut Frame<4080>,
    beside: &mut Frame<4080>,
) -> u8
    requires kind { given.old.slots.kind ≡ LineKind.Otu2 }
    requires handed_slots { handed.old.slots ≡ given.old.slots }
    requires cnd { given.old.cnd < length given.old.slots.list }
    requires handed_cnd { handed.old.cnd < length given.old.slots.list }
    requires size { length bytes.now ≡ length given.old.slots.list * GROUPS }
    requires room { vec_len buffer.old ≡ length given.old.slots.list * (GROUPS + 1) }
{
    let mut t = 0u8;
    for turn in turns {
        t = t.saturating_add(1);
        let from = (t as usize).min(bytes.len());
        let to = from.saturating_add(turn.0).min(bytes.len());
        copy_front(bytes, buffer);
        begin(given, &bytes[from..to]);
        hand(handed, buffer, from..to);
        if !put_alike(given, handed, frame, beside) {
            return t;
        }
    }
    0
}

// Copies these bytes to the front of a buffer.
fn copy_front(bytes: &[u8], buffer: &mut Vec<u8>)
    requires { length bytes.now ≤ vec_len buffer.old }
    ensures { vec_len buffer.new ≡ vec_len buffer.old }
{
    buffer[..bytes.len()].copy_from_slice(bytes);
}

// The same of new sources of these slots of an OTU2.
fn unlike_turn(alloc: Global, list: &[u8], turns: &[Turn]) -> Result<u8, Memory> {
    let Some(slots) = Slots::new(list, LineKind::Otu2) else {
        return Ok(255);
    };
    let bytes = numbered(alloc, slots.count() as usize * GROUPS)?;
    let mut buffer = numbered(alloc, slots.count() as usize * (GROUPS + 1))?;
    let mut frame = Frame::<4080>::new(alloc)?;
    let mut beside = Frame::<4080>::new(alloc)?;
    let mut given = TribSource::new(alloc, &slots)?;
    let mut handed = TribSource::new(alloc, &slots)?;
    Ok(first_unlike(
        &mut given,
        &mut handed,
        &bytes,
        turns,
        &mut buffer,
        &mut frame,
        &mut beside,
    ))
}

#[test]
fn handed_over_as_given(rt: HostRuntime) -> Result<(), Fail> {
    let alloc = rt.alloc();
    assert_eq!(rt; unlike_turn(alloc, &[1, 2, 8], &THREE)?, 0);
    assert_eq!(rt; unlike_turn(alloc, &[4], &ONE_OF_OTU3)?, 0);
    assert_eq!(rt; unlike_turn(alloc, &OTU2_SLOTS, &EIGHT_SLOW)?, 0);
    Ok(())
}
