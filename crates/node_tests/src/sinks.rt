// A sink on turns whose emission is known by hand.
ghost use Rattle.std.specs.Prelude.{◌≡◌, ◌+◌, ◌*◌, ◌≤◌, [], IfOk, length, vec_len};
ghost use Rattle.std.specs.Option.{ForSome};
ghost use Rattle.otn_base.specs.LineSlots.{slots_of};
ghost use Rattle.otn_base.specs.declared.limits.TheConstants.{GROUPS};

use cnd_codec::say_d;
use frame_geometry::Frame;
use jc_codec::say;
use otn_base::{LineKind, Memory, Slots};
use std::alloc::Global;
use std::test::Fail;
use trib_sink::{SinkState, TribSink};

// What a turn of an ODU0 has: the message of a steady ODU0, one whose JC3 is wrong, or no multiframe.
#[derive(Clone, Copy, PartialEq, Eq)]
enum Turn {
    Steady,
    Damaged,
    Missed,
}

// What the frames of a turn show on a line of this kind: the message in one of them, from 0, and payload bytes
// that are all `fill`.
#[derive(Clone, Copy)]
struct Shown {
    kind: LineKind,
    at: u8,
    message: [u8; 6],
    fill: u8,
}

// Takes all frames of one turn, with the MSI byte of port 1 at each slot.
fn take_frames(sink: &mut TribSink, frame: &mut Frame<4080>, shown: Shown)
    requires kind { sink.old.slots.kind ≡ shown.kind }
    requires taken { sink.old.taken ≡ 0 }
    ensures taken { sink.new.taken ≡ slots_of shown.kind }
    ensures slots { sink.new.slots ≡ sink.old.slots }
{
    for n in 0..shown.kind.slots() {
        write_frame(
            frame,
            if n == shown.at { shown.message } else { [0; 6] },
            shown.fill,
        );
        sink.take_frame(n, frame, n);
    }
}

// Takes all frames of one turn, and ends it.
fn pass_turn(
    sink: &mut TribSink,
    frame: &mut Frame<4080>,
    shown: Shown,
    whole: bool,
    into: &mut [u8],
) -> usize
    requires kind { sink.old.slots.kind ≡ shown.kind }
    requires taken { sink.old.taken ≡ 0 }
    requires room { length sink.old.slots.list * (GROUPS + 1) ≤ length into.old }
    ensures taken { sink.new.taken ≡ 0 }
    ensures slots { sink.new.slots ≡ sink.old.slots }
{
    take_frames(sink, frame, shown);
    sink.end_turn(whole, into)
}

// Writes a frame of these payload and message bytes, and the MSI byte of port 1.
fn write_frame(frame: &mut Frame<4080>, message: [u8; 6], fill: u8) {
    frame.payload_row_mut(1).fill(fill);
    frame.payload_row_mut(2).fill(fill);
    frame.payload_row_mut(3).fill(fill);
    frame.payload_row_mut(4).fill(fill);
    write_message(frame, message);
    frame.set(4, 15, 0x80);
}

// Writes the six bytes of a message.
fn write_message(frame: &mut Frame<4080>, message: [u8; 6]) {
    frame.set(1, 16, message[0]);
    frame.set(2, 16, message[1]);
    frame.set(3, 16, message[2]);
    frame.set(1, 15, message[3]);
    frame.set(2, 15, message[4]);
    frame.set(3, 15, message[5]);
}

// The message of turn `t` of an ODU0 at its nominal rate: the first says the number, each later one that it is the
// same.
fn message_of(turn: Turn, t: u8) -> [u8; 6] {
    match turn {
        Turn::Damaged => [0xED, 0x00, 0x38, 0, 0, 0],
        _ => {
            if t == 1 {
                [0xED, 0x03, 0x2E, 0, 0, 0]
            } else {
                [0xED, 0x00, 0x39, 0, 0, 0]
            }
        }
    }
}

// One turn: what it has, how many bytes it emits, which byte its first is, and how the sink stands after it.
type Row = (Turn, usize, u8, SinkState);

// A steady ODU0. A damaged message changes nothing. Of six in a row the third ends the stretch, and AIS follows
// until a turn begins a stretch. A turn without a multiframe ends a stretch at once; after another one, which emits AIS
// from its beginning, the next turn begins one.
const ROWS: [Row; 20] = [
    (Turn::Steady, 0, 0, SinkState::Up),
    (Turn::Steady, 0, 0, SinkState::Up),
    (Turn::Steady, 15_168, 2, SinkState::Up),
    (Turn::Damaged, 15_168, 3, SinkState::Up),
    (Turn::Steady, 15_168, 4, SinkState::Up),
    (Turn::Damaged, 15_168, 5, SinkState::Up),
    (Turn::Damaged, 15_168, 6, SinkState::Up),
    (Turn::Damaged, 15_168, 7, SinkState::Down),
    (Turn::Damaged, 15_168, 0xF6, SinkState::Down),
    (Turn::Damaged, 15_168, 0xFF, SinkState::Down),
    (Turn::Damaged, 15_168, 0xFF, SinkState::Down),
    (Turn::Steady, 0, 0, SinkState::Up),
    (Turn::Steady, 0, 0, SinkState::Up),
    (Turn::Steady, 15_168, 13, SinkState::Up),
    (Turn::Steady, 15_168, 14, SinkState::Up),
    (Turn::Missed, 15_168, 15, SinkState::Down),
    (Turn::Missed, 15_168, 0xF6, SinkState::Down),
    (Turn::Steady, 0, 0, SinkState::Up),
    (Turn::Steady, 0, 0, SinkState::Up),
    (Turn::Steady, 15_168, 19, SinkState::Up),
];

// A buffer of so many bytes.
fn buffer(alloc: Global, size: usize) -> Result<Vec<u8>, Memory>
    ensures { IfOk result (λ v. vec_len v ≡ size) }
{
    Ok(vec![in alloc; 0u8; size]?)
}

// The row of the table that a turn does not meet, counted from 1, or 0 where all are met. The message stands in
// frame `at` of each turn.
fn first_wrong(
    sink: &mut TribSink,
    frame: &mut Frame<4080>,
    kind: LineKind,
    at: u8,
    rows: &[Row],
    into: &mut [u8],
) -> u8
    requires kind { sink.old.slots.kind ≡ kind }
    requires taken { sink.old.taken ≡ 0 }
    requires room { length sink.old.slots.list * (GROUPS + 1) ≤ length into.old }
{
    let mut t = 0u8;
    for row in rows {
        t = t.saturating_add(1);
        let (turn, count, byte, state) = *row;
        let shown = Shown {
            kind,
            at,
            message: message_of(turn, t),
            fill: t,
        };
        let emitted = pass_turn(sink, frame, shown, turn != Turn::Missed, into);
        if emitted != count || sink.state() != state {
            return t;
        }
        if count > 0 && into.first().copied() != Some(byte) {
            return t;
        }
    }
    0
}

#[test]
fn steady_damaged_and_missed_turns(rt: HostRuntime) -> Result<(), Fail> {
    let slots = Slots::new(&[3], LineKind::Otu2).ok_or("slot 3")?;
    let mut frame = Frame::<4080>::new(rt.alloc())?;
    let mut into = buffer(rt.alloc(), 15_233)?;
    let mut sink = TribSink::new(rt.alloc(), &slots, 1)?;
    let kind = slots.kind();
    if slots.count() == 1 {
        assert_eq!(rt;
            first_wrong(&mut sink, &mut frame, kind, 2, &ROWS, &mut into),
            0
        );
    }
    Ok(())
}

// The message of slot 17 of 32 stands in frame 16 of a multiframe, counted from 0. Each other frame says that no
// group is data.
const STEADY: [Row; 4] = [
    (Turn::Steady, 0, 0, SinkState::Up),
    (Turn::Steady, 0, 0, SinkState::Up),
    (Turn::Steady, 15_168, 2, SinkState::Up),
    (Turn::Steady, 15_168, 3, SinkState::Up),
];

#[test]
fn slot_17_of_32(rt: HostRuntime) -> Result<(), Fail> {
    let slots = Slots::new(&[17], LineKind::Otu3).ok_or("slot 17")?;
    let mut frame = Frame::<4080>::new(rt.alloc())?;
    let mut into = buffer(rt.alloc(), 15_233)?;
    let mut sink = TribSink::new(rt.alloc(), &slots, 1)?;
    let kind = slots.kind();
    if slots.count() == 1 {
        assert_eq!(rt;
            first_wrong(&mut sink, &mut frame, kind, 16, &STEADY, &mut into),
            0
        );
    }
    Ok(())
}

// Without a multiframe a sink waits for three turns, and is Down then.
const MISSED: [Row; 4] = [
    (Turn::Missed, 0, 0, SinkState::Waiting),
    (Turn::Missed, 0, 0, SinkState::Waiting),
    (Turn::Missed, 0, 0, SinkState::Down),
    (Turn::Missed, 15_168, 0xF6, SinkState::Down),
];

#[test]
fn never_accepted(rt: HostRuntime) -> Result<(), Fail> {
    let slots = Slots::new(&[3], LineKind::Otu2).ok_or("slot 3")?;
    let mut frame = Frame::<4080>::new(rt.alloc())?;
    let mut into = buffer(rt.alloc(), 15_233)?;
    let mut sink = TribSink::new(rt.alloc(), &slots, 1)?;
    let kind = slots.kind();
    if slots.count() == 1 {
        assert_eq!(rt;
            first_wrong(&mut sink, &mut frame, kind, 2, &MISSED, &mut into),
            0
        );
    }
    // A frame of AIS begins with FAS and MFAS, seven bytes 0 and then ones.
    for (place, byte) in [
        (0usize, 0xF6u8),
        (2, 0xF6),
        (3, 0x28),
        (5, 0x28),
        (6, 0),
        (13, 0),
        (14, 0xFF),
    ] {
        assert_eq!(rt; into.get(place).copied(), Some(byte), "byte {place}");
    }
    Ok(())
}

// The pairs that a client of 45,001 and 45,000 bytes in turn gives three slots, and how many bytes are due.
const PAIRS: [(u16, u16, usize); 7] = [
    (0, 0, 0),
    (15_000, 1, 0),
    (15_000, 1, 0),
    (15_000, 2, 45_001),
    (15_000, 2, 45_000),
    (15_001, 0, 45_001),
    (15_000, 0, 45_000),
];

// All groups of all turns are data: 32 slots of 15,232 bytes.
const FULL: [(u16, u16, usize); 4] = [
    (15_232, 0, 0),
    (15_232, 0, 0),
    (15_232, 0, 487_424),
    (15_232, 0, 487_424),
];

// The message that says this pair, after one that said the former number.
fn saying(former: Option<u16>, cm: u16, cnd: u16) -> [u8; 6]
    requires former { ForSome former (λ n. n ≤ GROUPS) }
    requires cm { cm ≤ GROUPS }
{
    let [jc1, jc2, jc3] = say(former, cm);
    let [jc4, jc5, jc6] = say_d(cnd.min(1023));
    [jc1, jc2, jc3, jc4, jc5, jc6]
}

// The pair, counted from 1, at which another number of bytes is emitted, or 0 where there is none. The message
// stands in frame `at` of each turn.
fn first_wrong_pair(
    sink: &mut TribSink,
    frame: &mut Frame<4080>,
    kind: LineKind,
    at: u8,
    pairs: &[(u16, u16, usize)],
    into: &mut [u8],
) -> u8
    requires kind { sink.old.slots.kind ≡ kind }
    requires taken { sink.old.taken ≡ 0 }
    requires room { length sink.old.slots.list * (GROUPS + 1) ≤ length into.old }
{
    let mut t = 0u8;
    let mut former = None;
    for pair in pairs {
        t = t.saturating_add(1);
        let (cm, cnd, count) = *pair;
        let cm = cm.min(15_232);
        let message = saying(former, cm, cnd);
        former = Some(cm);
        let shown = Shown {
            kind,
            at,
            message,
            fill: t,
        };
        if pass_turn(sink, frame, shown, true, into) != count {
            return t;
        }
    }
    0
}

#[test]
fn remainders_of_three_slots(rt: HostRuntime) -> Result<(), Fail> {
    let slots = Slots::new(&[1, 2, 3], LineKind::Otu2).ok_or("three slots")?;
    let mut frame = Frame::<4080>::new(rt.alloc())?;
    let mut into = buffer(rt.alloc(), 45_699)?;
    let mut sink = TribSink::new(rt.alloc(), &slots, 1)?;
    let kind = slots.kind();
    if slots.count() == 3 {
        assert_eq!(rt;
            first_wrong_pair(&mut sink, &mut frame, kind, 2, &PAIRS, &mut into),
            0
        );
    }
    sink.restart();
    assert_eq!(rt; sink.state(), SinkState::Waiting);
    Ok(())
}

#[test]
fn all_of_32_slots(rt: HostRuntime) -> Result<(), Fail> {
    let list = [
        1, 2, 3, 4, 5, 6, 7, 8, 9, 10, 11, 12, 13, 14, 15, 16, 17, 18, 19, 20, 21, 22, 23, 24, 25,
        26, 27, 28, 29, 30, 31, 32,
    ];
    let slots = Slots::new(&list, LineKind::Otu3).ok_or("all slots")?;
    let mut frame = Frame::<4080>::new(rt.alloc())?;
    let mut into = buffer(rt.alloc(), 487_456)?;
    let mut sink = TribSink::new(rt.alloc(), &slots, 1)?;
    let kind = slots.kind();
    if slots.count() == 32 {
        assert_eq!(rt;
            first_wrong_pair(&mut sink, &mut frame, kind, 31, &FULL, &mut into),
            0
        );
    }
    Ok(())
}

// Pairs, each with whether its turn has a multiframe: a stretch with a remainder, its ending turn, and AIS.
const MIXED: [(u16, u16, bool); 8] = [
    (15_000, 1, true),
    (15_000, 1, true),
    (15_000, 2, true),
    (15_001, 0, true),
    (15_000, 2, true),
    (0, 0, false),
    (0, 0, false),
    (0, 0, false),
];

// The turn, counted from 1, in which one sink hands over other bytes than one of as many slots copies, or 0
// where there is none.
fn first_unlike(
    copying: &mut TribSink,
    handing: &mut TribSink,
    frame: &mut Frame<4080>,
    turns: &[(u16, u16, bool)],
    into: &mut [u8],
    buffer: &mut Vec<u8>,
) -> u8
    requires kind { copying.old.slots.kind ≡ LineKind.Otu2 }
    requires handing_kind { handing.old.slots.kind ≡ LineKind.Otu2 }
    requires taken { copying.old.taken ≡ 0 }
    requires handing_taken { handing.old.taken ≡ 0 }
    requires room { length copying.old.slots.list * (GROUPS + 1) ≤ length into.old }
    requires handing_room { vec_len buffer.old ≡ length handing.old.slots.list * (GROUPS + 1) }
{
    let mut t = 0u8;
    let mut former = None;
    for turn in turns {
        t = t.saturating_add(1);
        let (cm, cnd, whole) = *turn;
        let cm = cm.min(15_232);
        let message = saying(former, cm, cnd);
        former = Some(cm);
        let shown = Shown {
            kind: LineKind::Otu2,
            at: 2,
            message,
            fill: t,
        };
        let count = pass_turn(copying, frame, shown, whole, into);
        take_frames(handing, frame, shown);
        let emitted = handing.hand_over(whole, buffer);
        if into.get(..count) != buffer.get(emitted) {
            return t;
        }
    }
    0
}

#[test]
fn handed_over_as_copied(rt: HostRuntime) -> Result<(), Fail> {
    let slots = Slots::new(&[1, 2, 3], LineKind::Otu2).ok_or("three slots")?;
    let mut frame = Frame::<4080>::new(rt.alloc())?;
    let mut into = buffer(rt.alloc(), 45_699)?;
    let mut exchanged = buffer(rt.alloc(), 45_699)?;
    let mut copying = TribSink::new(rt.alloc(), &slots, 1)?;
    let mut handing = TribSink::new(rt.alloc(), &slots, 1)?;
    if slots.count() == 3 {
        assert_eq!(rt;
            first_unlike(
                &mut copying,
                &mut handing,
                &mut frame,
                &MIXED,
                &mut into,
                &mut exchanged
            ),
            0
        );
        assert_eq!(rt; handing.state(), SinkState::Down);
    }
    Ok(())
}
