// A tributary from its source over a line to its sink.
ghost use Rattle.std.specs.Prelude.{◌≡◌, ◌+◌, ◌*◌, ◌<◌, ◌≤◌, IfOk, IsSome, length, vec_len};
ghost use Rattle.otn_base.specs.declared.limits.TheConstants.{GROUPS};
ghost use Rattle.otn_base.specs.LineSlots.{slots_of};

use line_side::{LineIn, LineOut};
use msi_table::SlotMap;
use otn_base::limits::{GROUPS, LINE_FRAME_BYTES, NOMINAL};
use otn_base::{LineKind, Memory, Slots};
use port_base::{InPlaceOf, MemSink, MemSource, OutPlaceOf};
use std::alloc::Global;
use std::test::Fail;
use trib_sink::TribSink;
use trib_source::TribSource;

const TURNS: u8 = 7;

const PORT: u8 = 2;

// The bytes of a turn: an ODU0's for each of the slots, and a few more, so that remainders go on.
fn bytes_of(alloc: Global, slots: &Slots, turn: u8) -> Result<Vec<u8>, Memory>
    requires { turn < 16 }
    ensures { IfOk result (λ bytes. vec_len bytes ≤ length slots.now.list * GROUPS) }
{
    let mut bytes = vec![in alloc; 0; slots.count() as usize * NOMINAL + turn as usize]?;
    for (i, byte) in bytes.iter_mut().enumerate() {
        *byte = ((i + 7 * turn as usize) % 251) as u8;
    }
    Ok(bytes)
}

// Begins a turn that takes these bytes.
fn begin(source: &mut TribSource, bytes: &[u8])
    requires cnd { source.old.cnd < length source.old.slots.list }
    requires size { length bytes.now ≤ length source.old.slots.list * GROUPS }
    ensures cnd { source.new.cnd < length source.old.slots.list }
    ensures begun { IsSome source.new.said }
    ensures filled { source.new.filled ≡ 0 }
    ensures slots { source.new.slots ≡ source.old.slots }
{
    source.begin_turn(bytes);
}

// Puts a turn of these bytes into the frames of a line of so many slots, of which the first has this MFAS, and sends
// them. Gives the MFAS of the frame behind them.
fn put_turn(
    source: &mut TribSource,
    bytes: &[u8],
    slots: u8,
    first: u8,
    line: &mut LineOut,
    map: &SlotMap,
    place: &mut OutPlaceOf<MemSink>,
) -> u8
    requires cnd { source.old.cnd < length source.old.slots.list }
    requires size { length bytes.now ≤ length source.old.slots.list * GROUPS }
    requires slots { slots ≡ slots_of source.old.slots.kind }
    ensures cnd { source.new.cnd < length source.old.slots.list }
    ensures slots { source.new.slots ≡ source.old.slots }
{
    begin(source, bytes);
    let mut mfas = first;
    for n in 0..slots {
        source.fill(n, line.begin());
        line.finish(mfas, map, place);
        mfas = mfas.wrapping_add(1);
    }
    mfas
}

// The frames of a line with a tributary on these slots, from its first turn on.
fn line_of(alloc: Global, slots: &Slots, scrambled: bool) -> Result<Vec<u8>, Memory> {
    let kind = slots.kind();
    let frames = TURNS as usize * kind.slots() as usize;
    let sink = MemSink::with_room(alloc, frames * LINE_FRAME_BYTES)?;
    let mut place = OutPlaceOf::Live(sink, 0);
    let mut line = LineOut::new(alloc, 0, kind, scrambled)?;
    let mut source = TribSource::new(alloc, slots)?;
    let mut map = SlotMap::new(kind);
    map.allot(slots, PORT);
    let mut mfas = 0;
    for turn in 0..TURNS {
        let bytes = bytes_of(alloc, slots, turn)?;
        mfas = put_turn(
            &mut source,
            &bytes,
            kind.slots(),
            mfas,
            &mut line,
            &map,
            &mut place,
        );
    }
    let mut written = Vec::new(alloc);
    written.extend_from_slice(place.kept().unwrap_or(&[]))?;
    Ok(written)
}

// Piece `n` of a line's turn of which the sink has taken so many frames, and how many it has then.
fn take_piece(
    line: &mut LineIn,
    sink: &mut TribSink,
    place: &mut InPlaceOf<MemSource>,
    n: u8,
    frames: u8,
) -> u8
    requires pieces { line.old.pieces ≡ n }
    requires room { n < slots_of line.old.kind }
    requires kind { line.old.kind ≡ sink.old.slots.kind }
    requires taken { sink.old.taken ≡ frames }
    requires most { frames ≤ n }
    ensures pieces { line.new.pieces ≡ n + 1 }
    ensures kind { line.new.kind ≡ line.old.kind }
    ensures taken { sink.new.taken ≡ result }
    ensures most { result ≤ n + 1 }
    ensures slots { sink.new.slots ≡ sink.old.slots }
{
    if !line.piece(place) {
        return frames;
    }
    sink.take_frame(frames, line.frame(), line.expected());
    frames + 1
}

// One turn of a line of so many slots, and how many bytes the sink emits.
fn take_turn(
    line: &mut LineIn,
    sink: &mut TribSink,
    place: &mut InPlaceOf<MemSource>,
    slots: u8,
    into: &mut [u8],
) -> usize
    requires between { line.old.pieces ≡ 0 }
    requires fresh { sink.old.taken ≡ 0 }
    requires kind { line.old.kind ≡ sink.old.slots.kind }
    requires size { slots ≡ slots_of line.old.kind }
    requires room { length sink.old.slots.list * (GROUPS + 1) ≤ length into.old }
    ensures between { line.new.pieces ≡ 0 }
    ensures fresh { sink.new.taken ≡ 0 }
    ensures kind { line.new.kind ≡ line.old.kind }
    ensures slots { sink.new.slots ≡ sink.old.slots }
{
    let mut frames = 0;
    for n in 0..slots {
        frames = take_piece(line, sink, place, n, frames);
    }
    let whole = line.end_turn() && frames == slots;
    sink.end_turn(whole, into)
}

// How many turns of a line emit exactly what its tributary's source took two turns before, or nothing in the first two.
// A source takes in a turn what came in the one before, so that is three turns after it came.
fn turns_that_agree(
    alloc: Global,
    slots: &Slots,
    scrambled: bool,
    written: Vec<u8>,
) -> Result<u8, Memory> {
    let kind = slots.kind();
    let mut place = InPlaceOf::Live(MemSource::new(written), 0);
    let mut line = LineIn::new(alloc, kind, scrambled)?;
    let mut sink = TribSink::new(alloc, slots, PORT)?;
    let mut into = vec![in alloc; 0; slots.count() as usize * (GROUPS + 1)]?;
    let mut agree = 0;
    for turn in 0..TURNS {
        let emitted = take_turn(&mut line, &mut sink, &mut place, kind.slots(), &mut into);
        let agrees = if turn < 2 {
            emitted == 0
        } else {
            into.get(..emitted) == Some(bytes_of(alloc, slots, turn - 2)?.as_slice())
        };
        if agrees {
            agree += 1;
        }
    }
    Ok(agree)
}

#[test]
fn out_three_turns_after_it_came(rt: HostRuntime) -> Result<(), Fail> {
    let alloc = rt.alloc();
    let cases: [(&[u8], LineKind, bool); 5] = [
        (&[3], LineKind::Otu2, false),
        (&[1, 2, 8], LineKind::Otu2, false),
        (&[1, 2, 3, 4, 5, 6, 7, 8], LineKind::Otu2, true),
        (&[17], LineKind::Otu3, true),
        (&[1, 9, 32], LineKind::Otu3, false),
    ];
    for (list, kind, scrambled) in cases {
        let slots = Slots::new(list, kind).ok_or("slots that rise")?;
        let written = line_of(alloc, &slots, scrambled)?;
        assert_eq!(rt;
            written.len(),
            TURNS as usize * kind.slots() as usize * LINE_FRAME_BYTES
        );
        assert_eq!(rt; turns_that_agree(alloc, &slots, scrambled, written)?, TURNS);
    }
    Ok(())
}
