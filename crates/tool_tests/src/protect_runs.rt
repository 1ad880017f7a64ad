// Whole runs of `protect` over ports in memory, with the check (as crc32 has it) of what an independent model writes.
ghost use Rattle.std.specs.Prelude.{◌≡◌};

use crc_small::crc32;
use otn_base::limits::{LINE_COLUMNS, LINE_FRAME_BYTES};
use otn_base::{LineKind, Memory, Slots};
use otn_ports::{Ended, InPlaceOf, ListedSink, ListedSource, OutPlaceOf, Rack, Sink};
use protect_selector::protect;
use std::alloc::Global;
use std::test::Fail;

const TURNS: usize = 20;

// Where a byte of frame `n` of a turn stands in its line, by row and column from 1.
fn place(turn: usize, n: usize, row: usize, column: usize) -> usize {
    let frame = turn.saturating_mul(8).saturating_add(n);
    frame
        .saturating_mul(LINE_FRAME_BYTES)
        .saturating_add(row.saturating_sub(1).saturating_mul(LINE_COLUMNS))
        .saturating_add(column.saturating_sub(1))
}

fn put(line: &mut [u8], place: usize, byte: u8) {
    if let Some(at) = line.get_mut(place) {
        *at = byte;
    }
}

// A line of 20 turns from MFAS 0 with port 1 on slot 3, each payload byte of turn t being t. JC3 is wrong in so many
// turns from the tenth on.
fn line_of(alloc: Global, damaged: usize) -> Result<Vec<u8>, Memory> {
    let mut line = vec![in alloc; 0u8; TURNS * 8 * LINE_FRAME_BYTES]?;
    for (i, byte) in line.iter_mut().enumerate() {
        *byte = (i / (8 * LINE_FRAME_BYTES) + 1) as u8;
    }
    for frame in 0..TURNS * 8 {
        put(&mut line, place(0, frame, 1, 7), (frame % 256) as u8);
    }
    put(&mut line, place(0, 4, 4, 15), 0x80);
    for turn in 0..TURNS {
        let said = if turn == 0 {
            [0xED, 0x03, 0x2E]
        } else {
            [0xED, 0x00, 0x39]
        };
        let wrong = if 9 <= turn && turn < damaged.saturating_add(9) {
            0xFF
        } else {
            0
        };
        put(&mut line, place(turn, 2, 1, 16), said[0]);
        put(&mut line, place(turn, 2, 2, 16), said[1]);
        put(&mut line, place(turn, 2, 3, 16), said[2] ^ wrong);
        put(&mut line, place(turn, 2, 1, 15), 0);
        put(&mut line, place(turn, 2, 2, 15), 0);
        put(&mut line, place(turn, 2, 3, 15), 0);
    }
    Ok(line)
}

// A line input over these bytes whose port fails at one call, counted from 1; at none where that is 0.
fn input(alloc: Global, bytes: Vec<u8>, failing: u32) -> Result<InPlaceOf<ListedSource>, Memory> {
    let failing = vec![in alloc; failing; 1]?;
    Ok(InPlaceOf::Live(ListedSource::new(bytes, failing, 1 << 20), 0))
}

// How many bytes were taken of a place.
fn number<P: Drop>(place: &InPlaceOf<P>) -> u64 {
    match place {
        InPlaceOf::Live(_, number) => *number,
        InPlaceOf::Dead(_, number) => *number,
        InPlaceOf::Empty => 0,
    }
}

// What a run came to: how it ended, what it reported, how many bytes it took of each line, how many it wrote and their
// check.
#[derive(Drop)]
struct Outcome {
    ended: Ended,
    report: Vec<u8>,
    working: u64,
    protection: u64,
    written: usize,
    check: u32,
}

// A run of 20 turns, by what is at the two lines, how long is waited for, and at which call the report fails.
fn ran(
    alloc: Global,
    slots: &Slots,
    working: InPlaceOf<ListedSource>,
    protection: InPlaceOf<ListedSource>,
    wait: u32,
    failing: u32,
) -> Result<Outcome, Memory>
    requires plain { slots.now.kind ≡ LineKind.Otu2 }
{
    let mut bays: Rack<ListedSource, ListedSink> = Rack::new(alloc)?;
    bays.set_line_in(0, working);
    bays.set_line_in(1, protection);
    let never = vec![in alloc; 0; 1]?;
    let output = ListedSink::with_room(alloc, TURNS * 8 * LINE_FRAME_BYTES, never)?;
    bays.set_line_out(0, OutPlaceOf::Live(output, 0));
    let calls = vec![in alloc; failing; 1]?;
    let mut report = ListedSink::with_room(alloc, 200, calls)?;
    let ended = protect(alloc, 1, slots, TURNS as u32, wait, &mut bays, &mut report);
    let mut text = Vec::new(alloc);
    text.extend_from_slice(report.kept().unwrap_or(&[]))?;
    let written = bays.line_out(0).kept().unwrap_or(&[]);
    Ok(Outcome {
        ended,
        report: text,
        working: number(bays.line_in(0)),
        protection: number(bays.line_in(1)),
        written: written.len(),
        check: crc32(written),
    })
}

#[test]
fn the_better_line_goes_on(rt: HostRuntime) -> Result<(), Fail> {
    let alloc = rt.alloc();
    let slots = Slots::new(&[3], LineKind::Otu2).ok_or("slot 3")?;
    for (damaged, wait, failing, ended, report) in [
        (0, 0, 0, Ended::Done, ""),
        (3, 0, 0, Ended::Done, "turn 12 protection defect\n"),
        (
            3,
            4,
            0,
            Ended::Done,
            "turn 12 protection defect\nturn 16 working restored\n",
        ),
        (0, 0, 1, Ended::Cut, "turn 1 protection defect\n"),
    ] {
        let working = input(alloc, line_of(alloc, damaged)?, failing)?;
        let protection = input(alloc, line_of(alloc, 0)?, 0)?;
        let outcome = ran(alloc, &slots, working, protection, wait, 0)?;
        assert_eq!(rt;
            (
                outcome.ended,
                outcome.report.as_slice(),
                outcome.written,
                outcome.check
            ),
            (
                ended,
                report.as_bytes(),
                160 * LINE_FRAME_BYTES,
                0x46EE_63AB
            ),
            "damaged {damaged}, wait {wait}"
        );
    }
    Ok(())
}

#[test]
fn ais_where_nothing_comes(rt: HostRuntime) -> Result<(), Fail> {
    let slots = Slots::new(&[3], LineKind::Otu2).ok_or("slot 3")?;
    let outcome = ran(rt.alloc(), &slots, InPlaceOf::Empty, InPlaceOf::Empty, 0, 0)?;
    assert_eq!(rt;
        (outcome.ended, outcome.report.len(), outcome.check),
        (Ended::Done, 0, 0x575F_8FDB)
    );
    Ok(())
}

#[test]
fn a_report_that_fails_ends_it(rt: HostRuntime) -> Result<(), Fail> {
    let alloc = rt.alloc();
    let slots = Slots::new(&[3], LineKind::Otu2).ok_or("slot 3")?;
    let working = input(alloc, line_of(alloc, 3)?, 0)?;
    let protection = input(alloc, line_of(alloc, 0)?, 0)?;
    let outcome = ran(alloc, &slots, working, protection, 0, 1)?;
    assert_eq!(rt; outcome.ended, Ended::ReportFault);
    assert_eq!(rt;
        (outcome.written, outcome.working, outcome.protection),
        (
            88 * LINE_FRAME_BYTES,
            96 * LINE_FRAME_BYTES as u64,
            96 * LINE_FRAME_BYTES as u64
        )
    );
    Ok(())
}
