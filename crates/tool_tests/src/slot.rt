// The command `slot`.
use crate::line_runs::{FailsAt, ran};
use line_tool::Status;
use otn_base::Memory;
use otn_ports::{MemSource, ReaderSource};
use std::alloc::Global;
use std::io::Cursor;
use std::test::Fail;

// Frames in each of which the payload byte in column c is (c - 17 + f) mod 256, f from 0, and all others are 255;
// then some more bytes.
fn numbered(alloc: Global, frames: u32, more: usize) -> Result<Vec<u8>, Memory> {
    let mut bytes = Vec::new(alloc);
    for f in 0..frames {
        for _ in 0..4_u32 {
            for column in 1..4081_u32 {
                let own = 17 <= column && column <= 3824;
                bytes.push(if own {
                    ((column - 17 + f % 256) % 256) as u8
                } else {
                    255
                })?;
            }
        }
    }
    for _ in 0..more {
        bytes.push(7)?;
    }
    Ok(bytes)
}

// Slot 3 of such frames: in each row of the first the 476 bytes 02, 0A, 12 and so on by 8, of the second 03, 0B, 13.
fn slot_three(alloc: Global, frames: u32) -> Result<Vec<u8>, Memory> {
    let mut bytes = Vec::new(alloc);
    for f in 0..frames {
        for _ in 0..4_u32 {
            for cycle in 0..476_u32 {
                bytes.push(((2 + 8 * cycle + f % 256) % 256) as u8)?;
            }
        }
    }
    Ok(bytes)
}

// A file of such frames, which looks ahead.
fn file(alloc: Global, frames: u32, more: usize) -> Result<ReaderSource<Cursor<Vec<u8>>>, Memory> {
    Ok(ReaderSource::over(Cursor::new(numbered(alloc, frames, more)?)))
}

#[test]
fn slot_writes_whole_frames(rt: HostRuntime) -> Result<(), Fail> {
    let alloc = rt.alloc();
    for (frames, more, room, status, whole) in [
        (1, 0, 5000, Status::Done, 1),
        (1, 5, 5000, Status::Unfinished, 1),
        (0, 0, 5000, Status::Done, 0),
        (0, 16_319, 5000, Status::Unfinished, 0),
        (2, 0, 5000, Status::Done, 2),
        (2, 0, 1904, Status::ReportFault, 1),
        (2, 0, 0, Status::ReportFault, 0),
    ] {
        let line = MemSource::new(numbered(alloc, frames, more)?);
        let outcome = ran(alloc, &["slot", "3"], line, room)?;
        let as_wanted = outcome.written == slot_three(alloc, whole)?;
        assert_eq!(rt;
            (outcome.status, as_wanted, outcome.dead),
            (status, true, false),
            "{frames} frames and {more} bytes into {room}"
        );
    }
    Ok(())
}

#[test]
fn other_words_touch_nothing(rt: HostRuntime) -> Result<(), Fail> {
    let alloc = rt.alloc();
    let forms: [&[&str]; 8] = [
        &[],
        &["slot"],
        &["slot", "9"],
        &["slot", "0"],
        &["slot", "33"],
        &["slot", "3", "4"],
        &["Slot", "3"],
        &["run", "extra"],
    ];
    for words in forms {
        let line = MemSource::new(numbered(alloc, 1, 0)?);
        let outcome = ran(alloc, words, line, 5000)?;
        assert_eq!(rt;
            (outcome.status, outcome.taken, outcome.written.len()),
            (Status::Words, 0, 0),
            "{words:?}"
        );
    }
    Ok(())
}

#[test]
fn a_line_that_fails_is_cut(rt: HostRuntime) -> Result<(), Fail> {
    let alloc = rt.alloc();
    for (call, whole) in [(1, 0), (2, 1)] {
        let line = FailsAt::new(numbered(alloc, 3, 0)?, call);
        let outcome = ran(alloc, &["slot", "3"], line, 10_000)?;
        let as_wanted = outcome.written == slot_three(alloc, whole)?;
        assert_eq!(rt;
            (outcome.status, as_wanted, outcome.dead),
            (Status::Cut, true, true),
            "at call {call}"
        );
    }
    Ok(())
}

#[test]
fn frames_at_hand_are_written_as_one_by_one(rt: HostRuntime) -> Result<(), Fail> {
    let alloc = rt.alloc();
    for (frames, more, status, taken) in [
        (0, 0, Status::Done, 0),
        (1, 0, Status::Done, 16_320),
        (7, 0, Status::Done, 114_240),
        (8, 0, Status::Done, 130_560),
        (9, 0, Status::Done, 146_880),
        (17, 0, Status::Done, 277_440),
        (17, 16_319, Status::Unfinished, 293_759),
    ] {
        let line = file(alloc, frames, more)?;
        let outcome = ran(alloc, &["slot", "3"], line, 40_000)?;
        let as_wanted = outcome.written == slot_three(alloc, frames)?;
        assert_eq!(rt;
            (outcome.status, outcome.taken, as_wanted),
            (status, taken, true),
            "{frames} and {more}"
        );
    }
    Ok(())
}

#[test]
fn a_failed_write_takes_the_frames_up_to_its_own(rt: HostRuntime) -> Result<(), Fail> {
    let alloc = rt.alloc();
    let wanted = slot_three(alloc, 17)?;
    for (room, taken) in [
        (0, 16_320),
        (1_903, 16_320),
        (1_904, 32_640),
        (9_527, 97_920),
        (15_231, 130_560),
        (15_232, 146_880),
        (32_367, 277_440),
    ] {
        let outcome = ran(alloc, &["slot", "3"], file(alloc, 17, 0)?, room)?;
        let is_front = wanted.starts_with(outcome.written.as_slice());
        assert_eq!(rt;
            (
                outcome.status,
                outcome.taken,
                outcome.written.len(),
                is_front,
                outcome.dead
            ),
            (Status::ReportFault, taken, room, true, false),
            "into {room}"
        );
    }
    Ok(())
}
