// The command `pull`.
use crate::line_runs::{FailsAt, ran};
use line_tool::Status;
use otn_base::Memory;
use port_base::{MemSource, Source};
use std::alloc::Global;
use std::test::Fail;

/// How many groups of a multiframe carry data in these lines, of one byte each in one slot.
pub const DATA_GROUPS: usize = 15_168;

// A byte of a frame of this turn, from 1, of a line that carries a tributary of port 1 in slot 3. Its payload is the
// byte that `fill` gives, or else the turn's number. What is not the tributary's is never 0.
fn byte_of(fill: Option<u8>, turn: u8, mfas: u8, row: u32, column: u32) -> u8 {
    let told = mfas % 8 == 2 && row < 4;
    if row == 1 && column == 7 {
        return mfas;
    }
    if row == 4 && column == 15 && mfas == 4 {
        return 0x80;
    }
    if told && column == 15 {
        return 0;
    }
    if told && column == 16 {
        return message(turn, row);
    }
    if column % 8 == 3 && 17 <= column && column <= 3824 {
        return fill.unwrap_or(turn);
    }
    (row.wrapping_mul(61).wrapping_add(column) % 255 + 1) as u8
}

// JC1 to JC3 in the rows 1 to 3: 15,168 groups, said in full in turn 1, and no change after it.
fn message(turn: u8, row: u32) -> u8 {
    match (turn, row) {
        (_, 1) => 0xED,
        (0..=1, 2) => 0x03,
        (0..=1, _) => 0x2E,
        (_, 2) => 0x00,
        _ => 0x39,
    }
}

fn push_frame(bytes: &mut Vec<u8>, fill: Option<u8>, turn: u8, mfas: u8) -> Result<(), Memory> {
    for row in 1..5_u32 {
        for column in 1..4081_u32 {
            bytes.push(byte_of(fill, turn, mfas, row, column))?;
        }
    }
    Ok(())
}

/// A line: frames of these MFAS bytes, like those of turn 1 but with payload 0; so many frames of MFAS 0, 1, 2 and so
/// on, of the turns 1, 2 and so on; and then some more bytes.
pub fn line(
    alloc: Global,
    fill: Option<u8>,
    lead: &[u8],
    frames: u32,
    more: usize,
) -> Result<Vec<u8>, Memory> {
    let mut bytes = Vec::new(alloc);
    for mfas in lead {
        push_frame(&mut bytes, fill, 0, *mfas)?;
    }
    for n in 0..frames {
        push_frame(&mut bytes, fill, (n / 8 % 255 + 1) as u8, (n % 256) as u8)?;
    }
    for _ in 0..more {
        bytes.push(7)?;
    }
    Ok(bytes)
}

/// A byte of the AIS stream, counted from 0.
pub fn ais_byte(place: usize) -> u8 {
    match place % 15_296 {
        0..=2 => 0xF6,
        3..=5 => 0x28,
        6 => (place / 15_296 % 256) as u8,
        7..=13 | 3837 => 0,
        _ => 0xFF,
    }
}

// What is emitted, 15,168 bytes a turn: the payload of the turn with this number, or AIS where it is 0, which stands
// first. At most so many bytes.
fn emitted(alloc: Global, turns: &[u8], room: usize) -> Result<Vec<u8>, Memory> {
    let mut bytes = Vec::new(alloc);
    for turn in turns {
        for _ in 0..DATA_GROUPS {
            let place = bytes.len();
            bytes.push(if *turn == 0 { ais_byte(place) } else { *turn })?;
        }
    }
    bytes.truncate(room);
    Ok(bytes)
}

// A line for `pull` of this port and slot 3, whose report has so much room, and what is wanted: a status, and what is
// emitted in these turns.
#[derive(Clone, Copy)]
struct Pull<'a> {
    port: &'a str,
    lead: &'a [u8],
    frames: u32,
    more: usize,
    room: usize,
    status: Status,
    turns: &'a [u8],
}

#[test]
fn pull_writes_what_the_sink_emits(rt: HostRuntime) -> Result<(), Fail> {
    let alloc = rt.alloc();
    let again = [0, 1, 2, 3, 4, 5, 6, 7, 0, 1, 2, 3, 4, 5, 6, 7];
    let done = Pull {
        port: "1",
        lead: &[],
        frames: 0,
        more: 0,
        room: 100_000,
        status: Status::Done,
        turns: &[],
    };
    let part = Pull {
        status: Status::Unfinished,
        ..done
    };
    let full = Pull {
        frames: 40,
        status: Status::ReportFault,
        ..done
    };
    let cases = [
        // Ends of the line.
        done,
        Pull { more: 1, ..part },
        Pull { frames: 7, ..done },
        Pull {
            frames: 7,
            more: 1,
            ..part
        },
        Pull { frames: 8, ..done },
        Pull {
            frames: 11,
            more: 16_319,
            ..part
        },
        Pull { frames: 12, ..done },
        Pull {
            frames: 16,
            turns: &[2],
            ..done
        },
        Pull {
            frames: 27,
            more: 8000,
            turns: &[2, 3],
            ..part
        },
        Pull {
            frames: 40,
            turns: &[2, 3, 4, 5],
            ..done
        },
        // Hunts: AIS from the fourth turn on where none had a multiframe.
        Pull {
            lead: &[3; 7],
            frames: 40,
            turns: &[2, 3, 4, 5],
            ..done
        },
        Pull {
            lead: &[3; 32],
            frames: 40,
            turns: &[0, 2, 3, 4, 5],
            ..done
        },
        Pull {
            lead: &[3; 32],
            turns: &[0, 0],
            ..done
        },
        Pull {
            lead: &[3; 31],
            turns: &[0],
            ..done
        },
        // Two MSI bytes of port 1.
        Pull {
            lead: &again,
            frames: 16,
            turns: &[2],
            ..done
        },
        Pull {
            port: "2",
            lead: &again,
            frames: 16,
            turns: &[0, 0, 0],
            ..done
        },
        // A report with too little room.
        Pull {
            frames: 8,
            room: 0,
            ..done
        },
        Pull {
            room: 20_000,
            turns: &[2, 3, 4, 5],
            ..full
        },
        Pull { room: 0, ..full },
    ];
    for case in cases {
        let source = MemSource::new(line(alloc, None, case.lead, case.frames, case.more)?);
        let answer = answered(alloc, case.port, source, case.turns, case.room)?;
        assert_eq!(rt;
            answer,
            (case.status, true, false),
            "port {}: {:?}, {} frames and {} bytes into {}",
            case.port,
            case.lead,
            case.frames,
            case.more,
            case.room
        );
    }
    Ok(())
}

// How `pull` of slot 3 ends, whether it wrote what is emitted in these turns, and whether the line is dead.
fn answered<I: Source>(
    alloc: Global,
    port: &str,
    source: I,
    turns: &[u8],
    room: usize,
) -> Result<(Status, bool, bool), Memory> {
    let outcome = ran(alloc, &["pull", port, "3"], source, room)?;
    let wanted = emitted(alloc, turns, room)?;
    let same = outcome.written.as_slice() == wanted.as_slice();
    Ok((outcome.status, same, outcome.dead))
}

#[test]
fn pull_writes_the_same_from_any_frame_on(rt: HostRuntime) -> Result<(), Fail> {
    let alloc = rt.alloc();
    let cases: [(&[u8], usize, Status); 2] = [
        (&[], 0, Status::Done),
        (&[5, 6, 7], 9, Status::Unfinished),
    ];
    for (lead, more, status) in cases {
        let source = MemSource::new(line(alloc, Some(0xA5), lead, 40, more)?);
        let outcome = ran(alloc, &["pull", "1", "3"], source, 100_000)?;
        let all_alike = outcome.written.iter().all(|byte| *byte == 0xA5);
        assert_eq!(rt;
            (outcome.status, outcome.written.len(), all_alike),
            (status, 60_672, true),
            "after {lead:?}"
        );
    }
    Ok(())
}

// A line of port 1 that fails at this call, into a report with so much room, and what is wanted of `pull`.
#[derive(Clone, Copy)]
struct Fails<'a> {
    lead: &'a [u8],
    call: u32,
    room: usize,
    status: Status,
    turns: &'a [u8],
}

#[test]
fn pull_ends_where_its_line_fails(rt: HostRuntime) -> Result<(), Fail> {
    let alloc = rt.alloc();
    let ahead: &[u8] = &[
        3, 3, 3, 3, 3, 3, 3, 3, 3, 3, 3, 3, 3, 3, 3, 3, 3, 3, 3, 3, 3, 3, 3, 3, 3, 3, 3, 3, 3, 3,
        3, 8,
    ];
    let cut = Fails {
        lead: &[],
        call: 1,
        room: 100_000,
        status: Status::Cut,
        turns: &[],
    };
    let cases = [
        cut,
        Fails { call: 12, ..cut },
        Fails {
            call: 20,
            turns: &[2],
            ..cut
        },
        Fails {
            call: 20,
            room: 0,
            status: Status::ReportFault,
            ..cut
        },
        // The read that looks ahead: one more turn is done.
        Fails {
            lead: ahead,
            call: 33,
            turns: &[0, 0],
            ..cut
        },
    ];
    for case in cases {
        let source = FailsAt::new(line(alloc, None, case.lead, 40, 0)?, case.call);
        let answer = answered(alloc, "1", source, case.turns, case.room)?;
        assert_eq!(rt;
            answer,
            (case.status, true, true),
            "at call {} into {}",
            case.call,
            case.room
        );
    }
    Ok(())
}

#[test]
fn pull_is_told_by_its_words(rt: HostRuntime) -> Result<(), Fail> {
    let alloc = rt.alloc();
    let forms: [&[&str]; 20] = [
        &["pull"],
        &["pull", "1"],
        &["pull", "1", "3", "3"],
        &["Pull", "1", "3"],
        &["pull", "9", "3"],
        &["pull", "0", "3"],
        &["pull", "01", "3"],
        &["pull", "", "3"],
        &["pull", "1", ""],
        &["pull", "1", "3,3"],
        &["pull", "1", "4,3"],
        &["pull", "1", "3,"],
        &["pull", "1", ",3"],
        &["pull", "1", "3,,4"],
        &["pull", "1", "3;4"],
        &["pull", "1", "34"],
        &["pull", "1", "0"],
        &["pull", "1", "9"],
        &["pull", "1", "1,2,3,4,5,6,7,8,8"],
        &["pull", "1", "1,2,3,4,5,6,7,8,9"],
    ];
    for words in forms {
        let source = MemSource::new(line(alloc, None, &[], 1, 0)?);
        let outcome = ran(alloc, words, source, 5000)?;
        assert_eq!(rt;
            (outcome.status, outcome.taken, outcome.written.len()),
            (Status::Words, 0, 0),
            "{words:?}"
        );
    }
    for (port, slots) in [("1", "8"), ("8", "1,2,8"), ("1", "1,2,3,4,5,6,7,8")] {
        let source = MemSource::new(Vec::new(alloc));
        let outcome = ran(alloc, &["pull", port, slots], source, 0)?;
        assert_eq!(rt;
            (outcome.status, outcome.written.len()),
            (Status::Done, 0),
            "{port} {slots}"
        );
    }
    Ok(())
}
