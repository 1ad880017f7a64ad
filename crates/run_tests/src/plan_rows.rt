// The command `run`: what stands on its lines, of tributaries of several slots, of lines cut short, of 32 slots, and
// scrambled.
use crate::plan_runs::{
    FRAME, FROM_LINE, LINE_ROOM, Places, REPORT_ROOM, TO_LINE, byte_at, carried, from_line, input,
    kept, output, packets, plan_of, said, said_of_rest, text_of, to_line,
};
use line_tool::Status;
use otn_base::Memory;
use port_base::Rack;
use std::alloc::Global;
use std::test::Fail;

// What line 0 gets under this plan of a client with one packet.
fn file_of(alloc: Global, plan: &str, room: usize) -> Result<Vec<u8>, Memory> {
    let client = input(alloc, packets(alloc, 1, 60)?, 4096, 0)?;
    let line = output(alloc, room, 0)?;
    let (_, file) = to_line(alloc, plan, client, line, REPORT_ROOM, false)?;
    Ok(file)
}

// What line 1 gets under this plan of this line 0, and the report.
fn switched(alloc: Global, plan: &str, file: Vec<u8>) -> Result<(Vec<u8>, Vec<u8>), Memory> {
    let mut places: Places = Rack::new(alloc)?;
    places.set_line_in(0, input(alloc, file, FRAME, 0)?);
    places.set_line_out(1, output(alloc, LINE_ROOM, 0)?);
    let ran = carried(
        alloc,
        plan_of(alloc, plan)?,
        &mut places,
        REPORT_ROOM,
        false,
    )?;
    Ok((ran.report, kept(alloc, places.line_out(1))?))
}

const THREE_SLOTS: &str = r#"turns = 8
connection = [{ name = "a", kind = "flex", from = { client = 0 }, to = { line = 0, port = 2, slots = [1, 2, 3] }, pace = [45001, 45000] }]
"#;

const SIDE_BY_SIDE: &str = r#"turns = 8
connection = [
    { name = "a", kind = "odu0", from = { client = 0 }, to = { line = 0, port = 1, slots = [3] } },
    { name = "b", kind = "flex", from = { signal = "oci" }, to = { line = 0, port = 2, slots = [1, 2, 8] } },
]
"#;

#[test]
fn each_turn_says_its_groups_and_what_is_left(rt: HostRuntime) -> Result<(), Fail> {
    let alloc = rt.alloc();
    let file = file_of(alloc, THREE_SLOTS, LINE_ROOM)?;
    assert_eq!(rt; said(&file, 10), [0xEA, 0x63, 0x6E]);
    // 15,000 groups in full, three times no change, one more, one less; and D with its check.
    for (frame, first, second, rest, check) in [
        (2_u16, 0x00, 0x03, 0, 0),
        (10, 0xEA, 0x63, 1, 3),
        (18, 0xEA, 0x60, 1, 3),
        (26, 0xEA, 0x60, 2, 6),
        (34, 0xEA, 0x60, 2, 6),
        (42, 0x40, 0xCA, 0, 0),
        (50, 0xBF, 0x31, 0, 0),
    ] {
        let [one, two, _] = said(&file, frame);
        assert_eq!(rt;
            ([one, two], said_of_rest(&file, frame)),
            ([first, second], [0, rest, check]),
            "in frame {frame}"
        );
    }
    Ok(())
}

#[test]
fn tributaries_stand_side_by_side(rt: HostRuntime) -> Result<(), Fail> {
    let alloc = rt.alloc();
    let file = file_of(alloc, SIDE_BY_SIDE, LINE_ROOM)?;
    for (frame, psi) in [
        (2_u16, 0x81),
        (3, 0x81),
        (4, 0x80),
        (5, 0xC0),
        (6, 0xC0),
        (7, 0xC0),
        (8, 0xC0),
        (9, 0x81),
    ] {
        assert_eq!(rt; byte_at(&file, frame, 4, 15), psi, "in frame {frame}");
    }
    for frame in 8..16_u16 {
        let message = match frame % 8 {
            2 | 7 => [0xED, 0x03, 0x2E],
            _ => [0, 0, 0],
        };
        assert_eq!(rt; said(&file, frame), message, "in frame {frame}");
    }
    Ok(())
}

const ALL_SLOTS_FULL: &str = r#"turns = 8
connection = [{ name = "a", kind = "flex", from = { client = 0 }, to = { line = 0, port = 1, slots = [1, 2, 3, 4, 5, 6, 7, 8] }, pace = [121856] }]
"#;

const ALL_SLOTS_ONE_GROUP: &str = r#"turns = 8
connection = [{ name = "a", kind = "flex", from = { client = 0 }, to = { line = 0, port = 1, slots = [1, 2, 3, 4, 5, 6, 7, 8] }, pace = [8] }]
"#;

const ALL_SLOTS_ON: &str = r#"turns = 8
connection = [{ name = "c", kind = "flex", from = { line = 0, port = 1, slots = [1, 2, 3, 4, 5, 6, 7, 8] }, to = { line = 1, port = 1, slots = [1, 2, 3, 4, 5, 6, 7, 8] } }]
"#;

#[test]
fn least_and_most_go_through_a_second_node(rt: HostRuntime) -> Result<(), Fail> {
    let alloc = rt.alloc();
    let file = file_of(alloc, ALL_SLOTS_FULL, LINE_ROOM)?;
    let there = said(&file, 15);
    let (_, on) = switched(alloc, ALL_SLOTS_ON, file)?;
    let full = [0xEE, 0x03, 0xDD];
    assert_eq!(rt;
        (there, said(&on, 31), said(&on, 39)),
        (full, [0, 0, 0], full)
    );
    let file = file_of(alloc, ALL_SLOTS_ONE_GROUP, LINE_ROOM)?;
    let there = [said(&file, 15), said(&file, 23)];
    let (_, on) = switched(alloc, ALL_SLOTS_ON, file)?;
    let one = [[0xAA, 0xAA, 0x56], [0x00, 0x04, 0x34]];
    assert_eq!(rt;
        (there, said(&on, 31), [said(&on, 39), said(&on, 47)]),
        (one, [0, 0, 0], one)
    );
    Ok(())
}

const STOPPING: &str = r#"turns = 8
connection = [{ name = "a", kind = "odu0", from = { client = 0 }, to = { line = 0, port = 1, slots = [3] }, stop = 4, retire = true }]
"#;

// How many payload bytes of so many frames of a line file are not 0, from this frame on.
fn payload_set(file: &[u8], from: usize, frames: usize) -> usize {
    let mut set = 0_usize;
    for (place, byte) in file.iter().enumerate() {
        let column = place % 4080 + 1;
        let counts = from <= place / FRAME && place / FRAME - from < frames;
        if counts && 17 <= column && column <= 3824 && *byte != 0 {
            set = set.saturating_add(1);
        }
    }
    set
}

#[test]
fn a_slot_is_free_after_a_stop(rt: HostRuntime) -> Result<(), Fail> {
    let alloc = rt.alloc();
    let file = file_of(alloc, STOPPING, LINE_ROOM)?;
    // Data first stands in turn 3.
    let carries = payload_set(&file, 16, 16) > 0;
    assert_eq!(rt;
        (
            payload_set(&file, 0, 16),
            carries,
            payload_set(&file, 32, 32)
        ),
        (0, true, 0)
    );
    assert_eq!(rt; said(&file, 26), [0xED, 0x00, 0x39]);
    for frame in 32..64_u16 {
        assert_eq!(rt; said(&file, frame), [0, 0, 0], "in frame {frame}");
    }
    Ok(())
}

const NINE_TURNS_THERE: &str = r#"turns = 9
connection = [{ name = "a", kind = "odu0", from = { client = 0 }, to = { line = 0, port = 1, slots = [3] } }]
"#;

const NINE_TURNS_BACK: &str = r#"turns = 9
connection = [{ name = "b", kind = "odu0", from = { line = 0, port = 1, slots = [3] }, to = { client = 0 } }]
"#;

// Five frames with MFAS 3 to 7, then 64 from MFAS 8 on, then 100 bytes.
fn with_lead_in_and_rest(alloc: Global) -> Result<Vec<u8>, Memory> {
    let file = file_of(alloc, NINE_TURNS_THERE, 72 * FRAME)?;
    let mut bytes = Vec::new(alloc);
    for byte in file.iter().skip(3 * FRAME) {
        bytes.push(*byte)?;
    }
    for _ in 0..100_u32 {
        bytes.push(7)?;
    }
    Ok(bytes)
}

#[test]
fn a_line_has_lead_in_and_rest(rt: HostRuntime) -> Result<(), Fail> {
    let alloc = rt.alloc();
    for (plan, status, report) in [
        (
            NINE_TURNS_BACK,
            Status::Done,
            "turns 9\nline-in 0 frames 69 lead-in 5 lost 0 rest 100 fas 0 sm 0 pm 0 live\nclient-out 0 frames 5 packets 1 live\nconnection b down\nstatus done\n",
        ),
        (
            FROM_LINE,
            Status::Unfinished,
            "turns 8\nline-in 0 frames 69 lead-in 5 lost 0 rest 0 fas 0 sm 0 pm 0 live\nclient-out 0 frames 4 packets 1 live\nconnection b up\nstatus unfinished\n",
        ),
    ] {
        let line = input(alloc, with_lead_in_and_rest(alloc)?, 4096, 0)?;
        let client = output(alloc, 1000, 0)?;
        let (ran, text) = from_line(alloc, plan, line, client)?;
        let sent = packets(alloc, 1, 60)?;
        assert_eq!(rt;
            (ran.status, text_of(&ran.report), text_of(&text)),
            (status, report, text_of(&sent))
        );
    }
    Ok(())
}

const LINE_TO_LINE: &str = r#"turns = 8
connection = [{ name = "c", kind = "odu0", from = { line = 0, port = 1, slots = [3] }, to = { line = 1, port = 1, slots = [3] } }]
"#;

#[test]
fn an_empty_line_and_a_short_one_are_ais(rt: HostRuntime) -> Result<(), Fail> {
    let alloc = rt.alloc();
    for (length, report) in [
        (
            0,
            "turns 8\nline-in 0 frames 0 lead-in 0 lost 0 rest 0 fas 0 sm 0 pm 0 live\nline-out 1 frames 64 live\nconnection c down\nstatus done\n",
        ),
        (
            7 * FRAME,
            "turns 8\nline-in 0 frames 7 lead-in 0 lost 0 rest 0 fas 0 sm 0 pm 0 live\nline-out 1 frames 64 live\nconnection c down\nstatus done\n",
        ),
    ] {
        let mut file = file_of(alloc, TO_LINE, LINE_ROOM)?;
        file.truncate(length);
        let (told, on) = switched(alloc, LINE_TO_LINE, file)?;
        assert_eq!(rt; text_of(&told), report);
        // 15,168 bytes of AIS are emitted from turn 4 on, and go to the line from turn 5 on.
        assert_eq!(rt;
            (said(&on, 26), said(&on, 34), said(&on, 42)),
            ([0, 0, 0], [0xED, 0x03, 0x2E], [0xED, 0x00, 0x39])
        );
    }
    Ok(())
}

const THIRTY_TWO_SLOTS: &str = r#"version = 2
turns = 8
otu3-out = [0]
connection = [{ name = "a", kind = "odu0", from = { client = 0 }, to = { line = 0, port = 20, slots = [17] } }]
"#;

const BOTH_KINDS: &str = r#"version = 2
turns = 8
otu3-in = [0]
connection = [{ name = "c", kind = "odu0", from = { line = 0, port = 20, slots = [17] }, to = { line = 1, port = 2, slots = [5] } }]
"#;

#[test]
fn a_line_of_32_slots_goes_to_one_of_8(rt: HostRuntime) -> Result<(), Fail> {
    let alloc = rt.alloc();
    let client = input(alloc, packets(alloc, 1, 60)?, 4096, 0)?;
    let line = output(alloc, 256 * FRAME, 0)?;
    let (ran, file) = to_line(alloc, THIRTY_TWO_SLOTS, client, line, REPORT_ROOM, false)?;
    assert_eq!(rt;
        (text_of(&ran.report), file.len()),
        (
            "turns 8\nline-out 0 frames 256 live\nclient-in 0 packets 1 spent live\nconnection a client\nstatus done\n",
            256 * FRAME
        )
    );
    assert_eq!(rt;
        (
            said(&file, 16),
            said(&file, 48),
            said(&file, 80),
            byte_at(&file, 18, 4, 15)
        ),
        (
            [0x00, 0x03, 0x17],
            [0xED, 0x03, 0x2E],
            [0xED, 0x00, 0x39],
            0x93
        )
    );
    let (told, on) = switched(alloc, BOTH_KINDS, file)?;
    assert_eq!(rt;
        text_of(&told),
        "turns 8\nline-in 0 frames 256 lead-in 0 lost 0 rest 0 fas 0 sm 0 pm 0 live\nline-out 1 frames 64 live\nconnection c up\nstatus done\n"
    );
    for (turn, message) in [
        (0_u16, [0x00, 0x03, 0x17]),
        (1, [0, 0, 0]),
        (2, [0, 0, 0]),
        (3, [0, 0, 0]),
        (4, [0xED, 0x03, 0x2E]),
        (5, [0xED, 0x00, 0x39]),
        (7, [0xED, 0x00, 0x39]),
    ] {
        assert_eq!(rt; said(&on, 8 * turn + 4), message, "after {turn} turns");
    }
    Ok(())
}

const SCRAMBLED_THERE: &str = r#"version = 2
turns = 8
scrambled-out = [0]
connection = [{ name = "a", kind = "odu0", from = { client = 0 }, to = { line = 0, port = 1, slots = [3] } }]
"#;

const SCRAMBLED_BACK: &str = r#"version = 2
turns = 8
scrambled-in = [0]
connection = [{ name = "b", kind = "odu0", from = { line = 0, port = 1, slots = [3] }, to = { client = 0 } }]
"#;

#[test]
fn a_scrambled_line_is_read_as_one(rt: HostRuntime) -> Result<(), Fail> {
    let alloc = rt.alloc();
    let file = file_of(alloc, SCRAMBLED_THERE, LINE_ROOM)?;
    assert!(rt; file.starts_with(&[0xF6, 0xF6, 0xF6, 0x28, 0x28, 0x28, 0xFF, 0xFF, 0x4E, 0x91]));
    let line = input(alloc, file.clone()?, FRAME, 0)?;
    let (ran, text) = from_line(alloc, SCRAMBLED_BACK, line, output(alloc, 1000, 0)?)?;
    let sent = packets(alloc, 1, 60)?;
    assert_eq!(rt;
        (text_of(&ran.report), text_of(&text)),
        (
            "turns 8\nline-in 0 frames 64 lead-in 0 lost 0 rest 0 fas 0 sm 0 pm 0 live\nclient-out 0 frames 3 packets 1 live\nconnection b up\nstatus done\n",
            text_of(&sent)
        )
    );
    // A line that is taken for a plain one never locks.
    let line = input(alloc, file, FRAME, 0)?;
    let (ran, text) = from_line(alloc, FROM_LINE, line, output(alloc, 1000, 0)?)?;
    let report = text_of(&ran.report);
    let starts = report.starts_with("turns 8\nline-in 0 frames 64 lead-in 64 lost 0 rest 0 ");
    let ends = report.ends_with("\nconnection b down\nstatus done\n");
    assert_eq!(rt;
        (ran.status, starts, ends, text.len()),
        (Status::Done, true, true, 0)
    );
    Ok(())
}
