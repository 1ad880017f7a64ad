// The command `run`: whole runs of plans, there and back.
use line_tool::{Status, run};
use otn_base::Memory;
use otn_ports::{
    Chooser, InPlaceOf, ListedSink, ListedSource, MemSink, MemSource, OutPlaceOf, Rack, Sink,
    Source,
};
use std::alloc::Global;
use std::test::Fail;

/// The places of most runs.
pub type Places = Rack<ListedSource, ListedSink>;

/// Room for the report of any run.
pub const REPORT_ROOM: usize = 8_192;

/// Bytes of a frame.
pub const FRAME: usize = 16_320;

/// Room for 64 frames, which 8 turns of a line have.
pub const LINE_ROOM: usize = 64 * FRAME;

/// A client to slot 3 of line 0.
pub const TO_LINE: &str = r#"turns = 8
connection = [{ name = "a", kind = "odu0", from = { client = 0 }, to = { line = 0, port = 1, slots = [3] } }]
"#;

/// Slot 3 of line 0 to a client.
pub const FROM_LINE: &str = r#"turns = 8
connection = [{ name = "b", kind = "odu0", from = { line = 0, port = 1, slots = [3] }, to = { client = 0 } }]
"#;

/// The report of the first, where nothing fails and the client has one packet.
pub const THERE: &str =
    "turns 8\nline-out 0 frames 64 live\nclient-in 0 packets 1 spent live\nconnection a client\nstatus done\n";

// The report of the second, on what the first wrote.
const BACK: &str =
    "turns 8\nline-in 0 frames 64 lead-in 0 lost 0 rest 0 fas 0 sm 0 pm 0 live\nclient-out 0 frames 3 packets 1 live\nconnection b up\nstatus done\n";

// The same where other tributaries' bytes were changed: seven MSI bytes make seven parities wrong.
const BACK_AMONG_OTHERS: &str =
    "turns 8\nline-in 0 frames 64 lead-in 0 lost 0 rest 0 fas 0 sm 7 pm 7 live\nclient-out 0 frames 3 packets 1 live\nconnection b up\nstatus done\n";

/// Chooses the first or the last, and counts how often it was asked.
#[derive(Drop)]
struct Counting {
    last: bool,
    asked: u64,
}

impl Chooser for Counting {
    ghost use Rattle.std.specs.Prelude.{◌≡◌};
    ghost use Rattle.port_base.specs.Bytes.{raised};

    ghost asked = { λ c. c.asked };

    fn pick(&mut self, n: u32) -> u32
        ensures { self.new.asked ≡ raised self.old.asked 1 }
    {
        self.asked = self.asked.saturating_add(1);
        if self.last { n.saturating_sub(1) } else { 0 }
    }
}

/// What a run answered, what it wrote, and how often it asked its chooser.
#[derive(Drop)]
pub struct Ran {
    pub status: Status,
    pub report: Vec<u8>,
    pub asked: u64,
}

/// A run of a plan over these places. It chooses the first of the ports that are ready, or the last, and has room for
/// so many bytes of its report.
pub fn carried<P: Source, I: Source, O: Sink>(
    alloc: Global,
    mut plan: P,
    places: &mut Rack<I, O>,
    room: usize,
    last: bool,
) -> Result<Ran, Memory> {
    let words = vec![in alloc; String::from_str(alloc, "run")?]?;
    let mut report = MemSink::with_room(alloc, room)?;
    let mut chooser = Counting { last, asked: 0 };
    let status = run(alloc, &words, &mut plan, places, &mut chooser, &mut report);
    Ok(Ran {
        status,
        report: report.into_bytes(),
        asked: chooser.asked,
    })
}

/// A plan's text, as a source.
pub fn plan_of(alloc: Global, text: &str) -> Result<MemSource, Memory> {
    Ok(MemSource::new(Vec::from_slice(alloc, text.as_bytes())?))
}

/// A live input of these bytes. It gives at most so many a read, and fails at the read of this number, from 1.
pub fn input(
    alloc: Global,
    bytes: Vec<u8>,
    most: usize,
    failing: u32,
) -> Result<InPlaceOf<ListedSource>, Memory> {
    let failing = vec![in alloc; failing; 1]?;
    Ok(InPlaceOf::Live(ListedSource::new(bytes, failing, most.max(1)), 0))
}

/// A live output with room for so many bytes. It fails at the write of this number, from 1.
pub fn output(alloc: Global, room: usize, failing: u32) -> Result<OutPlaceOf<ListedSink>, Memory> {
    let failing = vec![in alloc; failing; 1]?;
    Ok(OutPlaceOf::Live(ListedSink::with_room(alloc, room, failing)?, 0))
}

/// What an output got.
pub fn kept(alloc: Global, place: &OutPlaceOf<ListedSink>) -> Result<Vec<u8>, Memory> {
    let mut bytes = Vec::new(alloc);
    if let Some(got) = place.kept() {
        bytes.extend_from_slice(got)?;
    }
    Ok(bytes)
}

/// A run with client input 0 and line output 0, and what the line got.
pub fn to_line(
    alloc: Global,
    plan: &str,
    client: InPlaceOf<ListedSource>,
    line: OutPlaceOf<ListedSink>,
    room: usize,
    last: bool,
) -> Result<(Ran, Vec<u8>), Memory> {
    let mut places: Places = Rack::new(alloc)?;
    places.set_client_in(0, client);
    places.set_line_out(0, line);
    let ran = carried(alloc, plan_of(alloc, plan)?, &mut places, room, last)?;
    let file = kept(alloc, places.line_out(0))?;
    Ok((ran, file))
}

/// A run with line input 0 and client output 0, and what the client got.
pub fn from_line(
    alloc: Global,
    plan: &str,
    line: InPlaceOf<ListedSource>,
    client: OutPlaceOf<ListedSink>,
) -> Result<(Ran, Vec<u8>), Memory> {
    let mut places: Places = Rack::new(alloc)?;
    places.set_line_in(0, line);
    places.set_client_out(0, client);
    let ran = carried(
        alloc,
        plan_of(alloc, plan)?,
        &mut places,
        REPORT_ROOM,
        false,
    )?;
    let text = kept(alloc, places.client_out(0))?;
    Ok((ran, text))
}

/// The text of so many packets, each of so many bytes.
pub fn packets(alloc: Global, count: usize, length: usize) -> Result<Vec<u8>, Memory> {
    let mut text = Vec::new(alloc);
    for _ in 0..count {
        for n in 0..length {
            text.push(b'0' + (n % 8) as u8)?;
            text.push(b'a' + (n % 6) as u8)?;
        }
        text.push(b'\n')?;
    }
    Ok(text)
}

/// A report, or another text.
pub fn text_of(bytes: &[u8]) -> &str {
    str::from_utf8(bytes).unwrap_or("no text")
}

/// The byte of a line file in this frame, from 0, row and column, from 1.
pub fn byte_at(file: &[u8], frame: u16, row: u16, column: u16) -> u8 {
    let place = FRAME * frame as usize + 4080 * row as usize + column as usize;
    file.get(place.saturating_sub(4081)).copied().unwrap_or(0)
}

/// JC1 to JC3 in a frame.
pub fn said(file: &[u8], frame: u16) -> [u8; 3] {
    [
        byte_at(file, frame, 1, 16),
        byte_at(file, frame, 2, 16),
        byte_at(file, frame, 3, 16),
    ]
}

/// JC4 to JC6 in a frame.
pub fn said_of_rest(file: &[u8], frame: u16) -> [u8; 3] {
    [
        byte_at(file, frame, 1, 15),
        byte_at(file, frame, 2, 15),
        byte_at(file, frame, 3, 15),
    ]
}

// Whether the byte at this place of a line file belongs to another slot than slot 3: its payload, its message, or its
// MSI.
fn is_foreign(place: usize) -> bool {
    let frame = place / FRAME;
    let row = place % FRAME / 4080 + 1;
    let column = place % 4080 + 1;
    match column {
        17..=3824 => column % 8 != 3,
        16 => row < 4 && frame % 8 != 2,
        15 if row < 4 => frame % 8 != 2,
        15 => 2 <= frame && frame <= 9 && frame != 4,
        _ => false,
    }
}

// A line file with FF in each byte of other slots.
fn among_others(alloc: Global, file: &[u8]) -> Result<Vec<u8>, Memory> {
    let mut bytes = Vec::new(alloc);
    for (place, byte) in file.iter().enumerate() {
        bytes.push(if is_foreign(place) { 0xFF } else { *byte })?;
    }
    Ok(bytes)
}

#[test]
fn a_packet_goes_to_a_line(rt: HostRuntime) -> Result<(), Fail> {
    let alloc = rt.alloc();
    for last in [false, true] {
        let client = input(alloc, packets(alloc, 1, 60)?, 4096, 0)?;
        let line = output(alloc, LINE_ROOM, 0)?;
        let (ran, file) = to_line(alloc, TO_LINE, client, line, REPORT_ROOM, last)?;
        // It asks in each of 8 turns for 8 frames of the line and one piece of the client.
        assert_eq!(rt;
            (ran.status, text_of(&ran.report), ran.asked, file.len()),
            (Status::Done, THERE, 72, 1_044_480)
        );
        for (frame, message) in [
            (2, [0x00, 0x03, 0x17]),
            (10, [0xED, 0x03, 0x2E]),
            (18, [0xED, 0x00, 0x39]),
        ] {
            assert_eq!(rt;
                (said(&file, frame), said_of_rest(&file, frame)),
                (message, [0, 0, 0])
            );
        }
    }
    Ok(())
}

#[test]
fn a_packet_comes_back(rt: HostRuntime) -> Result<(), Fail> {
    let alloc = rt.alloc();
    let client = input(alloc, packets(alloc, 1, 60)?, 4096, 0)?;
    let line = output(alloc, LINE_ROOM, 0)?;
    let (_, file) = to_line(alloc, TO_LINE, client, line, REPORT_ROOM, false)?;
    let changed = among_others(alloc, &file)?;
    for (file, report) in [(file, BACK), (changed, BACK_AMONG_OTHERS)] {
        let line = input(alloc, file, FRAME, 0)?;
        let client = output(alloc, 1000, 0)?;
        let (ran, text) = from_line(alloc, FROM_LINE, line, client)?;
        let sent = packets(alloc, 1, 60)?;
        assert_eq!(rt;
            (ran.status, text_of(&ran.report), text_of(&text)),
            (Status::Done, report, text_of(&sent))
        );
    }
    Ok(())
}
