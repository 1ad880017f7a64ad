// Captures among the clients of a run.
use crate::plan_runs::{FROM_LINE, LINE_ROOM, TO_LINE, text_of};
use line_tool::{Status, run};
use otn_base::Memory;
use otn_ports::{
    Bays, FirstReady, InPlace, InPlaceOf, InPort, ListedSource, MemSink, MemSource, OutPlace,
    OutPlaceOf, OutPort, Rack, Sink, Source,
};
use pcap_packets::{PcapSink, PcapSource};
use std::alloc::Global;
use std::test::Fail;

// Two packets, of which the second is cut short.
const CAPTURE: [u8; 58] = [
    0xD4, 0xC3, 0xB2, 0xA1, 2, 0, 4, 0, 0, 0, 0, 0, 0, 0, 0, 0, 0xFF, 0xFF, 0, 0, 1, 0, 0, 0, 0, 0,
    0, 0, 0, 0, 0, 0, 2, 0, 0, 0, 2, 0, 0, 0, 0x11, 0x11, 0, 0, 0, 0, 0, 0, 0, 0, 1, 0, 0, 0, 5, 0,
    0, 0,
];

const TWO: &str = r#"turns = 8
connection = [
  { name = "a", kind = "odu0", from = { client = 0 }, to = { line = 0, port = 1, slots = [1] } },
  { name = "b", kind = "odu0", from = { client = 1 }, to = { line = 0, port = 2, slots = [2] } },
]
"#;

// What these words answer over these places, with this plan, and what they report.
fn ran<I: Source, O: Sink>(
    alloc: Global,
    words: &[&str],
    plan: &str,
    places: &mut Rack<I, O>,
) -> Result<(Status, Vec<u8>), Memory> {
    let mut texts = Vec::new(alloc);
    for word in words {
        texts.push(String::from_str(alloc, word)?)?;
    }
    let mut plan = MemSource::new(Vec::from_slice(alloc, plan.as_bytes())?);
    let mut report = MemSink::with_room(alloc, 200_000)?;
    let mut chooser = FirstReady::new();
    let status = run(alloc, &texts, &mut plan, places, &mut chooser, &mut report);
    Ok((status, report.into_bytes()))
}

// A line output in memory.
fn line_room(alloc: Global) -> Result<MemSink, Memory> {
    MemSink::with_room(alloc, LINE_ROOM)
}

// What went to line output 0.
fn line_file(alloc: Global, places: &Bays) -> Result<Vec<u8>, Memory> {
    match places.line_out(0) {
        OutPlace::Live(OutPort::Held(sink), _) => match sink.kept() {
            Some(bytes) => Ok(Vec::from_slice(alloc, bytes)?),
            None => Ok(Vec::new(alloc)),
        },
        _ => Ok(Vec::new(alloc)),
    }
}

// What a live output wrote of captures.
fn captured(place: &OutPlaceOf<PcapSink<MemSink>>) -> Option<&[u8]> {
    match place {
        OutPlaceOf::Live(sink, _) => sink.inner().kept(),
        _ => None,
    }
}

#[test]
fn a_capture_there_and_back(rt: HostRuntime) -> Result<(), Fail> {
    let alloc = rt.alloc();
    let mut bays = Bays::new(alloc)?;
    let capture = MemSource::new(Vec::from_slice(alloc, &CAPTURE)?);
    let port: Box<dyn Source> = Box::new(alloc, PcapSource::new(alloc, capture)?)?;
    bays.set_client_in(0, InPlace::Live(InPort::Boxed(port), 0));
    let room = OutPort::Held(line_room(alloc)?);
    bays.set_line_out(0, OutPlace::Live(room, 0));
    let (status, report) = ran(alloc, &["run", "--pcap"], TO_LINE, &mut bays)?;
    assert_eq!(rt;
        (status, text_of(&report)),
        (
            Status::Unfinished,
            "turns 8\nline-out 0 frames 64 live\nclient-in 0 packets 1 bad 2 live\nconnection a client\nstatus unfinished\n"
        )
    );
    let line = line_file(alloc, &bays)?;
    let mut places: Rack<MemSource, PcapSink<MemSink>> = Rack::new(alloc)?;
    places.set_line_in(0, InPlaceOf::Live(MemSource::new(line), 0));
    let sink = PcapSink::new(alloc, MemSink::with_room(alloc, 1000)?)?;
    places.set_client_out(0, OutPlaceOf::Live(sink, 0));
    let (status, _report) = ran(alloc, &["run", "--pcap"], FROM_LINE, &mut places)?;
    assert_eq!(rt;
        (status, captured(places.client_out(0))),
        (Status::Done, Some(&CAPTURE[..42]))
    );
    Ok(())
}

// The slot's own bytes in the file of the line where client 1 is a capture, whose reads of these numbers fail, and the
// answer and the report.
fn beside_a_capture(
    rt: &HostRuntime,
    failing: &[u32],
) -> Result<(Status, Vec<u8>, Vec<u8>), Memory> {
    let alloc = rt.alloc();
    let mut bays = Bays::new(alloc)?;
    let text = MemSource::new(Vec::from_slice(alloc, b"1111\n")?);
    bays.set_client_in(0, InPlace::Live(InPort::Held(text), 0));
    let failing = Vec::from_slice(alloc, failing)?;
    let capture = ListedSource::new(Vec::from_slice(alloc, &CAPTURE[..42])?, failing, 16);
    let port: Box<dyn Source> = Box::new(alloc, PcapSource::new(alloc, capture)?)?;
    bays.set_client_in(1, InPlace::Live(InPort::Boxed(port), 0));
    let room = OutPort::Held(line_room(alloc)?);
    bays.set_line_out(0, OutPlace::Live(room, 0));
    let (status, report) = ran(alloc, &["run", "--pcap"], TWO, &mut bays)?;
    let line = line_file(alloc, &bays)?;
    let mut places: Rack<MemSource, MemSink> = Rack::new(alloc)?;
    places.set_line_in(0, InPlaceOf::Live(MemSource::new(line), 0));
    let (_done, slot) = ran(alloc, &["slot", "1"], "", &mut places)?;
    Ok((status, report, slot))
}

#[test]
fn a_capture_that_fails_leaves_the_others(rt: HostRuntime) -> Result<(), Fail> {
    let (well, _report, own) = beside_a_capture(&rt, &[])?;
    let (cut, report, same) = beside_a_capture(&rt, &[1])?;
    assert_eq!(rt;
        (well, cut, own.len(), own == same),
        (Status::Done, Status::Cut, 64 * 1_904, true)
    );
    assert_eq!(rt;
        text_of(&report),
        "turns 8\nline-out 0 frames 64 live\nclient-in 0 packets 1 spent live\nclient-in 1 packets 0 open dead\nconnection a client\nconnection b client\nstatus cut\n"
    );
    Ok(())
}
