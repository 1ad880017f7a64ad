// The command `run`, where a port fails, a client's text is bad or too long, or a report has no room.
use crate::plan_runs::{
    FRAME, FROM_LINE, LINE_ROOM, Places, REPORT_ROOM, THERE, TO_LINE, carried, from_line, input,
    kept, output, packets, plan_of, text_of, to_line,
};
use line_tool::Status;
use otn_base::Memory;
use otn_ports::{InPlaceOf, ListedSource, OutPlaceOf, Rack};
use std::alloc::Global;
use std::test::Fail;

// What the line gets of a client with one packet, where nothing fails.
fn whole_file(alloc: Global) -> Result<Vec<u8>, Memory> {
    let client = input(alloc, packets(alloc, 1, 60)?, 4096, 0)?;
    let line = output(alloc, LINE_ROOM, 0)?;
    let (_, file) = to_line(alloc, TO_LINE, client, line, REPORT_ROOM, false)?;
    Ok(file)
}

#[test]
fn an_output_or_a_report_fails(rt: HostRuntime) -> Result<(), Fail> {
    let alloc = rt.alloc();
    let file = whole_file(alloc)?;
    for (line_room, failing, report_room, status, report, written) in [
        (LINE_ROOM, 0, 0, Status::ReportFault, "", LINE_ROOM),
        (LINE_ROOM, 0, 7, Status::ReportFault, "turns 8", LINE_ROOM),
        (LINE_ROOM, 0, THERE.len(), Status::Done, THERE, LINE_ROOM),
        (
            LINE_ROOM,
            1,
            REPORT_ROOM,
            Status::Cut,
            "turns 8\nline-out 0 frames 0 dead\nclient-in 0 packets 1 spent live\nconnection a client\nstatus cut\n",
            0,
        ),
        (
            16_330,
            0,
            REPORT_ROOM,
            Status::Cut,
            "turns 8\nline-out 0 frames 1 dead\nclient-in 0 packets 1 spent live\nconnection a client\nstatus cut\n",
            16_330,
        ),
    ] {
        let client = input(alloc, packets(alloc, 1, 60)?, 4096, 0)?;
        let line = output(alloc, line_room, failing)?;
        let (ran, got) = to_line(alloc, TO_LINE, client, line, report_room, false)?;
        assert_eq!(rt;
            (
                ran.status,
                text_of(&ran.report),
                got.len(),
                file.starts_with(&got)
            ),
            (status, report, written, true)
        );
    }
    Ok(())
}

// How many bytes a live place gave or got.
fn given<P>(place: &InPlaceOf<P>) -> Option<u64> {
    match place {
        InPlaceOf::Live(_, number) => Some(*number),
        _ => None,
    }
}

fn gotten<K>(place: &OutPlaceOf<K>) -> Option<u64> {
    match place {
        OutPlaceOf::Live(_, number) => Some(*number),
        _ => None,
    }
}

#[test]
fn a_plan_that_fails_touches_no_place(rt: HostRuntime) -> Result<(), Fail> {
    let alloc = rt.alloc();
    let mut places: Places = Rack::new(alloc)?;
    places.set_client_in(0, input(alloc, packets(alloc, 1, 60)?, 4096, 1)?);
    places.set_line_out(0, output(alloc, LINE_ROOM, 1)?);
    let text = Vec::from_slice(alloc, TO_LINE.as_bytes())?;
    let plan = ListedSource::new(text, vec![in alloc; 1_u32]?, 4096);
    let ran = carried(alloc, plan, &mut places, REPORT_ROOM, false)?;
    assert_eq!(rt;
        (ran.status, ran.report.len(), ran.asked),
        (Status::PlanFault, 0, 0)
    );
    assert_eq!(rt;
        (given(places.client_in(0)), gotten(places.line_out(0))),
        (Some(0), Some(0))
    );
    Ok(())
}

#[test]
fn a_line_fails_or_a_client_that_it_goes_to(rt: HostRuntime) -> Result<(), Fail> {
    let alloc = rt.alloc();
    for (line_failing, client_failing, report) in [
        (
            9,
            0,
            "turns 8\nline-in 0 frames 8 lead-in 0 lost 0 rest 0 fas 0 sm 0 pm 0 dead\nclient-out 0 frames 0 packets 0 live\nconnection b down\nstatus cut\n",
        ),
        (
            0,
            1,
            "turns 8\nline-in 0 frames 64 lead-in 0 lost 0 rest 0 fas 0 sm 0 pm 0 live\nclient-out 0 frames 3 packets 0 dead\nconnection b up\nstatus cut\n",
        ),
    ] {
        let line = input(alloc, whole_file(alloc)?, FRAME, line_failing)?;
        let client = output(alloc, 1000, client_failing)?;
        let (ran, got) = from_line(alloc, FROM_LINE, line, client)?;
        assert_eq!(rt;
            (ran.status, text_of(&ran.report), got.len()),
            (Status::Cut, report, 0)
        );
    }
    Ok(())
}

#[test]
fn a_client_is_bad_or_too_slow(rt: HostRuntime) -> Result<(), Fail> {
    let alloc = rt.alloc();
    let bad = Vec::from_slice(alloc, b"0A0b\r\n\nabc\n")?;
    // The frames of 8 turns begin 121 of the packets: of 1,012 bytes each, behind an idle frame, in 121,856 bytes.
    let many = packets(alloc, 1000, 1000)?;
    for (text, report) in [
        (
            bad,
            "turns 8\nline-out 0 frames 64 live\nclient-in 0 packets 1 bad 3 live\nconnection a client\nstatus unfinished\n",
        ),
        (
            many,
            "turns 8\nline-out 0 frames 64 live\nclient-in 0 packets 121 open live\nconnection a client\nstatus unfinished\n",
        ),
    ] {
        let client = input(alloc, text, 4096, 0)?;
        let line = output(alloc, LINE_ROOM, 0)?;
        let (ran, file) = to_line(alloc, TO_LINE, client, line, REPORT_ROOM, false)?;
        assert_eq!(rt;
            (ran.status, text_of(&ran.report), file.len()),
            (Status::Unfinished, report, LINE_ROOM)
        );
    }
    Ok(())
}

// Two clients, each to a line of its own.
const TWO_LINES: &str = r#"turns = 8
connection = [
    { name = "a", kind = "odu0", from = { client = 0 }, to = { line = 0, port = 1, slots = [3] } },
    { name = "c", kind = "odu0", from = { client = 2 }, to = { line = 1, port = 1, slots = [3] } },
]
"#;

#[test]
fn a_client_fails_and_no_other(rt: HostRuntime) -> Result<(), Fail> {
    let alloc = rt.alloc();
    let mut places: Places = Rack::new(alloc)?;
    places.set_client_in(0, input(alloc, packets(alloc, 1, 60)?, 4096, 0)?);
    places.set_client_in(2, input(alloc, packets(alloc, 200, 60)?, 4096, 3)?);
    places.set_line_out(0, output(alloc, LINE_ROOM, 0)?);
    places.set_line_out(1, output(alloc, LINE_ROOM, 0)?);
    let plan = plan_of(alloc, TWO_LINES)?;
    let ran = carried(alloc, plan, &mut places, REPORT_ROOM, false)?;
    let other_is_whole = kept(alloc, places.line_out(0))? == whole_file(alloc)?;
    assert_eq!(rt;
        (ran.status, text_of(&ran.report), other_is_whole),
        (
            Status::Cut,
            "turns 8\nline-out 0 frames 64 live\nline-out 1 frames 64 live\nclient-in 0 packets 1 spent live\nclient-in 2 packets 67 open dead\nconnection a client\nconnection c client\nstatus cut\n",
            true
        )
    );
    Ok(())
}
