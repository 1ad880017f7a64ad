// The commands `bundle` and `unbundle`: packets of two clients there and back, and a client that fails.
use crate::plan_runs::{FRAME, LINE_ROOM, Places, input, kept, output, text_of};
use line_tool::{NumberChooser, Status, run};
use otn_base::Memory;
use port_base::{MemSink, MemSource, Rack};
use std::alloc::Global;
use std::test::Fail;

// A command over these places: its answer, and its report.
fn told(alloc: Global, text: &str, places: &mut Places) -> Result<(Status, Vec<u8>), Memory> {
    let mut words = Vec::new(alloc);
    for word in text.split(' ') {
        words.push(String::from_str(alloc, word)?)?;
    }
    let mut report = MemSink::with_room(alloc, 256)?;
    let mut plan = MemSource::new(Vec::new(alloc));
    let mut chooser = NumberChooser::new(0);
    let status = run(alloc, &words, &mut plan, places, &mut chooser, &mut report);
    Ok((status, report.into_bytes()))
}

// `bundle` of clients 0 and 5, whose read of this number fails: its answer, its report, and what line output 0 got.
fn bundled(alloc: Global, failing: u32) -> Result<(Status, Vec<u8>, Vec<u8>), Memory> {
    let mut places: Places = Rack::new(alloc)?;
    let first = Vec::from_slice(alloc, b"1111\n2222\n")?;
    let second = Vec::from_slice(alloc, b"5555\n")?;
    places.set_client_in(0, input(alloc, first, 4096, 0)?);
    places.set_client_in(5, input(alloc, second, 4096, failing)?);
    places.set_line_out(0, output(alloc, LINE_ROOM, 0)?);
    let (status, report) = told(alloc, "bundle 0,5 8", &mut places)?;
    Ok((status, report, kept(alloc, places.line_out(0))?))
}

#[test]
fn channels_there_and_back(rt: HostRuntime) -> Result<(), Fail> {
    let alloc = rt.alloc();
    for (failing, status, report, back, second) in [
        (
            0,
            Status::Done,
            "channel 0 packets 2 live\nchannel 5 packets 1 live\n",
            "channel 0 packets 2 losses 0\nchannel 5 packets 1 losses 0\nother 0\n",
            "5555\n",
        ),
        (
            1,
            Status::Cut,
            "channel 0 packets 2 live\nchannel 5 packets 0 dead\n",
            "channel 0 packets 2 losses 0\nchannel 5 packets 0 losses 19\nother 0\n",
            "",
        ),
    ] {
        let (answer, wrote, line) = bundled(alloc, failing)?;
        assert_eq!(rt; (answer, text_of(&wrote)), (status, report));
        let mut places: Places = Rack::new(alloc)?;
        places.set_line_in(0, input(alloc, line, FRAME, 0)?);
        places.set_client_out(0, output(alloc, 100, 0)?);
        places.set_client_out(5, output(alloc, 100, 0)?);
        let (answer, wrote) = told(alloc, "unbundle 8", &mut places)?;
        let got = (
            kept(alloc, places.client_out(0))?,
            kept(alloc, places.client_out(5))?,
        );
        assert_eq!(rt;
            (answer, text_of(&wrote), text_of(&got.0), text_of(&got.1)),
            (Status::Done, back, "1111\n2222\n", second)
        );
    }
    Ok(())
}
