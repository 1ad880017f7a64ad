// The report of a run, from numbers made by hand.
use arrayvec::ArrayString;
use line_side::LineCounts;
use line_tool::{REPORT_BYTES, put_report};
use node_core::{ClientInCounts, ClientOutCounts, FromState, Outcome, RunNumbers};
use otn_base::Memory;
use plan_file::Plan;
use port_base::{InPlaceOf, MemSink, MemSource, OutPlaceOf, Rack};
use std::alloc::Global;
use std::test::Fail;

type Places = Rack<MemSource, MemSink>;

const TO_LINE: &str =
    "turns = 8\n[[connection]]\nname = \"a\"\nkind = \"odu0\"\nfrom = { client = 0 }\nto = { line = 0, port = 1, slots = [3] }\n";

const FROM_LINE: &str =
    "turns = 8\n[[connection]]\nname = \"b\"\nkind = \"odu0\"\nfrom = { line = 0, port = 1, slots = [3] }\nto = { client = 0 }\n";

const ALL_WORDS: &str = r#"turns = 9
connection = [
    { name = "a", kind = "odu0", from = { client = 0 }, to = { line = 1, port = 1, slots = [1] } },
    { name = "b", kind = "odu0", from = { client = 1 }, to = { line = 1, port = 2, slots = [2] } },
    { name = "c", kind = "odu0", from = { client = 15 }, to = { line = 1, port = 3, slots = [3] } },
    { name = "d", kind = "odu0", from = { line = 2, port = 1, slots = [1] }, to = { client = 7 } },
    { name = "e", kind = "odu0", from = { line = 2, port = 2, slots = [2] }, to = { line = 3, port = 1, slots = [1] } },
    { name = "f", kind = "odu0", from = { signal = "oci" }, to = { line = 3, port = 2, slots = [2] } },
]
"#;

// Numbers that are the same at all ports and connections.
fn numbers(n: u64, bad: Option<u64>, from: Option<FromState>, outcome: Outcome) -> RunNumbers {
    let line = LineCounts {
        frames: n,
        lead_in: n,
        lost: n,
        rest: n,
        fas: n,
        sm: n,
        pm: n,
    };
    let client_in = ClientInCounts {
        packets: n,
        spent: false,
        bad,
    };
    let client_out = ClientOutCounts {
        frames: n,
        packets: n,
    };
    RunNumbers {
        lines_in: [line; 4],
        lines_out: [n; 4],
        clients_in: [client_in; 16],
        clients_out: [client_out; 16],
        from: [from; 48],
        outcome,
    }
}

// The report over the plan of this text; empty where it is no plan.
fn told(
    alloc: Global,
    plan: &str,
    numbers: &RunNumbers,
    bays: &Places,
) -> ArrayString<REPORT_BYTES> {
    let mut text = ArrayString::new();
    if let Ok(plan) = Plan::read(alloc, plan.as_bytes()) {
        put_report(&mut text, &plan, numbers, bays);
    }
    text
}

fn source(alloc: Global) -> MemSource {
    MemSource::new(Vec::new(alloc))
}

fn sink(alloc: Global) -> Result<MemSink, Memory> {
    MemSink::with_room(alloc, 0)
}

#[test]
fn a_packet_goes_there_and_back(rt: HostRuntime) -> Result<(), Fail> {
    let alloc = rt.alloc();
    let mut bays: Places = Rack::new(alloc)?;
    bays.set_client_in(0, InPlaceOf::Live(source(alloc), 0));
    bays.set_line_out(0, OutPlaceOf::Live(sink(alloc)?, 0));
    let mut there = numbers(0, None, Some(FromState::Client), Outcome::Done);
    there.lines_out[0] = 64;
    there.clients_in[0].packets = 1;
    there.clients_in[0].spent = true;
    assert_eq!(rt;
        told(alloc, TO_LINE, &there, &bays).as_str(),
        "turns 8\nline-out 0 frames 64 live\nclient-in 0 packets 1 spent live\nconnection a client\nstatus done\n"
    );
    let mut bays: Places = Rack::new(alloc)?;
    bays.set_line_in(0, InPlaceOf::Live(source(alloc), 0));
    bays.set_client_out(0, OutPlaceOf::Live(sink(alloc)?, 0));
    let mut back = numbers(0, None, Some(FromState::Up), Outcome::Done);
    back.lines_in[0].frames = 64;
    back.clients_out[0].frames = 3;
    back.clients_out[0].packets = 1;
    assert_eq!(rt;
        told(alloc, FROM_LINE, &back, &bays).as_str(),
        "turns 8\nline-in 0 frames 64 lead-in 0 lost 0 rest 0 fas 0 sm 0 pm 0 live\nclient-out 0 frames 3 packets 1 live\nconnection b up\nstatus done\n"
    );
    Ok(())
}

// Numbers that differ from port to port, with all words.
fn many_numbers() -> RunNumbers {
    let mut many = numbers(0, None, None, Outcome::Cut);
    many.lines_in[2] = LineCounts {
        frames: 1,
        lead_in: 2,
        lost: 3,
        rest: 4,
        fas: 5,
        sm: 6,
        pm: 7,
    };
    many.lines_out[1] = u64::MAX;
    many.lines_out[3] = 9;
    many.clients_in[0].packets = 10;
    many.clients_in[0].bad = Some(3);
    many.clients_in[1].packets = 11;
    many.clients_in[15].packets = 12;
    many.clients_in[15].spent = true;
    many.clients_out[7].frames = 13;
    many.clients_out[7].packets = 14;
    many.from[1] = Some(FromState::Client);
    many.from[3] = Some(FromState::Waiting);
    many.from[4] = Some(FromState::Down);
    many.from[5] = Some(FromState::Signal);
    many
}

#[test]
fn each_word_stands_for_its_state(rt: HostRuntime) -> Result<(), Fail> {
    let alloc = rt.alloc();
    let mut bays: Places = Rack::new(alloc)?;
    bays.set_line_in(2, InPlaceOf::dead(source(alloc), 0));
    bays.set_line_out(3, OutPlaceOf::Live(sink(alloc)?, 0));
    bays.set_client_in(0, InPlaceOf::dead(source(alloc), 0));
    bays.set_client_in(15, InPlaceOf::Live(source(alloc), 0));
    bays.set_client_out(7, OutPlaceOf::dead(sink(alloc)?, 0));
    let text = told(alloc, ALL_WORDS, &many_numbers(), &bays);
    assert_eq!(rt;
        text.as_str(),
        r#"turns 9
line-in 2 frames 1 lead-in 2 lost 3 rest 4 fas 5 sm 6 pm 7 dead
line-out 1 frames 18446744073709551615 empty
line-out 3 frames 9 live
client-in 0 packets 10 bad 3 dead
client-in 1 packets 11 open empty
client-in 15 packets 12 spent live
client-out 7 frames 13 packets 14 dead
connection a off
connection b client
connection c off
connection d waiting
connection e down
connection f signal
status cut
"#
    );
    Ok(())
}

// A plan of 48 connections, with names of 32 bytes, that uses all ports.
fn widest_plan(alloc: Global) -> Result<String, Memory> {
    let mut plan = String::from_str(alloc, "turns = 16384\n")?;
    for n in 0..16_u32 {
        let line = n / 4;
        let low = n % 4 + 1;
        let high = n % 4 + 5;
        let name = n + 10;
        plan.push_str(&format!(in alloc;
            "[[connection]]\nname = \"to-line-aaaaaaaaaaaaaaaaaaaaaa{name}\"\nkind = \"odu0\"\nfrom = {{ client = {n} }}\nto = {{ line = {line}, port = {low}, slots = [{low}] }}\n"
        )?)?;
        plan.push_str(&format!(in alloc;
            "[[connection]]\nname = \"to-client-aaaaaaaaaaaaaaaaaaaa{name}\"\nkind = \"odu0\"\nfrom = {{ line = {line}, port = {low}, slots = [{low}] }}\nto = {{ client = {n} }}\n"
        )?)?;
        plan.push_str(&format!(in alloc;
            "[[connection]]\nname = \"from-line-aaaaaaaaaaaaaaaaaaaa{name}\"\nkind = \"odu0\"\nfrom = {{ line = {line}, port = {low}, slots = [{low}] }}\nto = {{ line = {line}, port = {high}, slots = [{high}] }}\n"
        )?)?;
    }
    Ok(plan)
}

#[test]
fn the_longest_report_has_room(rt: HostRuntime) -> Result<(), Fail> {
    let alloc = rt.alloc();
    let bays: Places = Rack::new(alloc)?;
    let plan = widest_plan(alloc)?;
    let most = numbers(
        u64::MAX,
        Some(u64::MAX),
        Some(FromState::Waiting),
        Outcome::Unfinished,
    );
    let text = told(alloc, plan.as_str(), &most, &bays);
    assert_eq!(rt; text.as_str().len(), 5878);
    assert!(rt; text.as_str().ends_with("status unfinished\n"));
    Ok(())
}
