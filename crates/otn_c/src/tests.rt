// The text of a client output that its plan retires is handed out whole, whatever the order; and calls succeed.
use crate::{Answer, GrowingSink, SliceSource, otn_run, otn_version};
use otn_base::Memory;
use port_base::{Sink, Source};
use std::alloc::Global;
use std::str;
use std::test::Fail;

// Bytes of four turns of a line.
const LINE: usize = 32 * 16_320;

// Two clients to slots 3 and 5 of line 0.
const THERE: &str = r#"turns = 4
connection = [{ name = "a", kind = "odu0", from = { client = 0 }, to = { line = 0, port = 1, slots = [3] } },
{ name = "b", kind = "odu0", from = { client = 1 }, to = { line = 0, port = 2, slots = [5] } }]
"#;

// These slots to two clients, whose outputs are retired before the last turn.
const BACK: &str = r#"turns = 8
[[connection]]
name = "a"
kind = "odu0"
from = { line = 0, port = 1, slots = [3] }
to = { client = 7 }
stop = 7
retire = true
[[connection]]
name = "b"
kind = "odu0"
from = { line = 0, port = 2, slots = [5] }
to = { client = 2 }
stop = 7
retire = true
"#;

// Inputs of a call: the bytes of each that is there, in order, and where each of the 20 ends.
#[derive(Drop)]
struct Given {
    bytes: Vec<u8>,
    ends: Vec<usize>,
    present: Vec<u8>,
}

// What a call answered and handed out.
#[derive(Drop)]
struct Got {
    code: u32,
    told: Answer,
    outputs: Vec<u8>,
    ends: Vec<usize>,
    report: Vec<u8>,
}

// No inputs yet.
fn nothing(alloc: Global) -> Given {
    Given {
        bytes: Vec::new(alloc),
        ends: Vec::new(alloc),
        present: Vec::new(alloc),
    }
}

// One input more, which is there.
fn add(given: &mut Given, bytes: &[u8]) -> Result<(), Memory> {
    given.bytes.extend_from_slice(bytes)?;
    given.ends.push(given.bytes.len())?;
    given.present.push(1)?;
    Ok(())
}

// So many inputs in all: the ones that this adds are not there.
fn fill(given: &mut Given, count: usize) -> Result<(), Memory> {
    for _ in given.ends.len()..count {
        given.ends.push(given.bytes.len())?;
        given.present.push(0)?;
    }
    Ok(())
}

// A call, with so much room for its outputs and its report.
fn called(
    alloc: Global,
    words: &str,
    plan: &str,
    given: &Given,
    room: usize,
    report_room: usize,
) -> Result<Got, Memory> {
    let mut got = Got {
        code: 0,
        told: Answer {
            status: 0,
            rule: 0,
            place: 0,
            report: 0,
            outputs: 0,
        },
        outputs: vec![in alloc; 0; room]?,
        ends: vec![in alloc; 0; 20]?,
        report: vec![in alloc; 0; report_room]?,
    };
    got.code = otn_run(
        alloc,
        words.as_bytes(),
        plan.as_bytes(),
        given.bytes.as_slice(),
        given.ends.as_slice(),
        given.present.as_slice(),
        got.outputs.as_mut_slice(),
        got.ends.as_mut_slice(),
        got.report.as_mut_slice(),
        &mut got.told,
    );
    Ok(got)
}

// What was handed out of output n.
fn output(got: &Got, n: usize) -> &[u8] {
    let start = match n.checked_sub(1) {
        Some(before) => end_of(got, before),
        None => 0,
    };
    got.outputs.get(start..end_of(got, n)).unwrap_or(&[])
}

// Where output n ends.
fn end_of(got: &Got, n: usize) -> usize {
    got.ends.get(n).copied().unwrap_or(0)
}

// The text of so many packets of 9,000 bytes, whose every digit is this one.
fn packets(alloc: Global, count: usize, digit: u8) -> Result<Vec<u8>, Memory> {
    let digits = vec![in alloc; digit; 18_000]?;
    let mut text = Vec::new(alloc);
    for _ in 0..count {
        text.extend_from_slice(digits.as_slice())?;
        text.push(b'\n')?;
    }
    Ok(text)
}

fn text_of(bytes: &[u8]) -> &str {
    str::from_utf8(bytes).unwrap_or("no text")
}

// The text of three packets ends in another client frame than it begins in, so it leaves in two turns. Two clients get
// what two gave, whatever the order, and no other output gets anything.
#[test]
fn retired_outputs_are_handed_out(rt: HostRuntime) -> Result<(), Fail> {
    let alloc = rt.alloc();
    let (first, second) = (packets(alloc, 3, b'7')?, packets(alloc, 2, b'a')?);
    let mut clients = nothing(alloc);
    fill(&mut clients, 4)?;
    add(&mut clients, first.as_slice())?;
    add(&mut clients, second.as_slice())?;
    fill(&mut clients, 20)?;
    let there = called(alloc, "run", THERE, &clients, LINE, 1_000)?;
    assert_eq!(rt; there.code, 0);
    let mut line = nothing(alloc);
    add(&mut line, output(&there, 0))?;
    fill(&mut line, 20)?;
    for words in ["run", "run --order 7"] {
        let back = called(alloc, words, BACK, &line, 100_000, 1_000)?;
        assert_eq!(rt; back.code, 0);
        for n in 0..20 {
            let want: &[u8] = match n {
                6 => second.as_slice(),
                11 => first.as_slice(),
                _ => &[],
            };
            assert!(rt; output(&back, n) == want, "{words}: output {n}");
        }
    }
    Ok(())
}

// What `check` tells of a plan of two connections and four turns.
const TOLD: &str = "plan connections 2 turns 4\n";

// A report that does not fit by a byte is not handed out: how long it is is told. Just enough room suffices.
#[test]
fn too_little_room_is_told(rt: HostRuntime) -> Result<(), Fail> {
    let alloc = rt.alloc();
    let mut none = nothing(alloc);
    fill(&mut none, 20)?;
    let whole = called(alloc, "check", THERE, &none, 0, TOLD.len())?;
    assert_eq!(rt; whole.code, 0);
    assert_eq!(rt; text_of(&whole.report), TOLD);
    let less = called(
        alloc,
        "check",
        THERE,
        &none,
        0,
        TOLD.len().saturating_sub(1),
    )?;
    assert_eq!(rt; less.code, 8);
    for got in [whole, less] {
        assert_eq!(rt; got.told.status, 0);
        assert_eq!(rt; got.told.report, TOLD.len());
        assert_eq!(rt; got.told.outputs, 0);
    }
    Ok(())
}

// Two names are one: rule 8, at connection 2.
const TWICE: &str = r#"turns = 4
connection = [{ name = "a", kind = "odu0", from = { client = 0 }, to = { line = 0, port = 1, slots = [3] } },
{ name = "a", kind = "odu0", from = { client = 1 }, to = { line = 0, port = 2, slots = [5] } }]
"#;

#[test]
fn a_refused_plan_is_told(rt: HostRuntime) -> Result<(), Fail> {
    let mut none = nothing(rt.alloc());
    fill(&mut none, 20)?;
    for words in ["check", "run", "run --pcap"] {
        let got = called(rt.alloc(), words, TWICE, &none, 0, 0)?;
        assert_eq!(rt; got.code, 3);
        assert_eq!(rt; got.told.rule, 8);
        assert_eq!(rt; got.told.place, 2);
    }
    Ok(())
}

// Three bytes, of which input 0 ends here, and each other one there.
fn ending(alloc: Global, first: usize, second: usize) -> Result<Given, Memory> {
    let mut given = nothing(alloc);
    given.bytes.extend_from_slice(b"abc")?;
    given.ends.push(first)?;
    given.present.push(1)?;
    for _ in 1..20 {
        given.ends.push(second)?;
        given.present.push(1)?;
    }
    Ok(given)
}

// Lists of 19 or 21 members, an input that ends before it begins, and one that ends after the block.
#[test]
fn what_is_no_call_is_refused(rt: HostRuntime) -> Result<(), Fail> {
    let alloc = rt.alloc();
    for (count, code) in [(19, 9), (20, 2), (21, 9)] {
        let mut given = nothing(alloc);
        fill(&mut given, count)?;
        let got = called(alloc, "no command", "", &given, 0, 0)?;
        assert_eq!(rt; got.code, code, "{count} inputs");
    }
    for (first, second, code) in [(1, 2, 2), (2, 1, 9), (3, 4, 9)] {
        let given = ending(alloc, first, second)?;
        let got = called(alloc, "no command", "", &given, 0, 0)?;
        assert_eq!(rt; got.code, code, "{first} and {second}");
    }
    Ok(())
}

// What a port in memory is handed, and what is lent: each is there, in order.
#[test]
fn ports_in_memory_work(rt: HostRuntime) -> Result<(), Fail> {
    let mut sink = GrowingSink::new(rt.alloc());
    assert_eq!(rt; sink.write(b"one").ok(), Some(3));
    assert_eq!(rt; sink.write(b" two").ok(), Some(4));
    assert_eq!(rt; text_of(sink.bytes()), "one two");
    let mut source = SliceSource::new(b"abcde");
    let mut into = [0; 3];
    assert_eq!(rt; source.read(&mut into).ok(), Some(3));
    assert_eq!(rt; text_of(&into), "abc");
    assert_eq!(rt; source.read(&mut into).ok(), Some(2));
    assert_eq!(rt; text_of(&into), "dec");
    assert_eq!(rt; source.read(&mut into).ok(), Some(0));
    assert_eq!(rt; otn_version(), 2);
    Ok(())
}
