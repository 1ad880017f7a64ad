// What a run left: the files of its outputs, and the lines of `places.txt`.
use crate::places::Places;
use crate::ports::Got;
use crate::traces::Traces;
use otn_base::limits::{CLIENTS, LINES};
use port_base::{InPlaceOf, OutPlaceOf};
use std::alloc::{AllocError, Global};
use std::io::ErrorKind;
use std::{fs, io};

/// Writes what each output got to its file: those of clients are captures, or not.
pub fn write_outputs(
    rt: &HostRuntime,
    captures: bool,
    lines: &Traces,
    clients: &Traces,
) -> io::Result<()> {
    let alloc = rt.alloc();
    for (n, got) in lines.got.iter().enumerate() {
        write_output(rt, &format!(in alloc; "line-{n}.out")?, got)?;
    }
    for (n, got) in clients.got.iter().enumerate() {
        let kind = if captures { "pcap.out" } else { "out" };
        write_output(rt, &format!(in alloc; "client-{n:02}.{kind}")?, got)?;
    }
    Ok(())
}

fn write_output(rt: &HostRuntime, path: &String, got: &Got) -> io::Result<()> {
    match got.try_borrow() {
        Ok(bytes) => fs::write(rt, path.as_str(), bytes.as_slice()),
        Err(_) => Err(io::Error::from(ErrorKind::Other)),
    }
}

/// A line for each input place that is not empty or gave something, and for each output place that is dead or got
/// something: its state, and how many bytes that were. Where there is none, an empty line.
pub fn states(
    alloc: Global,
    places: &Places,
    lines: &Traces,
    clients: &Traces,
) -> Result<String, AllocError> {
    let mut text = String::new(alloc);
    for n in 0..LINES {
        let state = input_state(places.line_in(n as u8));
        push_input(alloc, &mut text, "line-in", n, state, lines.taken(n))?;
    }
    for n in 0..CLIENTS {
        let state = input_state(places.client_in(n as u8));
        push_input(alloc, &mut text, "client-in", n, state, clients.taken(n))?;
    }
    for n in 0..LINES {
        let state = output_state(places.line_out(n as u8));
        push_output(alloc, &mut text, "line-out", n, state, lines.sent(n))?;
    }
    for n in 0..CLIENTS {
        let state = output_state(places.client_out(n as u8));
        push_output(alloc, &mut text, "client-out", n, state, clients.sent(n))?;
    }
    if text.is_empty() {
        text.push('\n')?;
    }
    Ok(text)
}

fn input_state<P>(place: &InPlaceOf<P>) -> &'static str {
    match place {
        InPlaceOf::Empty => "empty",
        InPlaceOf::Live(..) => "live",
        InPlaceOf::Dead(..) => "dead",
    }
}

fn output_state<K>(place: &OutPlaceOf<K>) -> &'static str {
    match place {
        OutPlaceOf::Empty => "empty",
        OutPlaceOf::Retired(..) => "empty",
        OutPlaceOf::Live(..) => "live",
        OutPlaceOf::Dead(..) => "dead",
    }
}

fn push_input(
    alloc: Global,
    text: &mut String,
    side: &str,
    n: usize,
    state: &str,
    taken: u64,
) -> Result<(), AllocError> {
    if state == "empty" && taken == 0 {
        return Ok(());
    }
    text.push_str(&format!(in alloc; "{side} {n} {state} taken {taken}\n")?)
}

fn push_output(
    alloc: Global,
    text: &mut String,
    side: &str,
    n: usize,
    state: &str,
    sent: u64,
) -> Result<(), AllocError> {
    if state != "dead" && sent == 0 {
        return Ok(());
    }
    text.push_str(&format!(in alloc; "{side} {n} {state} sent {sent}\n")?)
}
