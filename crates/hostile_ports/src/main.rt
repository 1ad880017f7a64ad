//! `hostile_ports` does what `otn` does, over ports in memory of which some fail as the file `ports.txt` of the current
//! folder says. It is there to be run by the scripts of `checks/`.
//!
//! A line of `ports.txt` names a port and says what befalls it, as `line-in 0 most 4096 failing 3`, `client-out 2 room
//! 100` or `plan failing 1`: an input gives at most so many bytes a read, an output and the `report` have room for so
//! many, and the calls of these numbers fail, from 1, with commas between them. All other ports never fail. When the
//! answer is there, the program writes the files of all outputs, the report to standard output, and to `places.txt`
//! what became of the places.
#![tactic(auto)]

mod listing;
mod outcome;
mod places;
mod ports;
mod traces;

use line_tool::{NumberChooser, Status, order_of, run, takes_captures};
use listing::{Fate, Port, fate_of, fates};
use otn_ports::{Chooser, FirstReady, ListedSource, StdoutSink, write_whole};
use outcome::{states, write_outputs};
use places::{MOST_TEXT, Places, fill, sink, source};
use ports::{Got, OutputFile};
use program_words::{exit_code, given_words, take_standard};
use std::io::ErrorKind;
use std::process::ExitCode;
use std::{fs, io};
use traces::{Traces, no_bytes};

// The status of a run that could not be carried out.
const NO_TRIAL: u8 = 8;

fn main(rt: HostRuntime) -> ExitCode {
    let _standard = take_standard(&rt);
    match serve(&rt) {
        Ok(status) => {
            if status != Status::Done {
                let _ = eprintln!(rt; "otn: {status}");
            }
            exit_code(&status)
        }
        Err(error) => {
            let _ = eprintln!(rt; "hostile_ports: {error}");
            ExitCode::from(NO_TRIAL)
        }
    }
}

// Carries a run out, and writes what it left.
fn serve(rt: &HostRuntime) -> io::Result<Status> {
    let alloc = rt.alloc();
    let words = given_words(rt, alloc)?;
    let fates = listed(rt)?;
    let captures = takes_captures(&words);
    let (mut lines, mut clients) = (Traces::new(alloc), Traces::new(alloc));
    let mut places = fill(rt, &fates, captures, &mut lines, &mut clients)?;
    let written = no_bytes(alloc)?;
    let sink = sink(alloc, fate_of(&fates, Port::Report), MOST_TEXT)?;
    let mut report = OutputFile::new(sink, written.clone()?);
    let status = match order_of(&words) {
        Some(number) => {
            let mut chooser = NumberChooser::new(number);
            answer(rt, &words, &fates, &mut places, &mut chooser, &mut report)?
        }
        None => {
            let mut chooser = FirstReady::new();
            answer(rt, &words, &fates, &mut places, &mut chooser, &mut report)?
        }
    };
    let states = states(alloc, &places, &lines, &clients)?;
    fs::write(rt, "places.txt", states.as_str())?;
    write_outputs(rt, captures, &lines, &clients)?;
    print(rt, &written)?;
    Ok(status)
}

// Answers the words over these places, with the plan of its file.
fn answer<C: Chooser>(
    rt: &HostRuntime,
    words: &[String],
    fates: &[Fate],
    places: &mut Places,
    chooser: &mut C,
    report: &mut OutputFile,
) -> io::Result<Status> {
    let mut plan = plan(rt, fate_of(fates, Port::Plan))?;
    Ok(run(rt.alloc(), words, &mut plan, places, chooser, report))
}

// What befalls the ports: nothing where there is no file `ports.txt`.
fn listed(rt: &HostRuntime) -> io::Result<Vec<Fate>> {
    match fs::read_to_string(rt, "ports.txt") {
        Ok(text) => match fates(rt.alloc(), text.as_str())? {
            Some(fates) => Ok(fates),
            None => Err(io::Error::from(ErrorKind::InvalidData)),
        },
        Err(error) if error.kind() == ErrorKind::NotFound => Ok(Vec::new(rt.alloc())),
        Err(error) => Err(error),
    }
}

// The plan. Its first read fails where there is no file.
fn plan(rt: &HostRuntime, fate: Option<&Fate>) -> io::Result<ListedSource> {
    let alloc = rt.alloc();
    match fs::read(rt, "plan.toml") {
        Ok(bytes) => Ok(source(alloc, bytes, fate)?),
        Err(error) if error.kind() == ErrorKind::NotFound => {
            Ok(ListedSource::new(Vec::new(alloc), [1u32].to_vec(alloc)?, 1))
        }
        Err(error) => Err(error),
    }
}

// Writes the report to standard output.
fn print(rt: &HostRuntime, written: &Got) -> io::Result<()> {
    let bytes = written
        .try_borrow()
        .map_err(|_| io::Error::from(ErrorKind::Other))?;
    let _ = write_whole(&mut StdoutSink::of(rt.stdout()), bytes.as_slice());
    Ok(())
}
