//! `otn_network`, the ways of a network, told: reads the file of the network and the plan of each of its nodes, and
//! hands them, and standard output, to the call that tells them, as text or as JSON. `otn_network run` hands them, with
//! the files of the nodes, to the one call that runs the network.
//!
//! - `words`: the words after the program's name.
//! - `reading`: the file of the network, and the plans of its nodes.
//! - `run_words`, `running`: the words of `run`, and the run of a network.
//! - `sites`: the nodes of a network over their places, and their run.
//! - `files`, `marks`: the files of a node, and which files are read or written.
//! - `cuts`: the ends of fibres that are cut.
//! - `summary`: what is told beside the reports of the nodes.
//! - `answer`: how the program ends, and what it complains of.
#![tactic(auto)]

use answer::{Answer, complain, exit_code};
use network_json::write_network_json;
use network_view::{NamedNetwork, Told, write_network};
use otn_base::Memory;
use otn_ports::StdoutSink;
use program_words::{given_words, take_standard};
use reading::{Joined, Read, names_of, read_all};
use run_words::{RunAsked, behind_run, run_asked};
use running::run_file;
use std::process::ExitCode;
use words::{Asked, asked_of};

mod answer;
mod cuts;
mod files;
mod marks;
mod reading;
mod run_words;
mod running;
mod sites;
mod summary;
#[cfg(test)]
mod tests;
mod words;

/// The page that `otn_network --help` writes.
const HELP: &str = "\
the ways of a network of nodes, in words and numbers (docs/NETWORKS.md)

  otn_network [FILE]     reads FILE, network.toml where it is not said, and the plan.toml of each node beside it; tells
                         each fibre with its free slots, each customer's way, what does not meet, and whether all does
  otn_network --json [FILE]
                         the same as one line of JSON
  otn_network run [FILE] [--lines LIST]
                         runs all its nodes turn by turn, with the fibres in memory: reads each node's client files,
                         and the lines that no fibre leads to, as otn run does in its folder; writes the clients there,
                         and the lines at which no fibre begins; and reports each node by its name. LIST is all, or
                         numbers of fibres, as 1,4: what goes over these is written too, as line-N.out where they begin.
                         A fibre that FILE has a cut of is dark in its turns: zeros come at its far end

The first two end with 0 where all meets, with 1 where some does not. run ends with 0 done, 1 unfinished, 6 cut, as
otn run does for the nodes together, and with 8 where two nodes have one folder. All end with 2 for other words, 3 where
the file or a plan is refused, 4 where one can't be read, 5 where a write of the report failed, 7 for want of memory.
A file named --help, --json or run is ./--help, ./--json or ./run.";

fn main(rt: HostRuntime) -> ExitCode {
    let _standard = take_standard(&rt);
    let answer = serve(&rt).unwrap_or(Answer::Memory);
    complain(&rt, &answer);
    exit_code(&answer)
}

// Tells the network of the file that the words name, or writes the page.
fn serve(rt: &HostRuntime) -> Result<Answer, Memory> {
    let words = given_words(rt, rt.alloc())?;
    if let Some(rest) = behind_run(words.as_slice()) {
        return run(rt, rest);
    }
    match asked_of(words.as_slice()) {
        Asked::Page => {
            let text = HELP;
            Ok(match println!(rt; "{text}") {
                Ok(()) => Answer::Met,
                Err(_) => Answer::ReportFault,
            })
        }
        Asked::Nothing => Ok(Answer::Words),
        Asked::File(path) => tell(rt, path),
        Asked::Json(path) => tell_json(rt, path),
    }
}

// Runs the network that the words behind `run` name.
fn run(rt: &HostRuntime, rest: &[String]) -> Result<Answer, Memory> {
    match run_asked(rest) {
        RunAsked::Run(path, list) => run_file(rt, path, list),
        RunAsked::Nothing => Ok(Answer::Words),
    }
}

// Tells the network of this file.
fn tell(rt: &HostRuntime, path: &str) -> Result<Answer, Memory> {
    match read_all(rt, path)? {
        Read::Refused(answer) => Ok(answer),
        Read::Accepted(joined) => tell_joined(rt, &joined),
    }
}

fn tell_joined(rt: &HostRuntime, joined: &Joined) -> Result<Answer, Memory> {
    let names = names_of(rt.alloc(), joined.file.nodes.as_slice())?;
    let fibres = joined.file.fibres.as_slice();
    let named = NamedNetwork::new(joined.plans.as_slice(), fibres, names.as_slice());
    let mut report = StdoutSink::of(rt.stdout());
    Ok(answer_to(write_network(rt.alloc(), &named, &mut report)?))
}

// Tells the network of this file as JSON.
fn tell_json(rt: &HostRuntime, path: &str) -> Result<Answer, Memory> {
    match read_all(rt, path)? {
        Read::Refused(answer) => Ok(answer),
        Read::Accepted(joined) => tell_joined_json(rt, &joined),
    }
}

fn tell_joined_json(rt: &HostRuntime, joined: &Joined) -> Result<Answer, Memory> {
    let names = names_of(rt.alloc(), joined.file.nodes.as_slice())?;
    let fibres = joined.file.fibres.as_slice();
    let named = NamedNetwork::new(joined.plans.as_slice(), fibres, names.as_slice());
    let mut report = StdoutSink::of(rt.stdout());
    Ok(answer_to(write_network_json(rt.alloc(), &named, &mut report)?))
}

fn answer_to(told: Told) -> Answer {
    match told {
        Told::Met => Answer::Met,
        Told::Unmet => Answer::Unmet,
        Told::ReportFault => Answer::ReportFault,
    }
}
