// How the program ends, and what it complains of.
use crate::summary::word_of;
use device_model::Outcome;
use network_file::{NetworkError, Place};
use plan_file::PlanError;
use std::process::ExitCode;

/// How the program ends.
#[derive(Drop)]
pub(crate) enum Answer {
    /// All meets; or the page is written.
    Met,
    /// Some does not meet.
    Unmet,
    /// The network was run, and ended so.
    Ran(Outcome),
    /// The words have another form.
    Words,
    /// The file breaks this rule first, at this place.
    Network(NetworkError, Place),
    /// The plan of the node of this number, and name, breaks this rule first, at this place.
    Plan(usize, String, PlanError, u64),
    /// The file, or a plan, can't be read.
    Fault,
    /// A write of the report failed.
    ReportFault,
    /// There was no memory.
    Memory,
    /// The nodes of these numbers have one folder, and can't be run.
    OneFolder(usize, usize),
}

/// The exit status: 0 to 8.
pub(crate) fn exit_code(answer: &Answer) -> ExitCode {
    ExitCode::from(code_of(answer))
}

fn code_of(answer: &Answer) -> u8 {
    match answer {
        Answer::Met | Answer::Ran(Outcome::Done) => 0,
        Answer::Unmet | Answer::Ran(Outcome::Unfinished) => 1,
        Answer::Words => 2,
        Answer::Network(..) | Answer::Plan(..) => 3,
        Answer::Fault => 4,
        Answer::ReportFault => 5,
        Answer::Ran(Outcome::Cut) => 6,
        Answer::Memory => 7,
        Answer::OneFolder(..) => 8,
    }
}

/// Writes to standard error what is wrong, if anything is.
pub(crate) fn complain(rt: &HostRuntime, answer: &Answer) {
    match answer {
        Answer::Met | Answer::Unmet | Answer::Ran(Outcome::Done) => {}
        Answer::Ran(outcome) => say(rt, word_of(*outcome)),
        Answer::Words => say(rt, "words"),
        Answer::Network(error, place) => say_network(rt, *error, *place),
        Answer::Plan(number, name, error, place) => {
            say_network(rt, NetworkError::PlanRefused, Place::Node(*number));
            say_plan(rt, name.as_str(), *error, *place);
        }
        Answer::Fault => say(rt, "fault"),
        Answer::ReportFault => say(rt, "report fault"),
        Answer::Memory => say(rt, "memory"),
        Answer::OneFolder(one, other) => say_one_folder(rt, *one, *other),
    }
}

fn say(rt: &HostRuntime, word: &str) {
    let _ = eprintln!(rt; "otn_network: {word}");
}

fn say_network(rt: &HostRuntime, error: NetworkError, place: Place) {
    let rule = error.code();
    let _ = eprintln!(rt; "otn_network: network {rule} at {place}");
}

fn say_plan(rt: &HostRuntime, name: &str, error: PlanError, place: u64) {
    let rule = error.code();
    let _ = eprintln!(rt; "otn_network: plan {rule} at {place} of {name}");
}

fn say_one_folder(rt: &HostRuntime, one: usize, other: usize) {
    let _ = eprintln!(rt; "otn_network: nodes {one} and {other} have one folder");
}
