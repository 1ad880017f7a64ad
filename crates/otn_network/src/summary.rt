// What is told of a network that was run, beside the reports of its nodes.
use device_model::Outcome;
use std::alloc::{AllocError, Global};

/// How a network ended, and how large it is.
#[derive(Clone, Copy)]
pub(crate) struct Ending {
    pub(crate) nodes: usize,
    pub(crate) fibres: usize,
    /// How many fibres brought all that was written to them.
    pub(crate) whole: usize,
    pub(crate) outcome: Outcome,
}

/// The line before the report of a node.
pub(crate) fn node_line(alloc: Global, name: &str) -> Result<String, AllocError> {
    format!(in alloc; "node {name}\n")
}

/// The two lines behind the reports.
pub(crate) fn last_lines(alloc: Global, ending: Ending) -> Result<String, AllocError> {
    let nodes = ending.nodes;
    let fibres = ending.fibres;
    let whole = ending.whole;
    let word = word_of(ending.outcome);
    format!(in alloc; "network nodes {nodes} fibres {fibres} whole {whole}\nnetwork {word}\n")
}

/// The word of an outcome.
pub(crate) fn word_of(outcome: Outcome) -> &'static str {
    match outcome {
        Outcome::Done => "done",
        Outcome::Unfinished => "unfinished",
        Outcome::Cut => "cut",
    }
}

/// The outcome of two: cut where one is, else unfinished where one is, else done.
pub(crate) fn worse(one: Outcome, other: Outcome) -> Outcome {
    match (one, other) {
        (Outcome::Cut, _) | (_, Outcome::Cut) => Outcome::Cut,
        (Outcome::Unfinished, _) | (_, Outcome::Unfinished) => Outcome::Unfinished,
        (Outcome::Done, Outcome::Done) => Outcome::Done,
    }
}
