//! Tests of the commands, over `line_tool`: their words, what is explained, commands over a line, the report of a run,
//! and the trial.
#![tactic(auto)]

#[cfg(test)]
mod check;
#[cfg(test)]
mod damage;
#[cfg(test)]
mod explained;
#[cfg(test)]
mod line_runs;
#[cfg(test)]
mod number_chooser;
#[cfg(test)]
mod protect_runs;
#[cfg(test)]
mod pull;
#[cfg(test)]
mod report;
#[cfg(test)]
mod slot;
#[cfg(test)]
mod trial;
#[cfg(test)]
mod words;
