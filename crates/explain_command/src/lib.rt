//! `otn --explain`: what the words of a command would do in the current folder, in plain sentences. It reads, and
//! changes nothing.
//!
//! - `words`, `mend`: the form of the words, or the nearest one and what is wrong.
//! - `plan`: the plan, or the rule that it breaks, where, and what would do.
//! - `inputs`: the files that are read: how long, and what is wrong with one.
//! - `outputs`: the files that are made, and those that are there already.
//! - `alike`: files of the folder whose names are nearly those of inputs.
//! - `turns`: how many turns the packets of a client want.
//! - `folder`: what the system says of a file.
//!
//! It proves that all this is safe and ends. That the words are right is tested.
#![tactic(auto)]

mod alike;
mod folder;
mod inputs;
mod mend;
mod outputs;
mod plan;
mod turns;
mod words;

use otn_base::Memory;

/// What these words would do in the current folder; without a word, what `run` would do. `rules` is the page of the
/// rules of a plan, of which the one that is broken is told.
pub fn explanation(rt: &HostRuntime, words: &[String], rules: &str) -> Result<String, Memory> {
    let alloc = rt.alloc();
    let mut page = String::new(alloc);
    if !words::explain(alloc, words, &mut page)? {
        return Ok(page);
    }
    let plan = plan::explain(rt, words, rules, &mut page)?;
    inputs::explain(rt, words, &plan, &mut page)?;
    outputs::explain(rt, words, &plan, &mut page)?;
    alike::explain(rt, words, &mut page)?;
    Ok(page)
}
