// The plan of the folder.
use crate::folder::{State, source_of, state_of};
use otn_base::Memory;
use plan_file::{NoPlan, Plan};
use plan_reasons::{Refusal, refusal_of};
use program_words::{plan_text, reads_plan};

/// What is known of the plan.
#[derive(Drop)]
pub(crate) enum Known {
    /// The command reads none.
    Unread,
    /// There is none to be carried.
    None,
    Plan(Plan),
}

/// Says what the plan is, where the words' command reads one.
pub(crate) fn explain(
    rt: &HostRuntime,
    words: &[String],
    rules: &str,
    page: &mut String,
) -> Result<Known, Memory> {
    if !words.is_empty() && !reads_plan(words) {
        return Ok(Known::Unread);
    }
    writeln!(page, "plan")?;
    match state_of(rt, "plan.toml") {
        State::Absent => {
            writeln!(page, "  plan.toml is not there (otn: plan fault, status 4)")?;
            Ok(Known::None)
        }
        State::File(..) => explain_file(rt, rules, page),
        _ => {
            writeln!(
                page,
                "  plan.toml is a folder, a pipe, or can't be read (otn: plan fault, status 4)"
            )?;
            Ok(Known::None)
        }
    }
}

fn explain_file(rt: &HostRuntime, rules: &str, page: &mut String) -> Result<Known, Memory> {
    let alloc = rt.alloc();
    let Some(text) = plan_text(alloc, &mut source_of(rt, "plan.toml"))? else {
        writeln!(
            page,
            "  plan.toml can't be read (otn: plan fault, status 4)"
        )?;
        return Ok(Known::None);
    };
    if let Some(refusal) = refusal_of(alloc, &text)? {
        explain_refusal(&refusal, rules, page)?;
        return Ok(Known::None);
    }
    match Plan::read(alloc, &text) {
        Ok(plan) => {
            let connections = plan.connections.as_slice().len();
            let turns = plan.turns;
            writeln!(
                page,
                "  plan.toml is accepted: plan connections {connections} turns {turns}"
            )?;
            Ok(Known::Plan(plan))
        }
        Err(NoPlan::Memory) => Err(Memory),
        Err(_) => Ok(Known::None),
    }
}

fn explain_refusal(refusal: &Refusal, rules: &str, page: &mut String) -> Result<(), Memory> {
    let code = refusal.rule.code();
    let place = refusal.place;
    let at = &refusal.at;
    let reason = &refusal.reason;
    writeln!(
        page,
        "  plan.toml is refused (otn: plan {code} at {place}, status 3)"
    )?;
    writeln!(page, "  {at}: {reason}")?;
    writeln!(page, "  rule:")?;
    quote_rule(code, rules, page)
}

// Writes the rule of this number as the page of the rules has it: its line, and those behind it that go on with it.
fn quote_rule(code: u8, rules: &str, page: &mut String) -> Result<(), Memory> {
    let mut is_in = false;
    for line in rules.lines() {
        if !line.starts_with("      ") {
            is_in = number_of(line) == Some(code);
        }
        if is_in {
            writeln!(page, "  {line}")?;
        }
    }
    Ok(())
}

// The number that a line begins with.
fn number_of(line: &str) -> Option<u8> {
    let (number, _) = line.trim_start().split_once(' ')?;
    number.parse().ok()
}
