// The form of the words of a command.
use crate::mend::mended;
use command_words::{Command, command_of};
use otn_base::Memory;
use program_words::{Page, page_of};
use std::alloc::Global;

/// Each command's name, its forms, and what it does.
pub(crate) const COMMANDS: [(&str, &str, &str); 8] = [
    (
        "check",
        "otn check",
        "says whether plan.toml is a plan, and of how many connections and turns",
    ),
    (
        "run",
        "otn run, otn run --pcap, otn run --order N (N has 1 to 20 digits)",
        "carries plan.toml over the files of this folder",
    ),
    (
        "slot",
        "otn slot K, with K a digit 1 to 8",
        "writes the payload bytes of a slot of line-0.in",
    ),
    (
        "pull",
        "otn pull PORT K,K, with PORT a digit 1 to 8, and slots 1 to 8 that rise, with commas and no blank",
        "writes what a tributary of line-0.in carries",
    ),
    (
        "protect",
        "otn protect PORT K,K T N, with PORT and slots as of pull, T turns, 1 to 16384, and N turns, 0 to 16384",
        "puts the better one of line-0.in and line-1.in on line-0.out",
    ),
    (
        "bundle",
        "otn bundle C,C T, with clients 0 to 15 that rise, with commas and no blank, and T turns, 1 to 16384",
        "puts the packets of clients on line-0.out, as channels of slot 1",
    ),
    (
        "unbundle",
        "otn unbundle T, with T turns, 1 to 16384",
        "takes the channels of slot 1 of line-0.in apart",
    ),
    (
        "trial",
        "otn trial N, with N 1 to 20 digits",
        "carries drawn packets through four nodes, in memory",
    ),
];

/// Says what the words are, and whether they are a command whose files are to be looked at. No word stands for `run`.
pub(crate) fn explain(alloc: Global, words: &[String], page: &mut String) -> Result<bool, Memory> {
    if words.is_empty() {
        writeln!(
            page,
            "otn --explain: what otn run would do here; a command may stand behind it"
        )?;
        return Ok(true);
    }
    let phrase = phrase(alloc, words)?;
    if let Some(command) = command_of(words) {
        let does = what_it_does(name_of(&command), &COMMANDS);
        writeln!(page, "{phrase}: {does}")?;
        return Ok(true);
    }
    if let Some(asked) = page_of(words) {
        let name = page_name(asked);
        writeln!(page, "{phrase}: writes {name}")?;
        return Ok(false);
    }
    writeln!(page, "{phrase}: no command (otn: words, status 2)")?;
    mended(alloc, words, page)?;
    Ok(false)
}

fn page_name(page: Page) -> &'static str {
    match page {
        Page::Help => "the page of the commands",
        Page::Rules => "the page of the rules of a plan",
        Page::Version => "the version",
    }
}

fn name_of(command: &Command) -> &'static str {
    match command {
        Command::Slot(_) => "slot",
        Command::Pull(..) => "pull",
        Command::Check => "check",
        Command::Run | Command::RunOrdered(_) | Command::RunCaptures => "run",
        Command::Trial(_) => "trial",
        Command::Protect(..) => "protect",
        Command::Bundle(..) => "bundle",
        Command::Unbundle(_) => "unbundle",
    }
}

fn what_it_does(
    name: &str,
    commands: &[(&'static str, &'static str, &'static str)],
) -> &'static str {
    for &(one, _, does) in commands {
        if one == name {
            return does;
        }
    }
    ""
}

/// The words as they are typed behind `otn`.
pub(crate) fn phrase(alloc: Global, words: &[String]) -> Result<String, Memory> {
    let mut phrase = String::from_str(alloc, "otn")?;
    for word in words {
        phrase.push_str(" ")?;
        phrase.push_str(word.as_str())?;
    }
    Ok(phrase)
}
