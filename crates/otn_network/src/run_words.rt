// The words after `otn_network run`.
ghost use Rattle.std.specs.Prelude.{◌<◌, IfSome};

use otn_base::Memory;
use std::alloc::Global;

/// What the words ask for, where the first is `run`.
#[derive(Clone, Copy)]
pub(crate) enum RunAsked<'a> {
    /// A run of the network of this file, and the lines of these fibres in files, if any.
    Run(&'a str, Option<&'a str>),
    /// Nothing: the words have another form.
    Nothing,
}

/// The words behind `run`. None where the first word is another.
pub(crate) fn behind_run(words: &[String]) -> Option<&[String]> {
    match words {
        [first, rest @ ..] if first.as_str() == "run" => Some(rest),
        _ => None,
    }
}

/// What the words behind `run` ask for: `[FILE] [--lines LIST]`, network.toml where no file is named.
pub(crate) fn run_asked(rest: &[String]) -> RunAsked<'_> {
    match rest {
        [] => RunAsked::Run("network.toml", None),
        [path] => with_file(path.as_str(), None),
        [option, list] if is_lines(option) => RunAsked::Run("network.toml", Some(list.as_str())),
        [path, option, list] if is_lines(option) => with_file(path.as_str(), Some(list.as_str())),
        _ => RunAsked::Nothing,
    }
}

// A word that begins as an option names no file.
fn with_file<'a>(path: &'a str, list: Option<&'a str>) -> RunAsked<'a> {
    if path.starts_with("--") {
        RunAsked::Nothing
    } else {
        RunAsked::Run(path, list)
    }
}

fn is_lines(word: &String) -> bool {
    word.as_str() == "--lines"
}

/// Which of so many fibres the list names: `all`, or numbers from 1 with commas between them. None where it is no list
/// of such fibres. No list names none.
pub(crate) fn fibres_named(
    alloc: Global,
    list: Option<&str>,
    count: usize,
) -> Result<Option<Vec<bool>>, Memory> {
    let Some(list) = list else {
        return Ok(Some(vec![in alloc; false; count]?));
    };
    let mut named = vec![in alloc; list == "all"; count]?;
    if list == "all" {
        return Ok(Some(named));
    }
    for word in list.split(',') {
        match number_of(word) {
            Some(n) if n <= named.len() => named[n - 1] = true,
            _ => return Ok(None),
        }
    }
    Ok(Some(named))
}

// The number that the word is, from 1.
fn number_of(word: &str) -> Option<usize>
    ensures { IfSome result (λ n. 0 < n) }
{
    match word.parse::<usize>() {
        Ok(n) if n > 0 => Some(n),
        _ => None,
    }
}
