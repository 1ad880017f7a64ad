// Words that are no command, and the nearest that are.
use crate::words::{COMMANDS, phrase};
use command_words::command_of;
use otn_base::Memory;
use program_words::page_of;
use std::alloc::Global;
use strsim::levenshtein;

/// Says what is wrong with words that are no command, and what would do.
pub(crate) fn mended(alloc: Global, words: &[String], page: &mut String) -> Result<(), Memory> {
    let Some(first) = words.first() else {
        return Ok(());
    };
    match nearest(alloc, first.as_str(), &COMMANDS)? {
        Some((name, forms)) => mended_as(alloc, words, name, forms, page),
        None => {
            writeln!(
                page,
                "  {first} is no command; they are check, run, slot, pull, protect, bundle, unbundle and trial"
            )?;
            Ok(())
        }
    }
}

// The command whose name is this word, or two edits from it at most, and its forms.
fn nearest(
    alloc: Global,
    word: &str,
    commands: &[(&'static str, &'static str, &'static str)],
) -> Result<Option<(&'static str, &'static str)>, Memory> {
    if word.len() > 20 {
        return Ok(None);
    }
    let mut best = None;
    let mut distance = 3;
    for &(name, forms, _) in commands {
        let edits = levenshtein(alloc, word, name)?;
        if edits < distance {
            best = Some((name, forms));
            distance = edits;
        }
    }
    Ok(best)
}

// Says what would do where the command of this name is meant.
fn mended_as(
    alloc: Global,
    words: &[String],
    name: &str,
    forms: &str,
    page: &mut String,
) -> Result<(), Memory> {
    let named = with_name(alloc, words, name)?;
    if let [first, ..] = words {
        other_name(first.as_str(), name, page)?;
    }
    let joined = joined(alloc, &named)?;
    if asks_for_page(words) {
        writeln!(
            page,
            "  the pages are otn --help, otn --rules and otn --version"
        )?;
    } else if is_right(&named) {
        write_better(alloc, "write", &named, page)?;
    } else if is_right(&joined) {
        write_better(
            alloc,
            "a list has commas and no blank: write",
            &joined,
            page,
        )?;
    } else {
        shorter(alloc, &named, name, page)?;
    }
    writeln!(page, "  {name} has the form {forms}")?;
    Ok(())
}

// Says that the first word is none, where it is another than this name.
fn other_name(first: &str, name: &str, page: &mut String) -> Result<(), Memory> {
    if first != name {
        writeln!(page, "  {first} is no command; {name}?")?;
    }
    Ok(())
}

fn write_better(
    alloc: Global,
    why: &str,
    words: &[String],
    page: &mut String,
) -> Result<(), Memory> {
    let phrase = phrase(alloc, words)?;
    writeln!(page, "  {why} {phrase}")?;
    Ok(())
}

// Whether the words are a command, or ask for a page.
fn is_right(words: &[String]) -> bool {
    command_of(words).is_some() || page_of(words).is_some()
}

// Whether one of the words asks for a page.
fn asks_for_page(words: &[String]) -> bool {
    words.iter().any(|word| is_page_word(word.as_str()))
}

fn is_page_word(word: &str) -> bool {
    matches!(
        word,
        "--help" | "-h" | "--version" | "-v" | "-V" | "--rules"
    )
}

// The words with another first one.
fn with_name(alloc: Global, words: &[String], name: &str) -> Result<Vec<String>, Memory> {
    let mut named = Vec::new(alloc);
    named.push(String::from_str(alloc, name)?)?;
    for word in words.iter().skip(1) {
        named.push(String::from_str(alloc, word.as_str())?)?;
    }
    Ok(named)
}

// The words with the pieces of a list put together: a word behind one that ends with a comma, and of `pull` all behind
// the port.
fn joined(alloc: Global, words: &[String]) -> Result<Vec<String>, Memory> {
    let is_pull = matches!(words, [name, ..] if name.as_str() == "pull");
    let mut joined: Vec<String> = Vec::new(alloc);
    for i in 0..words.len() {
        let word = words[i].as_str();
        let is_piece = i > 0 && words[i - 1].as_str().ends_with(',') || word.starts_with(',');
        if is_piece || (is_pull && i > 2) {
            add_piece(alloc, &mut joined, word)?;
        } else {
            joined.push(String::from_str(alloc, word)?)?;
        }
    }
    Ok(joined)
}

// Puts a piece of a list behind the last word.
fn add_piece(alloc: Global, words: &mut Vec<String>, piece: &str) -> Result<(), Memory> {
    let Some(mut last) = words.pop() else {
        return Ok(words.push(String::from_str(alloc, piece)?)?);
    };
    if !last.as_str().ends_with(',') && !piece.starts_with(',') {
        last.push_str(",")?;
    }
    last.push_str(piece)?;
    Ok(words.push(last)?)
}

// Says which words are too many, where those before them are a command.
fn shorter(alloc: Global, words: &[String], name: &str, page: &mut String) -> Result<(), Memory> {
    for count in 1..words.len() {
        if is_right(&words[..count]) {
            let phrase = phrase(alloc, &words[..count])?;
            let word = &words[count];
            if is_file_name(word.as_str()) {
                writeln!(
                    page,
                    "  {name} takes no file: its files stand in this folder, under fixed names; write {phrase}"
                )?;
            } else {
                writeln!(page, "  {word} is a word too many; write {phrase}")?;
            }
            return Ok(());
        }
    }
    Ok(())
}

// Whether the word looks like the name of a file.
fn is_file_name(word: &str) -> bool {
    word.contains('.') || word.contains('/')
}
