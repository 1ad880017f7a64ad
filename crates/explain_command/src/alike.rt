// Files of the folder whose names are nearly those of inputs.
use crate::folder::{State, state_of};
use command_words::takes_captures;
use otn_base::Memory;
use std::alloc::Global;
use std::fs;

/// The most names that are told.
const MOST_TOLD: usize = 10;

/// Says which files of the folder are no inputs, and which names they may be meant for.
pub(crate) fn explain(rt: &HostRuntime, words: &[String], page: &mut String) -> Result<(), Memory> {
    let names = names(rt)?;
    let captures = takes_captures(words);
    let mut left = MOST_TOLD;
    for name in &names {
        if left == 0 {
            break;
        }
        if tell(rt.alloc(), name.as_str(), captures, page)? {
            left -= 1;
        }
    }
    Ok(())
}

// The names in the folder, in order. None where it can't be listed.
fn names(rt: &HostRuntime) -> Result<Vec<String>, Memory> {
    let alloc = rt.alloc();
    let mut names = Vec::new(alloc);
    let Ok(entries) = fs::read_dir(rt, ".") else {
        return Ok(names);
    };
    for entry in entries {
        match entry {
            Ok(entry) => names.push(String::from_str(alloc, entry.file_name())?)?,
            Err(_) => break,
        }
    }
    names.sort()?;
    Ok(names)
}

// Tells of a name that is nearly that of an input, and says whether it did.
fn tell(alloc: Global, name: &str, captures: bool, page: &mut String) -> Result<bool, Memory> {
    if is_known(name) {
        return tell_capture(name, captures, page);
    }
    match meant(alloc, name)? {
        Some(meant) => {
            writeln!(page, "{name} is not read; {meant} would be")?;
            Ok(true)
        }
        None => Ok(false),
    }
}

// Tells of a capture that is not read without `--pcap`.
fn tell_capture(name: &str, captures: bool, page: &mut String) -> Result<bool, Memory> {
    if captures || !name.ends_with(".pcap") {
        return Ok(false);
    }
    writeln!(
        page,
        "{name} is not read; otn run --pcap reads it, where there is no text of the client"
    )?;
    Ok(true)
}

// Whether it is the name of a file that a command reads or makes.
fn is_known(name: &str) -> bool {
    if name == "plan.toml" {
        return true;
    }
    if let Some(rest) = name.strip_prefix("line-") {
        return is_line_rest(rest.as_bytes());
    }
    match name.strip_prefix("client-") {
        Some(rest) => is_client_rest(rest.as_bytes()),
        None => false,
    }
}

fn is_line_rest(rest: &[u8]) -> bool {
    match rest {
        [b'0'..=b'3', ending @ ..] => ending == b".in".as_slice() || ending == b".out".as_slice(),
        _ => false,
    }
}

fn is_client_rest(rest: &[u8]) -> bool {
    match rest {
        [b'0', b'0'..=b'9', ending @ ..] | [b'1', b'0'..=b'5', ending @ ..] => is_client_ending(
            ending,
        ),
        _ => false,
    }
}

fn is_client_ending(ending: &[u8]) -> bool {
    ending == b".in".as_slice()
        || ending == b".out".as_slice()
        || ending == b".pcap".as_slice()
        || ending == b".pcap.out".as_slice()
}

// The name of an input that may be meant by this one. None where it looks like none.
fn meant(alloc: Global, name: &str) -> Result<Option<String>, Memory> {
    let mut lower = String::from_str(alloc, name)?;
    lower.make_ascii_lowercase();
    let lower = lower.as_str();
    if lower.starts_with("plan") && lower.len() <= 12 {
        return Ok(Some(String::from_str(alloc, "plan.toml")?));
    }
    if lower.starts_with("line") {
        return meant_line(alloc, lower);
    }
    if lower.starts_with("client") {
        return meant_client(alloc, lower);
    }
    Ok(None)
}

fn meant_line(alloc: Global, name: &str) -> Result<Option<String>, Memory> {
    match number_in(name.as_bytes()) {
        Some(n) if n < 4 => Ok(Some(format!(in alloc; "line-{n}.in")?)),
        Some(_) => Ok(Some(String::from_str(alloc, "line-0.in to line-3.in")?)),
        None => Ok(None),
    }
}

fn meant_client(alloc: Global, name: &str) -> Result<Option<String>, Memory> {
    let ending = if name.contains("cap") { "pcap" } else { "in" };
    match number_in(name.as_bytes()) {
        Some(n) if n < 16 => {
            let tens = n / 10;
            let units = n % 10;
            Ok(Some(format!(in alloc; "client-{tens}{units}.{ending}")?))
        }
        Some(_) => Ok(Some(format!(in alloc; "client-00.{ending} to client-15.{ending}")?)),
        None => Ok(None),
    }
}

// The first number in the name: its digits up to another character.
fn number_in(name: &[u8]) -> Option<u32> {
    let mut number = None;
    for &byte in name {
        if byte.is_ascii_digit() {
            let before = number.unwrap_or(0u32);
            number = Some(
                before
                    .saturating_mul(10)
                    .saturating_add(u32::from(byte.wrapping_sub(b'0'))),
            );
        } else if number.is_some() {
            return number;
        }
    }
    number
}
