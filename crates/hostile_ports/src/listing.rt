// The file `ports.txt`: which ports fail, and when.
use std::alloc::{AllocError, Global};

/// A port of a run, with its number.
#[derive(Clone, Copy, PartialEq, Eq)]
pub enum Port {
    LineIn(u8),
    LineOut(u8),
    ClientIn(u8),
    ClientOut(u8),
    Plan,
    Report,
}

/// What a line says of its port.
#[derive(Drop)]
pub struct Fate {
    port: Port,
    /// How many bytes a read gives at most, where that is said.
    pub most: Option<usize>,
    /// How many bytes there is room for, where that is said.
    pub room: Option<usize>,
    /// The calls that fail, from 1.
    pub failing: Vec<u32>,
}

/// What is said of the port, or None where no line is about it.
pub fn fate_of(fates: &[Fate], port: Port) -> Option<&Fate> {
    for fate in fates {
        if fate.port == port {
            return Some(fate);
        }
    }
    None
}

/// What the lines of this text say, or None where one says nothing of a port and is not empty.
pub fn fates(alloc: Global, text: &str) -> Result<Option<Vec<Fate>>, AllocError> {
    let mut fates = Vec::new(alloc);
    for line in text.lines() {
        if line.is_empty() {
            continue;
        }
        let Some(fate) = fate_in(alloc, line)? else {
            return Ok(None);
        };
        fates.push(fate)?;
    }
    Ok(Some(fates))
}

// What a line says: its port, and then pairs of words.
fn fate_in(alloc: Global, line: &str) -> Result<Option<Fate>, AllocError> {
    let words: Vec<&str> = line.split_whitespace().collect(alloc)?;
    let Some((port, pairs)) = port_named(&words) else {
        return Ok(None);
    };
    let mut fate = Fate {
        port,
        most: None,
        room: None,
        failing: Vec::new(alloc),
    };
    for pair in pairs.chunks(2) {
        if !add(alloc, &mut fate, pair)? {
            return Ok(None);
        }
    }
    Ok(Some(fate))
}

// The port that these words begin with, and the words after it.
fn port_named<'a, 'b>(words: &'a [&'b str]) -> Option<(Port, &'a [&'b str])> {
    let name = *words.first()?;
    match name {
        "plan" => return Some((Port::Plan, &words[1..])),
        "report" => return Some((Port::Report, &words[1..])),
        _ => {}
    }
    let number: u8 = words.get(1)?.parse().ok()?;
    let port = match name {
        "line-in" => Port::LineIn(number),
        "line-out" => Port::LineOut(number),
        "client-in" => Port::ClientIn(number),
        "client-out" => Port::ClientOut(number),
        _ => return None,
    };
    Some((port, &words[2..]))
}

// Adds what a pair of words says of a port, and answers whether it says something.
fn add(alloc: Global, fate: &mut Fate, pair: &[&str]) -> Result<bool, AllocError> {
    let [key, value] = pair else {
        return Ok(false);
    };
    match *key {
        "most" => fate.most = value.parse().ok(),
        "room" => fate.room = value.parse().ok(),
        "failing" => match numbers(alloc, value)? {
            Some(numbers) => fate.failing = numbers,
            None => return Ok(false),
        },
        _ => return Ok(false),
    }
    Ok(true)
}

// The numbers of this text, with commas between them. None where one is no number.
fn numbers(alloc: Global, text: &str) -> Result<Option<Vec<u32>>, AllocError> {
    let mut numbers = Vec::new(alloc);
    for word in text.split(',') {
        let Ok(number) = word.parse() else {
            return Ok(None);
        };
        numbers.push(number)?;
    }
    Ok(Some(numbers))
}
