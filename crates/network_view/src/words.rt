// The words of the text.
ghost use Rattle.std.specs.Prelude.{◌≡◌, ◌-◌, ◌*◌, ◌++◌, IfOk, codes, string_bytes, flat_map};
ghost use Rattle.std.specs.Fmt.{decimal};
ghost use Rattle.network_view.specs.Words.{begin_text, comma_text, end_text, from_text, kind_word, line_end_text, line_kind_word, mask_word, numbers_text, signal_word, step_word, to_text, turns_text, why_word};

use crate::meeting::Likeness;
use crate::named::Leg;
use maintenance_signals::Signal;
use otn_base::{Kind, LineKind, Memory, Slots};
use plan_file::{Connection, FromEnd, ToEnd};
use std::alloc::{AllocError, Global};

/// The kind of a line.
pub fn word_of_line_kind(kind: LineKind) -> &'static str
    ensures { result.now ≡ line_kind_word kind }
{
    match kind {
        LineKind::Otu2 => "otu2",
        LineKind::Otu3 => "otu3",
    }
}

/// Whether it is scrambled.
pub(crate) fn word_of_mask(scrambled: bool) -> &'static str
    ensures { result.now ≡ mask_word scrambled }
{
    if scrambled { "scrambled" } else { "plain" }
}

/// What an entry carries.
pub fn word_of_kind(kind: Kind) -> &'static str
    ensures { result.now ≡ kind_word kind }
{
    match kind {
        Kind::Odu0 => "odu0",
        Kind::Flex => "flex",
    }
}

/// Whether all entries of a way begin with the same turn.
pub(crate) fn word_of_step(in_step: bool) -> &'static str
    ensures { result.now ≡ step_word in_step }
{
    if in_step { "in-step" } else { "out-of-step" }
}

/// Why none goes on in an entry.
pub fn word_of_why(why: Likeness) -> &'static str
    ensures { result.now ≡ why_word why }
{
    match why {
        Likeness::Turns => "turns",
        Likeness::Port => "port",
        Likeness::Slots => "slots",
        Likeness::Nothing => "none",
    }
}

/// The signal that an entry makes.
pub fn word_of_signal(signal: Signal) -> &'static str
    ensures { result.now ≡ signal_word signal }
{
    match signal {
        Signal::Ais => "ais",
        Signal::Oci => "oci",
        Signal::Lck => "lck",
    }
}

/// Numbers with commas between them; a mark where there is none.
pub(crate) fn text_of_numbers(alloc: Global, numbers: &[u8]) -> Result<String, Memory>
    ensures { IfOk result (λ text. string_bytes text ≡ numbers_text numbers.now) }
{
    let [first, rest @ ..] = numbers else {
        return Ok(String::from_str(alloc, "-")?);
    };
    let others = text_of_others(alloc, rest)?;
    Ok(format!(in alloc; "{first}{others}")?)
}

// Numbers, each after a comma.
fn text_of_others(alloc: Global, numbers: &[u8]) -> Result<String, Memory>
    ensures { IfOk result (λ text. string_bytes text ≡ flat_map comma_text numbers.now) }
{
    let mut text = String::new(alloc);
    for number in numbers {
        let one = text_of_comma(alloc, *number)?;
        text.push_str(&one)?;
    }
    Ok(text)
}

#[tactic(auto, unfolding(crate::specs::Words::comma_text))]
fn text_of_comma(alloc: Global, number: u8) -> Result<String, AllocError>
    ensures { IfOk result (λ text. string_bytes text ≡ comma_text number) }
{
    format!(in alloc; ",{number}")
}

/// Where an entry comes from.
pub(crate) fn text_of_from(alloc: Global, from: &FromEnd) -> Result<String, Memory>
    ensures { IfOk result (λ text. string_bytes text ≡ from_text from.now) }
{
    match from {
        FromEnd::Line(line, port, slots) => text_of_line(alloc, *line, *port, slots),
        FromEnd::Client(client) => text_of_client(alloc, *client),
        FromEnd::Signal(signal) => text_of_signal(alloc, *signal),
    }
}

/// Where an entry goes.
pub(crate) fn text_of_to(alloc: Global, to: &ToEnd) -> Result<String, Memory>
    ensures { IfOk result (λ text. string_bytes text ≡ to_text to.now) }
{
    match to {
        ToEnd::Line(line, port, slots) => text_of_line(alloc, *line, *port, slots),
        ToEnd::Client(client) => text_of_client(alloc, *client),
    }
}

/// Where a way begins.
pub(crate) fn text_of_begin(alloc: Global, from: &FromEnd) -> Result<String, Memory>
    ensures { IfOk result (λ text. string_bytes text ≡ begin_text from.now) }
{
    match from {
        FromEnd::Line(..) => text_of_edge(alloc),
        FromEnd::Client(client) => text_of_client(alloc, *client),
        FromEnd::Signal(signal) => text_of_signal(alloc, *signal),
    }
}

/// Where a way ends.
pub(crate) fn text_of_end(alloc: Global, to: &ToEnd) -> Result<String, Memory>
    ensures { IfOk result (λ text. string_bytes text ≡ end_text to.now) }
{
    match to {
        ToEnd::Line(..) => text_of_edge(alloc),
        ToEnd::Client(client) => text_of_client(alloc, *client),
    }
}

fn text_of_edge(alloc: Global) -> Result<String, Memory>
    ensures { IfOk result (λ text. string_bytes text ≡ codes "edge") }
{
    Ok(String::from_str(alloc, "edge")?)
}

#[tactic(auto, unfolding(crate::specs::Words::line_end_text))]
fn text_of_line(alloc: Global, line: u8, port: u8, slots: &Slots) -> Result<String, Memory>
    ensures { IfOk result (λ text. string_bytes text ≡ line_end_text line port slots.now) }
{
    let slots = text_of_numbers(alloc, slots.as_slice())?;
    Ok(format!(in alloc; "line {line} port {port} slots {slots}")?)
}

fn text_of_client(alloc: Global, client: u8) -> Result<String, Memory>
    ensures { IfOk result (λ text. string_bytes text ≡ codes "client " ++ decimal client) }
{
    Ok(format!(in alloc; "client {client}")?)
}

fn text_of_signal(alloc: Global, signal: Signal) -> Result<String, Memory>
    ensures { IfOk result (λ text. string_bytes text ≡ codes "signal " ++ signal_word signal) }
{
    let word = word_of_signal(signal);
    Ok(format!(in alloc; "signal {word}")?)
}

/// In how many turns what a client sends comes in time, on a way of so many nodes after its first; a mark where the way
/// ends at no client.
pub(crate) fn text_of_turns(
    alloc: Global,
    first: &Connection,
    last: &Connection,
    behind: usize,
) -> Result<String, Memory>
    ensures { IfOk result (λ text. string_bytes text ≡ turns_text first.now last.now behind) }
{
    match last.to {
        ToEnd::Line(..) => Ok(String::from_str(alloc, "-")?),
        ToEnd::Client(_) => text_of_count(alloc, turns_left(first.start, last.stop, behind)),
    }
}

fn text_of_count(alloc: Global, count: u128) -> Result<String, Memory>
    ensures { IfOk result (λ text. string_bytes text ≡ decimal count) }
{
    Ok(format!(in alloc; "{count}")?)
}

/// In how many turns what is sent at the beginning of a way comes in time: from the first turn to the last, but for
/// three for each node after the first.
pub fn turns_left(start: u32, stop: u32, behind: usize) -> u128
    ensures { result ≡ stop - start - 3 * behind }
{
    (stop as u128)
        .saturating_sub(start as u128)
        .saturating_sub(3 * behind as u128)
}
