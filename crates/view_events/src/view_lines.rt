// The lines of a view, by their words.
ghost use Rattle.std.specs.Prelude.{◌≡◌, ◌<◌, ◌^◌, ℕ, All, IfOk, codes};
ghost use Rattle.std.specs.Fmt.{decimal};
ghost use Rattle.view_events.specs.EventsOf.{label_by, label_of, right_byte, tributary_said};
ghost use Rattle.view_events.specs.Steps.Words.{nth_word};
ghost use Rattle.view_events.specs.ViewLines.{IsOtherWord, IsTributaryLine, IsTurnLine, OfMsi, OfTributary, OfTurn, TributaryLine, line_text};
ghost use Rattle.view_events.specs.declared.said.TurnSaid.{TurnSaid};
ghost use Rattle.view_events.specs.declared.slot_events.TheConstants.{SLOTS};

use crate::said::{Alignment, MsiSaid, SinkState, TributarySaid, TurnSaid};
use crate::slot_events::SLOTS;
use crate::words::{byte_of, number_of, word_of};
use arrayvec::ArrayVec;
use number_lists::numbers_of;
use otn_base::limits::MOST_SLOTS;
use std::alloc::{AllocError, Global};

// The MSI byte of port 1 is this and 1.
const BEFORE_FIRST_PORT: u8 = 0x7F;

/// What a line of a view is of, by its first word.
#[derive(Clone, Copy, Debug, PartialEq, Eq)]
pub(crate) enum Kind {
    Turn,
    Msi,
    Tributary,
    /// The last line.
    End,
    /// One that begins with another word.
    Other,
}

/// What the line is of.
pub(crate) fn kind_of(line: &[u8]) -> Kind
    ensures turn { nth_word 0 line.now ≡ codes "turn" → result ≡ Kind.Turn }
    ensures msi { nth_word 0 line.now ≡ codes "msi" → result ≡ Kind.Msi }
    ensures tributary { nth_word 0 line.now ≡ codes "tributary" → result ≡ Kind.Tributary }
    ensures end { nth_word 0 line.now ≡ codes "end" → result ≡ Kind.End }
    ensures other { IsOtherWord (nth_word 0 line.now) → result ≡ Kind.Other }
{
    let word = word_of(line, 0);
    if word == b"turn".as_slice() {
        return Kind::Turn;
    }
    if word == b"msi".as_slice() {
        return Kind::Msi;
    }
    last_kind_of(word)
}

// The same of a line that is of no turn and of no MSI byte.
fn last_kind_of(word: &[u8]) -> Kind
    ensures tributary { word.now ≡ codes "tributary" → result ≡ Kind.Tributary }
    ensures end { word.now ≡ codes "end" → result ≡ Kind.End }
    ensures other { IsOtherWord word.now → result ≡ Kind.Other }
{
    if word == b"tributary".as_slice() {
        return Kind::Tributary;
    }
    if word == b"end".as_slice() {
        return Kind::End;
    }
    Kind::Other
}

/// What the line of a turn says.
pub(crate) fn turn_said(line: &[u8]) -> TurnSaid
    ensures { (frames : ℕ) (said : TurnSaid) → IsTurnLine frames said → line.now ≡ line_text (OfTurn frames said)
        → result ≡ said }
{
    let number = number_at(line, 1);
    let alignment = alignment_of(line);
    let lead_in = number_at(line, 6);
    let fas = number_at(line, 8);
    let sm = number_at(line, 10);
    let pm = number_at(line, 12);
    TurnSaid {
        number,
        alignment,
        lead_in,
        fas,
        sm,
        pm,
    }
}

// The number that word n of a line is.
fn number_at(line: &[u8], n: usize) -> u64
    ensures { (number : ℕ) → number < 2 ^ 64 → nth_word n line.now ≡ decimal number → result ≡ number }
{
    number_of(word_of(line, n))
}

// The alignment that the line of a turn says.
fn alignment_of(line: &[u8]) -> Alignment
    ensures whole { nth_word 2 line.now ≡ codes "whole" → result ≡ Alignment.Whole }
    ensures lost { nth_word 2 line.now ≡ codes "lost" → result ≡ Alignment.Lost }
    ensures none { nth_word 2 line.now ≡ codes "none" → result ≡ Alignment.Hunting }
    ensures end { nth_word 2 line.now ≡ codes "end" → result ≡ Alignment.Ended }
{
    let word = word_of(line, 2);
    if word == b"whole".as_slice() {
        return Alignment::Whole;
    }
    if word == b"lost".as_slice() {
        return Alignment::Lost;
    }
    if word == b"none".as_slice() {
        return Alignment::Hunting;
    }
    Alignment::Ended
}

/// What the line of an MSI byte says in this turn. The slot is 0 where it is none of a line.
pub(crate) fn msi_said(turn: u64, line: &[u8]) -> MsiSaid
    ensures slot { result.slot < SLOTS }
    ensures said { (slot byte : ℕ) → slot < SLOTS → byte < 256 → line.now ≡ line_text (OfMsi slot byte)
        → result ≡ record { turn = turn; slot = slot; byte = byte } }
{
    let slot = slot_at(line, 1);
    let byte = byte_of(word_of(line, 2));
    MsiSaid { turn, slot, byte }
}

// The slot or tributary port that word n of a line is; 0 where it is none.
fn slot_at(line: &[u8], n: usize) -> u8
    ensures below { result < SLOTS }
    ensures slot { (slot : ℕ) → slot < SLOTS → nth_word n line.now ≡ decimal slot → result ≡ slot }
{
    let number = number_at(line, n);
    if number >= SLOTS as u64 {
        return 0;
    }
    number as u8
}

/// What the line of a tributary says in this turn.
pub(crate) fn tributary_said(turn: u64, line: &[u8]) -> TributarySaid
    ensures { (x : TributaryLine) → IsTributaryLine x → line.now ≡ line_text (OfTributary x)
        → result ≡ tributary_said turn x }
{
    let state = state_of(line);
    let cm = pair_number(line, 8);
    let cnd = pair_number(line, 10);
    TributarySaid {
        turn,
        state,
        cm,
        cnd,
    }
}

// The state that the line of a tributary says.
fn state_of(line: &[u8]) -> SinkState
    ensures up { nth_word 6 line.now ≡ codes "up" → result ≡ SinkState.Up }
    ensures waiting { nth_word 6 line.now ≡ codes "waiting" → result ≡ SinkState.Waiting }
    ensures down { nth_word 6 line.now ≡ codes "down" → result ≡ SinkState.Down }
{
    let word = word_of(line, 6);
    if word == b"up".as_slice() {
        return SinkState::Up;
    }
    if word == b"waiting".as_slice() {
        return SinkState::Waiting;
    }
    SinkState::Down
}

// Cm or CnD, as word n of a line; 0 where it is a mark.
fn pair_number(line: &[u8], n: usize) -> u64
    ensures mark { nth_word n line.now ≡ codes "-" → result ≡ 0 }
    ensures number { (number : ℕ) → number < 2 ^ 64 → nth_word n line.now ≡ decimal number → result ≡ number }
{
    let word = word_of(line, n);
    if word == b"-".as_slice() {
        return 0;
    }
    number_of(word)
}

/// The MSI byte of the port that the line of a tributary says.
pub(crate) fn right_byte(line: &[u8]) -> u8
    ensures { (x : TributaryLine) → IsTributaryLine x → line.now ≡ line_text (OfTributary x)
        → result ≡ right_byte x.port }
{
    slot_at(line, 3) + BEFORE_FIRST_PORT
}

/// The slots that the line of a tributary says: none where it says none of a line.
pub(crate) fn slots_said(line: &[u8]) -> ArrayVec<u8, MOST_SLOTS>
    ensures below { All (λ slot. slot < SLOTS) result.items }
    ensures said { (x : TributaryLine) → IsTributaryLine x → line.now ≡ line_text (OfTributary x)
        → result.items ≡ x.slots }
{
    match numbers_of(word_of(line, 5), SLOTS as u8) {
        Some(slots) => slots,
        None => ArrayVec::new(),
    }
}

/// The label of a tributary by its line: its name; where the line has a mark in place of it, its port, a colon and its
/// slots.
pub(crate) fn label_said(alloc: Global, line: &[u8]) -> Result<Vec<u8>, AllocError>
    ensures { IfOk result (λ label. (x : TributaryLine) → IsTributaryLine x → line.now ≡ line_text (OfTributary x)
        → label.items ≡ label_of x) }
{
    let name = word_of(line, 1);
    let port = word_of(line, 3);
    let slots = word_of(line, 5);
    let label = label_by(alloc, name, port, slots)?;
    Ok(label)
}

// The label by these words.
fn label_by(alloc: Global, name: &[u8], port: &[u8], slots: &[u8]) -> Result<Vec<u8>, AllocError>
    ensures { IfOk result (λ label. label.items ≡ label_by name.now port.now slots.now) }
{
    let mut label = Vec::new(alloc);
    if name != b"-".as_slice() {
        label.extend_from_slice(name)?;
        return Ok(label);
    }
    label.extend_from_slice(port)?;
    label.extend_from_slice(b":")?;
    label.extend_from_slice(slots)?;
    Ok(label)
}
