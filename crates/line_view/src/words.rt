// The words of a view.
ghost use Rattle.std.specs.Prelude.{◌≡◌, ◌≤◌, ◌<◌, ◌∷◌, [], length};
ghost use Rattle.line_view.specs.ViewText.{kind_word, mask_word, align_word, state_word, hex_digit};

use otn_base::LineKind;
use tributary_model::SinkState;

/// The kind of a line.
pub(crate) fn word_of_kind(kind: LineKind) -> &'static str
    ensures word { result.now ≡ kind_word kind }
    ensures short { length result.now ≤ 4 }
{
    match kind {
        LineKind::Otu2 => "otu2",
        LineKind::Otu3 => "otu3",
    }
}

/// Whether it is scrambled.
pub(crate) fn word_of_mask(scrambled: bool) -> &'static str
    ensures word { result.now ≡ mask_word scrambled }
    ensures short { length result.now ≤ 9 }
{
    if scrambled { "scrambled" } else { "plain" }
}

/// How a turn is aligned.
pub(crate) fn word_of_align(ended: bool, whole: bool, lost: bool) -> &'static str
    ensures word { result.now ≡ align_word ended whole lost }
    ensures short { length result.now ≤ 5 }
{
    match (ended, whole, lost) {
        (true, _, _) => "end",
        (false, true, _) => "whole",
        (false, false, true) => "lost",
        (false, false, false) => "none",
    }
}

/// How a sink stands.
pub(crate) fn word_of_state(state: SinkState) -> &'static str
    ensures word { result.now ≡ state_word state }
    ensures short { length result.now ≤ 7 }
{
    match state {
        SinkState::Waiting => "waiting",
        SinkState::Up => "up",
        SinkState::Down => "down",
    }
}

/// A digit of a number to the base 16.
pub(crate) fn hex_word(n: u8) -> &'static str
    requires { n < 16 }
    ensures word { result.now ≡ hex_digit n ∷ [] }
    ensures short { length result.now ≡ 1 }
{
    if n < 8 { low_hex(n) } else { high_hex(n) }
}

// One of the first eight.
fn low_hex(n: u8) -> &'static str
    requires { n < 8 }
    ensures word { result.now ≡ hex_digit n ∷ [] }
    ensures short { length result.now ≡ 1 }
{
    match n {
        0 => "0",
        1 => "1",
        2 => "2",
        3 => "3",
        4 => "4",
        5 => "5",
        6 => "6",
        _ => "7",
    }
}

// One of the others.
fn high_hex(n: u8) -> &'static str
    requires low { 8 ≤ n }
    requires high { n < 16 }
    ensures word { result.now ≡ hex_digit n ∷ [] }
    ensures short { length result.now ≡ 1 }
{
    match n {
        8 => "8",
        9 => "9",
        10 => "a",
        11 => "b",
        12 => "c",
        13 => "d",
        14 => "e",
        _ => "f",
    }
}
