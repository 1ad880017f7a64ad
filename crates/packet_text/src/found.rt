// What the next line of a text is.
ghost use Rattle.std.specs.Prelude.{◌≡◌, ◌<◌, ◌≤◌, ◌+◌};
ghost use Rattle.packet_text.specs.Steps.Finding.{answer_of};
ghost use Rattle.otn_base.specs.declared.limits.TheConstants.{MOST_EMPTY_LINES};

use crate::Line;
use otn_base::limits::MOST_EMPTY_LINES;

/// An empty line, a packet, a bad line, the end of the text, or a place that died.
#[derive(Clone, Copy, Debug, PartialEq, Eq)]
pub(crate) enum Found {
    Empty,
    Packet,
    Bad,
    End,
    Lost,
}

/// The answer that says what was found; a bad line has this number.
pub(crate) fn answer_for(found: Found, number: u64) -> Line
    ensures { result ≡ answer_of found number }
{
    match found {
        Found::Packet => Line::Packet,
        Found::End => Line::End,
        Found::Lost => Line::Lost,
        Found::Bad | Found::Empty => Line::Bad(number),
    }
}

/// Passes over an empty line, if there were not too many in a row.
pub(crate) fn pass(empty: &mut usize) -> Found
    ensures bad { MOST_EMPTY_LINES ≤ empty.old → (result ≡ Found.Bad) × (empty.new ≡ empty.old) }
    ensures empty { empty.old < MOST_EMPTY_LINES → (result ≡ Found.Empty) × (empty.new ≡ empty.old + 1) }
{
    if *empty >= MOST_EMPTY_LINES {
        return Found::Bad;
    }
    *empty += 1;
    Found::Empty
}
