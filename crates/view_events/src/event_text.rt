// Events as text, a line for each.
ghost use Rattle.std.specs.Prelude.{◌≡◌, [], ◌∷◌, ◌++◌, ◌<◌, ◌/◌, ◌%◌, IfOk, codes};
ghost use Rattle.std.specs.Fmt.{decimal};
ghost use Rattle.view_events.specs.EventText.{errors_text, line_word, line_events_text, byte_word, msi_event_text, change_word, changes_text, line_sums_text, line_turns_text, tributary_sums_text, states_text, rows_text, hex_digit};

use crate::line_events::{LineEvent, LineTally};
use crate::said::MsiSaid;
use crate::tributary_events::{Change, TributaryTally};
use itoa::Buffer;
use std::alloc::AllocError;

// The MSI byte of a free slot, and that of port 1.
const FREE: u8 = 0xC0;

const FIRST_PORT: u8 = 0x80;

/// Appends the event of a line in a turn, where there is one.
pub(crate) fn put_line_event(
    out: &mut Vec<u8>,
    turn: u64,
    event: Option<LineEvent>,
) -> Result<(), AllocError>
    ensures { IfOk result (λ _. out.new.items ≡ out.old.items ++ line_events_text turn event) }
{
    let Some(event) = event else {
        return Ok(());
    };
    put_number(out, b"turn ", turn)?;
    put_line_word(out, event)?;
    out.extend_from_slice(b"\n")
}

// What changes of the line.
fn put_line_word(out: &mut Vec<u8>, event: LineEvent) -> Result<(), AllocError>
    ensures { IfOk result (λ _. out.new.items ≡ out.old.items ++ line_word event) }
{
    match event {
        LineEvent::Found(turns) => put_between(out, b" line whole after ", turns, b" turns"),
        LineEvent::Lost => out.extend_from_slice(b" line lost multiframe"),
        LineEvent::NotFound => out.extend_from_slice(b" line no multiframe"),
        LineEvent::Ended => out.extend_from_slice(b" line end"),
        LineEvent::PassedOver(frames) => {
            put_between(out, b" line passed over ", frames, b" frames")
        }
        LineEvent::Errors(fas, sm, pm) => put_line_errors(out, fas, sm, pm),
    }
}

// Frames with errors, in a turn.
fn put_line_errors(out: &mut Vec<u8>, fas: u64, sm: u64, pm: u64) -> Result<(), AllocError>
    ensures { IfOk result (λ _. out.new.items ≡ out.old.items ++ (codes " line" ++ errors_text fas sm pm)) }
{
    out.extend_from_slice(b" line")?;
    put_errors(out, fas, sm, pm)
}

// Frames with errors.
fn put_errors(out: &mut Vec<u8>, fas: u64, sm: u64, pm: u64) -> Result<(), AllocError>
    ensures { IfOk result (λ _. out.new.items ≡ out.old.items ++ errors_text fas sm pm) }
{
    put_number(out, b" fas ", fas)?;
    put_number(out, b" sm ", sm)?;
    put_number(out, b" pm ", pm)
}

/// Appends the event of an MSI byte.
pub(crate) fn put_msi_event(out: &mut Vec<u8>, said: MsiSaid) -> Result<(), AllocError>
    ensures { IfOk result (λ _. out.new.items ≡ out.old.items ++ msi_event_text said) }
{
    put_number(out, b"turn ", said.turn)?;
    put_byte_word(out, said.byte)?;
    put_between(out, b" in slot ", said.slot as u64, b"\n")
}

// What an MSI byte says.
fn put_byte_word(out: &mut Vec<u8>, byte: u8) -> Result<(), AllocError>
    ensures { IfOk result (λ _. out.new.items ≡ out.old.items ++ byte_word byte) }
{
    if byte == FREE {
        return out.extend_from_slice(b" no port");
    }
    if byte < FIRST_PORT || byte > FREE {
        return put_hex(out, byte);
    }
    put_number(out, b" port ", (byte - FIRST_PORT) as u64 + 1)
}

// A byte in two hex digits.
fn put_hex(out: &mut Vec<u8>, byte: u8) -> Result<(), AllocError>
    ensures { IfOk result (λ _. out.new.items ≡ out.old.items
        ++ (codes " msi " ++ (hex_digit (byte / 16) ∷ hex_digit (byte % 16) ∷ []))) }
{
    out.extend_from_slice(b" msi ")?;
    out.extend_from_slice(&[hex_digit(byte / 16), hex_digit(byte % 16)])
}

fn hex_digit(n: u8) -> u8
    requires { n < 16 }
    ensures { result ≡ hex_digit n }
{
    if n < 10 { b'0' + n } else { b'a' + (n - 10) }
}

/// Appends the event of a tributary in a turn, where there is one.
pub(crate) fn put_change(
    out: &mut Vec<u8>,
    turn: u64,
    label: &[u8],
    change: Option<Change>,
) -> Result<(), AllocError>
    ensures { IfOk result (λ _. out.new.items ≡ out.old.items ++ changes_text turn label.now change) }
{
    let Some(change) = change else {
        return Ok(());
    };
    put_number(out, b"turn ", turn)?;
    out.extend_from_slice(b" ")?;
    out.extend_from_slice(label)?;
    put_change_word(out, change)?;
    out.extend_from_slice(b"\n")
}

// What changes of the tributary.
fn put_change_word(out: &mut Vec<u8>, change: Change) -> Result<(), AllocError>
    ensures { IfOk result (λ _. out.new.items ≡ out.old.items ++ change_word change) }
{
    match change {
        Change::Up(cm, cnd, turns) => put_up(out, cm, cnd, turns),
        Change::Waiting => out.extend_from_slice(b" waiting"),
        Change::NeverUp => out.extend_from_slice(b" down never came up"),
        Change::NoMultiframe => out.extend_from_slice(b" down no multiframe"),
        Change::WrongMsi(slot) => {
            put_between(out, b" down MSI of slot ", slot as u64, b" wrong twice")
        }
        Change::Damaged => out.extend_from_slice(b" down messages damaged"),
    }
}

fn put_up(out: &mut Vec<u8>, cm: u64, cnd: u64, turns: u64) -> Result<(), AllocError>
    ensures { IfOk result (λ _. out.new.items ≡ out.old.items ++ change_word (Change.Up cm cnd turns)) }
{
    put_number(out, b" up cm ", cm)?;
    put_number(out, b" cnd ", cnd)?;
    put_between(out, b" after ", turns, b" turns")
}

/// Appends the sums of a line.
pub(crate) fn put_line_sums(out: &mut Vec<u8>, tally: &LineTally) -> Result<(), AllocError>
    ensures { IfOk result (λ _. out.new.items ≡ out.old.items ++ line_sums_text tally.now) }
{
    out.extend_from_slice(b"end line")?;
    put_line_turns(out, tally)?;
    put_line_frames(out, tally)
}

// The frames with errors of all its turns, and the end of the line.
fn put_line_frames(out: &mut Vec<u8>, tally: &LineTally) -> Result<(), AllocError>
    ensures { IfOk result (λ _. out.new.items ≡ out.old.items
        ++ (errors_text tally.now.fas tally.now.sm tally.now.pm ++ codes "\n")) }
{
    put_errors(out, tally.fas, tally.sm, tally.pm)?;
    out.extend_from_slice(b"\n")
}

// Its turns by their alignment.
fn put_line_turns(out: &mut Vec<u8>, tally: &LineTally) -> Result<(), AllocError>
    ensures { IfOk result (λ _. out.new.items ≡ out.old.items ++ line_turns_text tally.now) }
{
    put_number(out, b" whole ", tally.whole)?;
    put_number(out, b" lost ", tally.lost)?;
    put_number(out, b" none ", tally.hunting)
}

/// Appends the sums of a tributary.
pub(crate) fn put_tributary_sums(
    out: &mut Vec<u8>,
    label: &[u8],
    tally: &TributaryTally,
) -> Result<(), AllocError>
    ensures { IfOk result (λ _. out.new.items ≡ out.old.items ++ tributary_sums_text label.now tally.now) }
{
    out.extend_from_slice(b"end ")?;
    out.extend_from_slice(label)?;
    put_states(out, tally)?;
    put_rows(out, tally)?;
    out.extend_from_slice(b"\n")
}

// Its turns by their state.
fn put_states(out: &mut Vec<u8>, tally: &TributaryTally) -> Result<(), AllocError>
    ensures { IfOk result (λ _. out.new.items ≡ out.old.items ++ states_text tally.now) }
{
    put_number(out, b" up ", tally.up)?;
    put_number(out, b" waiting ", tally.waiting)?;
    put_number(out, b" down ", tally.down)
}

// How often and how long it was down, and in which turns it was shown.
fn put_rows(out: &mut Vec<u8>, tally: &TributaryTally) -> Result<(), AllocError>
    ensures { IfOk result (λ _. out.new.items ≡ out.old.items ++ rows_text tally.now) }
{
    put_number(out, b" times ", tally.times)?;
    put_number(out, b" longest ", tally.longest)?;
    put_number(out, b" first ", tally.first)?;
    put_number(out, b" last ", tally.last)
}

// A number behind its label, and this behind it.
fn put_between(
    out: &mut Vec<u8>,
    label: &[u8],
    number: u64,
    behind: &[u8],
) -> Result<(), AllocError>
    ensures { IfOk result (λ _. out.new.items ≡ out.old.items ++ (label.now ++ (decimal number ++ behind.now))) }
{
    put_number(out, label, number)?;
    out.extend_from_slice(behind)
}

// A number behind its label.
fn put_number(out: &mut Vec<u8>, label: &[u8], number: u64) -> Result<(), AllocError>
    ensures { IfOk result (λ _. out.new.items ≡ out.old.items ++ (label.now ++ decimal number)) }
{
    let mut digits = Buffer::new();
    out.extend_from_slice(label)?;
    out.extend_from_slice(digits.format(number).as_bytes())
}
