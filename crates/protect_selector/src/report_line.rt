// The line of the report that tells of a switch.
ghost use Rattle.std.specs.Prelude.{◌≡◌, ◌≤◌, ◌+◌, ◌++◌, ◌∷◌, Some, length, codes};
ghost use Rattle.std.specs.Fmt.{decimal};
ghost use Rattle.otn_base.specs.declared.limits.TheConstants.{MOST_TURNS};
ghost use Rattle.port_base.specs.PortViews.{sink_view, SinkWrites};
ghost use Rattle.protect_selector.specs.OfLines.{side_word, cause_word, switch_line};

use crate::side::{Choice, Side, SwitchCause};
use arrayvec::ArrayString;
use itoa::Buffer;
use port_base::{Sink, Written, write_whole};

/// Digits of the number of a turn at most.
const DIGITS: usize = 20;

/// Bytes of the word for a side at most.
const SIDE_WORD: usize = "protection".len();

/// Bytes of the word for a cause at most.
const CAUSE_WORD: usize = "restored".len();

/// Bytes of the line at most.
const LINE_BYTES: usize = "turn ".len()
    + DIGITS
    + " ".len()
    + SIDE_WORD
    + " ".len()
    + CAUSE_WORD
    + "\n".len();

/// Writes the line of turn t + 1, where the choice in it is a switch.
pub(crate) fn write_switch<K: Sink>(report: &mut K, t: u32, choice: Choice) -> Written
    requires { t ≤ MOST_TURNS }
    ensures { SinkWrites result (sink_view K.Sink report.old) (switch_line t choice.side choice.cause)
        (sink_view K.Sink report.new) }
{
    match choice.cause {
        None => Written::Whole,
        Some(cause) => write_line(report, t, choice.side, cause),
    }
}

// The same of a switch.
fn write_line<K: Sink>(report: &mut K, t: u32, side: Side, cause: SwitchCause) -> Written
    requires { t ≤ MOST_TURNS }
    ensures { SinkWrites result (sink_view K.Sink report.old) (switch_line t side (Some cause))
        (sink_view K.Sink report.new) }
{
    let mut digits = Buffer::new();
    let mut line = ArrayString::<LINE_BYTES>::new();
    line.push_str("turn ");
    line.push_str(digits.format(t + 1));
    line.push_str(" ");
    line.push_str(word_of(side));
    line.push_str(" ");
    line.push_str(word_of_cause(cause));
    line.push_str("\n");
    write_whole(report, line.as_bytes())
}

fn word_of(side: Side) -> &'static str
    ensures word { result.now ≡ side_word side }
    ensures short { length result.now ≤ SIDE_WORD }
{
    match side {
        Side::Working => "working",
        Side::Protection => "protection",
    }
}

fn word_of_cause(cause: SwitchCause) -> &'static str
    ensures word { result.now ≡ cause_word cause }
    ensures short { length result.now ≤ CAUSE_WORD }
{
    match cause {
        SwitchCause::Defect => "defect",
        SwitchCause::Restored => "restored",
    }
}
