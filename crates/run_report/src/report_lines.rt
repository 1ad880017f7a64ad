// The lines of the report of a run.
ghost use Rattle.std.specs.Prelude.{◌≡◌, ◌≤◌, ◌<◌, ◌+◌, ◌++◌, ◌∷◌, [], length, codes};
ghost use Rattle.std.specs.Fmt.{decimal};
ghost use Rattle.arrayvec.specs.ArrayString.{array_string_len};
ghost use Rattle.port_base.specs.Racks.{bays_view};
ghost use Rattle.port_base.specs.Views.{State};
ghost use Rattle.device_model.specs.Report.{client_word, connection_line, line_of, outcome_word, state_word};
ghost use Rattle.device_model.specs.RunNumbers.{numbers_of_run};
ghost use Rattle.run_report.specs.Steps.RunReport.{count_of, line_by, port_line, width_of};
ghost use Rattle.run_report.specs.declared.report_words.TheConstants.{PLACE_WORD};

use crate::port_kind::PortKind;
use crate::report_words::{
    FROM_WORD, OUTCOME_WORD, PLACE_WORD, from_word, outcome_word, place_word,
};
use arrayvec::ArrayString;
use device_model::{FromState, Outcome, RunNumbers};
use itoa::Buffer;
use otn_base::limits::{CLIENTS, LINES, MOST_CONNECTIONS};
use port_base::{Rack, Sink, Source};

// The numbers of each line of a port, in order, each after its label: a further one is one more row here. `put` puts
// them into a text, `width` says how many bytes they take at most.
macro_rules! line_in {
    ($do:ident, $text:expr, $a:expr, $counts:expr) => {
        $do!($text;
            "line-in " => $a as u64,
            " frames " => $counts.frames,
            " lead-in " => $counts.lead_in,
            " lost " => $counts.lost,
            " rest " => $counts.rest,
            " fas " => $counts.fas,
            " sm " => $counts.sm,
            " pm " => $counts.pm)
    };
}

macro_rules! line_out {
    ($do:ident, $text:expr, $b:expr, $frames:expr) => {
        $do!($text;
            "line-out " => $b as u64,
            " frames " => $frames)
    };
}

macro_rules! client_in {
    ($do:ident, $text:expr, $n:expr, $counts:expr) => {
        $do!($text;
            "client-in " => $n as u64,
            " packets " => $counts.packets)
    };
}

macro_rules! client_out {
    ($do:ident, $text:expr, $n:expr, $counts:expr) => {
        $do!($text;
            "client-out " => $n as u64,
            " frames " => $counts.frames,
            " packets " => $counts.packets)
    };
}

macro_rules! put {
    ($text:expr; $($label:literal => $number:expr),*) => {{
        $(put_number($text, $label, $number);)*
    }};
}

macro_rules! width {
    ($text:expr; $($label:literal => $number:expr),*) => {
        0 $(+ $label.len() + DIGITS)*
    };
}

/// Digits of a number at most.
const DIGITS: usize = 20;

/// The space before the last word of a line, and the line feed.
const AROUND: usize = " ".len() + "\n".len();

/// Whether the text of a client is spent, or where it is bad: bytes at most.
const CLIENT_WORD: usize = "bad ".len() + DIGITS;

/// Bytes of the name of a connection at most.
pub(crate) const MOST_NAME: usize = 32;

// Bytes of each line at most: of the turns, of a port, of a connection, and of how the run ended.
pub(crate) const TURNS_BYTES: usize = "turns ".len() + DIGITS + "\n".len();

pub(crate) const LINE_IN_BYTES: usize = line_in!(width, (), 0, ()) + PLACE_WORD + AROUND;

pub(crate) const LINE_OUT_BYTES: usize = line_out!(width, (), 0, ()) + PLACE_WORD + AROUND;

pub(crate) const CLIENT_IN_BYTES: usize = client_in!(width, (), 0, ())
    + " ".len()
    + CLIENT_WORD
    + PLACE_WORD
    + AROUND;

pub(crate) const CLIENT_OUT_BYTES: usize = client_out!(width, (), 0, ()) + PLACE_WORD + AROUND;

pub(crate) const CONNECTION_BYTES: usize = "connection ".len() + MOST_NAME + FROM_WORD + AROUND;

pub(crate) const STATUS_BYTES: usize = "status".len() + OUTCOME_WORD + AROUND;

/// Room for a report: all lines that it can have, each of as many bytes as it has at most.
pub const REPORT_BYTES: usize = TURNS_BYTES
    + LINES * (LINE_IN_BYTES + LINE_OUT_BYTES)
    + CLIENTS * (CLIENT_IN_BYTES + CLIENT_OUT_BYTES)
    + MOST_CONNECTIONS * CONNECTION_BYTES
    + STATUS_BYTES;

/// The line of port n of a kind.
pub(crate) fn put_port<I: Source, O: Sink>(
    text: &mut ArrayString<REPORT_BYTES>,
    numbers: &RunNumbers,
    bays: &Rack<I, O>,
    kind: PortKind,
    n: u8,
)
    requires port { n < count_of kind }
    requires room { array_string_len text.old + width_of kind ≤ REPORT_BYTES }
    ensures text { text.new.bytes ≡ text.old.bytes
        ++ port_line (numbers_of_run numbers.now) (bays_view I.Source O.Sink bays.now) kind n }
    ensures most { array_string_len text.new ≤ array_string_len text.old + width_of kind }
{
    put_numbers(text, numbers, kind, n);
    put_last(text, place_word(bays, kind, n));
}

// Its numbers, each after its label: the line but for how the place stands.
fn put_numbers(text: &mut ArrayString<REPORT_BYTES>, numbers: &RunNumbers, kind: PortKind, n: u8)
    requires port { n < count_of kind }
    requires room { array_string_len text.old + width_of kind ≤ REPORT_BYTES }
    ensures text { (state : State) → text.new.bytes ++ (32 ∷ (state_word state ++ 10 ∷ []))
        ≡ text.old.bytes ++ line_by (numbers_of_run numbers.now) kind n state }
    ensures most { array_string_len text.new + PLACE_WORD + AROUND ≤ array_string_len text.old + width_of kind }
{
    match kind {
        PortKind::LinesIn => {
            let counts = &numbers.lines_in[n as usize];
            line_in!(put, text, n, counts)
        }
        PortKind::LinesOut => line_out!(put, text, n, numbers.lines_out[n as usize]),
        PortKind::ClientsIn => {
            let counts = &numbers.clients_in[n as usize];
            client_in!(put, text, n, counts);
            text.push_str(" ");
            put_client_word(text, counts.spent, counts.bad);
        }
        PortKind::ClientsOut => {
            let counts = &numbers.clients_out[n as usize];
            client_out!(put, text, n, counts)
        }
    }
}

// Whether the client's text is spent, or at which line it is bad.
fn put_client_word(text: &mut ArrayString<REPORT_BYTES>, spent: bool, bad: Option<u64>)
    requires room { array_string_len text.old + CLIENT_WORD ≤ REPORT_BYTES }
    ensures text { text.new.bytes ≡ text.old.bytes ++ client_word spent bad }
    ensures most { array_string_len text.new ≤ array_string_len text.old + CLIENT_WORD }
{
    match (spent, bad) {
        (true, _) => text.push_str("spent"),
        (false, Some(line)) => put_number(text, "bad ", line),
        (false, None) => text.push_str("open"),
    }
}

/// The line of a connection.
pub(crate) fn put_connection(
    text: &mut ArrayString<REPORT_BYTES>,
    name: &str,
    from: Option<FromState>,
)
    requires name { length name.now ≤ MOST_NAME }
    requires room { array_string_len text.old + CONNECTION_BYTES ≤ REPORT_BYTES }
    ensures text { text.new.bytes ≡ text.old.bytes ++ connection_line name.now from }
    ensures most { array_string_len text.new ≤ array_string_len text.old + CONNECTION_BYTES }
{
    text.push_str("connection ");
    text.push_str(name);
    put_last(text, from_word(from));
}

/// The line of the turns.
pub(crate) fn put_turns(text: &mut ArrayString<REPORT_BYTES>, turns: u32)
    requires room { array_string_len text.old + TURNS_BYTES ≤ REPORT_BYTES }
    ensures text { text.new.bytes ≡ text.old.bytes ++ line_of (codes "turns " ∷ decimal turns ∷ []) }
    ensures most { array_string_len text.new ≤ array_string_len text.old + TURNS_BYTES }
{
    put_number(text, "turns ", turns as u64);
    text.push_str("\n");
}

/// The line of how the run ended.
pub(crate) fn put_status(text: &mut ArrayString<REPORT_BYTES>, outcome: Outcome)
    requires room { array_string_len text.old + STATUS_BYTES ≤ REPORT_BYTES }
    ensures text { text.new.bytes ≡ text.old.bytes ++ line_of (codes "status " ∷ outcome_word outcome ∷ []) }
    ensures most { array_string_len text.new ≤ array_string_len text.old + STATUS_BYTES }
{
    text.push_str("status");
    put_last(text, outcome_word(outcome));
}

// A number after its label.
fn put_number(text: &mut ArrayString<REPORT_BYTES>, label: &str, number: u64)
    requires room { array_string_len text.old + length label.now + DIGITS ≤ REPORT_BYTES }
    ensures text { text.new.bytes ≡ text.old.bytes ++ (label.now ++ decimal number) }
    ensures most { array_string_len text.new ≤ array_string_len text.old + length label.now + DIGITS }
{
    let mut digits = Buffer::new();
    text.push_str(label);
    text.push_str(digits.format(number));
}

// The last word of a line, and the line feed.
fn put_last(text: &mut ArrayString<REPORT_BYTES>, word: &str)
    requires room { array_string_len text.old + length word.now + AROUND ≤ REPORT_BYTES }
    ensures text { text.new.bytes ≡ text.old.bytes ++ (32 ∷ (word.now ++ 10 ∷ [])) }
    ensures most { array_string_len text.new ≤ array_string_len text.old + length word.now + AROUND }
{
    text.push_str(" ");
    text.push_str(word);
    text.push_str("\n");
}
