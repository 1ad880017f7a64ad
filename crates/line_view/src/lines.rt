// The lines of a view.
ghost use Rattle.std.specs.Prelude.{◌≡◌, ◌≤◌, ◌<◌, ◌+◌, ◌*◌, ◌++◌, ◌∷◌, [], length, codes, flat_map};
ghost use Rattle.std.specs.Fmt.{decimal};
ghost use Rattle.arrayvec.specs.ArrayString.{array_string_len};
ghost use Rattle.otn_base.specs.declared.limits.TheConstants.{MOST_SLOTS, MOST_TURNS};
ghost use Rattle.port_base.specs.PortViews.{SinkWrites, sink_view};
ghost use Rattle.line_view.specs.ViewText.{head_line, turn_line, hex_text, msi_line, told_text, tributary_line, end_line, slots_text, pair_text};
ghost use Rattle.line_view.specs.Steps.ViewRuns.{lines_of, watched_line};
ghost use Rattle.line_view.specs.declared.shown.TheConstants.{NAME_BYTES};

use crate::told::{Told, TurnSeen};
use crate::watched::Watched;
use crate::words::{hex_word, word_of_align, word_of_kind, word_of_mask, word_of_state};
use arrayvec::ArrayString;
use itoa::Buffer;
use otn_base::LineKind;
use port_base::{Sink, Written, write_whole};

/// Room for a line.
pub const LINE_BYTES: usize = 1024;

/// Writes the line of the line.
pub(crate) fn write_head<K: Sink>(report: &mut K, kind: LineKind, scrambled: bool) -> Written
    ensures { SinkWrites result (sink_view K.Sink report.old) (head_line kind scrambled) (sink_view K.Sink report.new) }
{
    let mut line = ArrayString::<64>::new();
    line.push_str("line ");
    line.push_str(word_of_kind(kind));
    line.push_str(" ");
    line.push_str(word_of_mask(scrambled));
    line.push_str("\n");
    write_whole(report, line.as_bytes())
}

/// Writes the last line.
pub(crate) fn write_end<K: Sink>(report: &mut K, turns: u32, rest: u64) -> Written
    ensures { SinkWrites result (sink_view K.Sink report.old) (end_line turns rest) (sink_view K.Sink report.new) }
{
    let mut digits = Buffer::new();
    let mut line = ArrayString::<128>::new();
    line.push_str("end turns ");
    line.push_str(digits.format(turns));
    line.push_str(" rest ");
    line.push_str(digits.format(rest));
    line.push_str("\n");
    write_whole(report, line.as_bytes())
}

/// Writes the lines of turn t + 1: its own, one of each MSI byte that came, and one of each tributary that is shown in
/// it.
pub(crate) fn write_lines<K: Sink>(
    report: &mut K,
    t: u32,
    seen: TurnSeen,
    msi: &[(u8, u8)],
    watched: &[Watched],
) -> Written
    requires { t < MOST_TURNS }
    ensures { SinkWrites result (sink_view K.Sink report.old) (lines_of t seen msi.now watched.now)
        (sink_view K.Sink report.new) }
{
    if write_turn_line(report, t + 1, seen) == Written::Lost {
        return Written::Lost;
    }
    write_others(report, t, msi, watched)
}

// Writes the lines behind that of the turn.
fn write_others<K: Sink>(report: &mut K, t: u32, msi: &[(u8, u8)], watched: &[Watched]) -> Written
    ensures { SinkWrites result (sink_view K.Sink report.old)
        (flat_map msi_line msi.now ++ flat_map (watched_line t) watched.now) (sink_view K.Sink report.new) }
{
    if write_msi(report, msi) == Written::Lost {
        return Written::Lost;
    }
    write_tributaries(report, t, watched)
}

// Writes the line of each MSI byte; the first write that fails ends that.
fn write_msi<K: Sink>(report: &mut K, msi: &[(u8, u8)]) -> Written
    ensures { SinkWrites result (sink_view K.Sink report.old) (flat_map msi_line msi.now)
        (sink_view K.Sink report.new) }
{
    for i in 0..msi.len() {
        if write_msi_line(report, &msi[i]) == Written::Lost {
            return Written::Lost;
        }
    }
    Written::Whole
}

// Writes the line of one MSI byte.
fn write_msi_line<K: Sink>(report: &mut K, pair: &(u8, u8)) -> Written
    ensures { SinkWrites result (sink_view K.Sink report.old) (msi_line pair.now) (sink_view K.Sink report.new) }
{
    let mut line = ArrayString::new();
    put_msi(&mut line, pair.0, pair.1);
    write_whole(report, line.as_bytes())
}

// The line of an MSI byte, of 40 bytes at most.
fn put_msi(text: &mut ArrayString<LINE_BYTES>, slot: u8, byte: u8)
    requires room { array_string_len text.old + 40 ≤ 1024 }
    ensures { text.new.bytes ≡ text.old.bytes ++ msi_line (slot, byte) }
{
    put_number(text, "msi ", slot as u64);
    text.push_str(" ");
    put_hex(text, byte);
    text.push_str("\n");
}

// A byte in two hex digits.
fn put_hex(text: &mut ArrayString<LINE_BYTES>, byte: u8)
    requires room { array_string_len text.old + 2 ≤ 1024 }
    ensures text { text.new.bytes ≡ text.old.bytes ++ hex_text byte }
    ensures most { array_string_len text.new ≤ array_string_len text.old + 2 }
{
    text.push_str(hex_word(byte / 16));
    text.push_str(hex_word(byte % 16));
}

// Writes the line of each tributary that is shown in turn t + 1; the first write that fails ends that.
fn write_tributaries<K: Sink>(report: &mut K, t: u32, watched: &[Watched]) -> Written
    ensures { SinkWrites result (sink_view K.Sink report.old) (flat_map (watched_line t) watched.now)
        (sink_view K.Sink report.new) }
{
    for one in watched {
        if write_tributary(report, t, one) == Written::Lost {
            return Written::Lost;
        }
    }
    Written::Whole
}

// Writes the line of one tributary, where it is shown in turn t + 1.
fn write_tributary<K: Sink>(report: &mut K, t: u32, one: &Watched) -> Written
    ensures { SinkWrites result (sink_view K.Sink report.old) (watched_line t one.now) (sink_view K.Sink report.new) }
{
    if one.is_shown(t) {
        return write_watched(report, one);
    }
    Written::Whole
}

// Writes its line.
fn write_watched<K: Sink>(report: &mut K, one: &Watched) -> Written
    ensures { SinkWrites result (sink_view K.Sink report.old)
        (tributary_line one.now.name.bytes one.now.port one.now.sink.slots.list one.now.told)
        (sink_view K.Sink report.new) }
{
    let slots = one.sink.slots();
    let _few = slots.count();
    write_told(
        report,
        one.name.as_str(),
        one.port,
        slots.as_slice(),
        one.told,
    )
}

// Writes the line of a turn.
fn write_turn_line<K: Sink>(report: &mut K, number: u32, seen: TurnSeen) -> Written
    ensures { SinkWrites result (sink_view K.Sink report.old) (turn_line number seen) (sink_view K.Sink report.new) }
{
    let mut line = ArrayString::new();
    put_turn(&mut line, number, seen);
    write_whole(report, line.as_bytes())
}

// The line of a turn, of 217 bytes at most.
fn put_turn(text: &mut ArrayString<LINE_BYTES>, number: u32, seen: TurnSeen)
    requires room { array_string_len text.old + 217 ≤ 1024 }
    ensures text { text.new.bytes ≡ text.old.bytes ++ turn_line number seen }
    ensures most { array_string_len text.new ≤ array_string_len text.old + 217 }
{
    put_number(text, "turn ", number as u64);
    text.push_str(" ");
    text.push_str(word_of_align(seen.ended, seen.whole, seen.counts.lost > 0));
    put_number(text, " frames ", seen.counts.frames);
    put_number(text, " lead-in ", seen.counts.lead_in);
    put_number(text, " fas ", seen.counts.fas);
    put_number(text, " sm ", seen.counts.sm);
    put_number(text, " pm ", seen.counts.pm);
    text.push_str("\n");
}

// Writes the line of a tributary.
fn write_told<K: Sink>(report: &mut K, name: &str, port: u8, slots: &[u8], told: Told) -> Written
    requires name { length name.now ≤ NAME_BYTES }
    requires slots { length slots.now ≤ MOST_SLOTS }
    ensures { SinkWrites result (sink_view K.Sink report.old) (tributary_line name.now port slots.now told)
        (sink_view K.Sink report.new) }
{
    let mut line = ArrayString::new();
    put_told(&mut line, name, port, slots, told);
    write_whole(report, line.as_bytes())
}

// The line of a tributary, of 900 bytes at most.
fn put_told(text: &mut ArrayString<LINE_BYTES>, name: &str, port: u8, slots: &[u8], told: Told)
    requires name { length name.now ≤ NAME_BYTES }
    requires few { length slots.now ≤ MOST_SLOTS }
    requires room { array_string_len text.old + 900 ≤ 1024 }
    ensures { text.new.bytes ≡ text.old.bytes ++ tributary_line name.now port slots.now told }
{
    text.push_str("tributary ");
    text.push_str(name);
    put_number(text, " port ", port as u64);
    put_rest(text, slots, told);
}

// What stands behind its name and port, of 800 bytes at most.
fn put_rest(text: &mut ArrayString<LINE_BYTES>, slots: &[u8], told: Told)
    requires few { length slots.now ≤ MOST_SLOTS }
    requires room { array_string_len text.old + 800 ≤ 1024 }
    ensures { text.new.bytes ≡ text.old.bytes ++ told_text slots.now told }
{
    text.push_str(" slots ");
    put_slots(text, slots);
    text.push_str(" ");
    text.push_str(word_of_state(told.state));
    put_pair(text, told.pair);
    put_number(text, " bytes ", told.bytes as u64);
    text.push_str("\n");
}

/// Appends numbers of slots, with commas between them, of 700 bytes at most.
pub fn put_slots(text: &mut ArrayString<LINE_BYTES>, slots: &[u8])
    requires few { length slots.now ≤ MOST_SLOTS }
    requires room { array_string_len text.old + 700 ≤ 1024 }
    ensures text { text.new.bytes ≡ text.old.bytes ++ slots_text slots.now }
    ensures most { array_string_len text.new ≤ array_string_len text.old + 700 }
{
    if let [first, rest @ ..] = slots {
        put_number(text, "", *first as u64);
        put_others(text, rest);
    }
}

// The same behind a number.
fn put_others(text: &mut ArrayString<LINE_BYTES>, slots: &[u8])
    requires few { length slots.now ≤ MOST_SLOTS }
    requires room { array_string_len text.old + 672 ≤ 1024 }
    ensures text { text.new.bytes ≡ text.old.bytes ++ flat_map (λ s. codes "," ++ decimal s) slots.now }
    ensures most { array_string_len text.new ≤ array_string_len text.old + 672 }
{
    for slot in slots {
        put_number(text, ",", *slot as u64);
    }
}

// Cm and CnD, or a mark for each, of 50 bytes at most.
fn put_pair(text: &mut ArrayString<LINE_BYTES>, pair: Option<(u16, u16)>)
    requires room { array_string_len text.old + 50 ≤ 1024 }
    ensures text { text.new.bytes ≡ text.old.bytes ++ pair_text pair }
    ensures most { array_string_len text.new ≤ array_string_len text.old + 50 }
{
    match pair {
        None => text.push_str(" cm - cnd -"),
        Some(pair) => put_both(text, pair.0, pair.1),
    }
}

fn put_both(text: &mut ArrayString<LINE_BYTES>, cm: u16, cnd: u16)
    requires room { array_string_len text.old + 50 ≤ 1024 }
    ensures text { text.new.bytes ≡ text.old.bytes
        ++ (codes " cm " ++ decimal cm ++ codes " cnd " ++ decimal cnd) }
    ensures most { array_string_len text.new ≤ array_string_len text.old + 50 }
{
    put_number(text, " cm ", cm as u64);
    put_number(text, " cnd ", cnd as u64);
}

/// Appends a number behind its label, of 20 digits at most.
pub fn put_number(text: &mut ArrayString<LINE_BYTES>, label: &str, number: u64)
    requires room { array_string_len text.old + length label.now + 20 ≤ 1024 }
    ensures text { text.new.bytes ≡ text.old.bytes ++ (label.now ++ decimal number) }
    ensures most { array_string_len text.new ≤ array_string_len text.old + length label.now + 20 }
{
    let mut digits = Buffer::new();
    text.push_str(label);
    text.push_str(digits.format(number));
}
