// The rule on slots.
ghost use Rattle.std.specs.Prelude.{◌≡◌};
ghost use Rattle.plan_file.specs.Rules.{is_same_kind, suits, has_slots, has_equal_counts, breaks_slots};
ghost use Rattle.plan_file.specs.Seen.{numbers_in};
ghost use Rattle.plan_file.specs.Steps.Seen.{end_in, entry_in, top_in};

use crate::outline::{End, Entry, Top};
use otn_base::{Kind, LineKind};
use plan_table::{Numbers, is_slot_list};

/// Whether a slot list is none of its line, or does not suit the connection's kind, or the two differ in
/// length.
pub(crate) fn breaks_slots(top: &Top, entry: &Entry) -> bool
    ensures { result ≡ breaks_slots (top_in top.now) (entry_in entry.now) }
{
    let from = entry.from();
    let to = entry.to();
    let kind = entry.kind();
    !(has_slots(&top.otu3_in, kind, &from)
        && has_slots(&top.otu3_out, kind, &to)
        && has_equal_counts(&from, &to))
}

// Whether the end has slots of its line and as many as suit, where these lines are OTU3.
fn has_slots(otu3: &Numbers, kind: Kind, end: &End) -> bool
    ensures { result ≡ has_slots (numbers_in otu3.now) kind (end_in end.now) }
{
    match end {
        End::Line(line, _, made_for, slots) => {
            let line_kind = otu3.line_kind(*line);
            is_same_kind(*made_for, line_kind)
                && is_slot_list(line_kind.slots(), slots)
                && suits(kind, slots.len())
        }
        _ => true,
    }
}

fn is_same_kind(kind: LineKind, other: LineKind) -> bool
    ensures { result ≡ is_same_kind kind other }
{
    match (kind, other) {
        (LineKind::Otu2, LineKind::Otu2) | (LineKind::Otu3, LineKind::Otu3) => true,
        _ => false,
    }
}

fn suits(kind: Kind, count: usize) -> bool
    ensures { result ≡ suits kind count }
{
    match kind {
        Kind::Odu0 => count == 1,
        Kind::Flex => true,
    }
}

fn has_equal_counts(from: &End, to: &End) -> bool
    ensures { result ≡ has_equal_counts (end_in from.now) (end_in to.now) }
{
    match (*from, *to) {
        (End::Line(_, _, _, slots), End::Line(_, _, _, others)) => slots.len() == others.len(),
        _ => true,
    }
}
