// The word of a tributary.
ghost use Rattle.std.specs.Prelude.{◌≡◌, ◌≤◌, ℕ, List, IfNone, IfSome, codes};
ghost use Rattle.std.specs.Fmt.{decimal};
ghost use Rattle.otn_base.specs.LineSlots.{slots_of};
ghost use Rattle.otn_base.specs.SlotList.{IsSlotList};
ghost use Rattle.otn_base.specs.declared.limits.TheConstants.{MOST_TURNS};
ghost use Rattle.line_view.specs.ViewText.{slots_text};
ghost use Rattle.line_view.specs.declared.shown.Shown.{Shown};
ghost use Rattle.otn_view.specs.Words.{IsAllAlong, word_of};

use arrayvec::{ArrayString, ArrayVec};
use line_view::Shown;
use number_lists::{number_of, numbers_of};
use otn_base::limits::{MOST_SLOTS, MOST_TURNS};
use otn_base::{LineKind, Slots};

/// The numbers of slots, and of tributary ports, are below this.
const NUMBERS: u8 = MOST_SLOTS as u8 + 1;

/// The tributary of this word: its port, a colon, and its slots with commas between them, in decimal with no needless
/// zero. None where it is the word of none on a line of this kind.
pub(crate) fn tributary_of(word: &str, kind: LineKind) -> Option<Shown>
    ensures one { IfSome result (λ one. (word.now ≡ word_of one) × IsAllAlong kind one) }
    ensures none { IfNone result ((one : Shown) → IsAllAlong kind one → word.now ≡ word_of one → ⊥) }
{
    let (port, slots) = word.split_once(':')?;
    let port = port_of(port.as_bytes(), kind)?;
    Some(all_along(port, slots_of(slots.as_bytes(), kind)?))
}

// A tributary in all turns, without a name.
fn all_along(port: u8, slots: Slots) -> Shown
    ensures port { result.port ≡ port }
    ensures slots { result.slots ≡ slots }
    ensures name { result.name.bytes ≡ codes "-" }
    ensures first { result.first ≡ 0 }
    ensures stop { result.stop ≡ MOST_TURNS }
{
    let mut name = ArrayString::new();
    name.push_str("-");
    Shown {
        name,
        port,
        slots,
        first: 0,
        stop: MOST_TURNS as u32,
    }
}

// The tributary port of a line of this kind whose number this text is.
fn port_of(text: &[u8], kind: LineKind) -> Option<u8>
    ensures port { IfSome result (λ port. (text.now ≡ decimal port) × (1 ≤ port) × (port ≤ slots_of kind)) }
    ensures none { IfNone result ((port : ℕ) → text.now ≡ decimal port → 1 ≤ port → port ≤ slots_of kind → ⊥) }
{
    let port = number_of(text, NUMBERS)?;
    if port < 1 || port > kind.slots() {
        return None;
    }
    Some(port)
}

// The slots of a line of this kind that this text lists: numbers with commas between them.
fn slots_of(text: &[u8], kind: LineKind) -> Option<Slots>
    ensures slots { IfSome result (λ slots. (text.now ≡ slots_text slots.list) × (slots.kind ≡ kind)
        × IsSlotList (slots_of kind) slots.list) }
    ensures none { IfNone result ((slots : List ℕ) → IsSlotList (slots_of kind) slots → text.now ≡ slots_text slots
        → ⊥) }
{
    let list: ArrayVec<u8, MOST_SLOTS> = numbers_of(text, NUMBERS)?;
    Slots::new(list.as_slice(), kind)
}
