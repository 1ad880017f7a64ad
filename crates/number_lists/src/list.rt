// The numbers that a text lists.
ghost use Rattle.std.specs.Prelude.{◌≡◌, ◌==◌, ◌<◌, ◌≤◌, ◌++◌, ◌∷◌, ℕ, List, [], IfNone, IfSome, length};
ghost use Rattle.std.specs.Fmt.{decimal};
ghost use Rattle.std.specs.List.{position_or_len};
ghost use Rattle.number_lists.specs.NumberLists.{IsNumberList, numbers_text};

use crate::number::number_of;
use arrayvec::ArrayVec;

/// The numbers below the limit that this text lists: one at least, N at most, in decimal with no needless zero, commas
/// between them. None where it is the text of no such list.
pub fn numbers_of<const N: usize>(text: &[u8], limit: u8) -> Option<ArrayVec<u8, N>>
    ensures numbers { IfSome result (λ list. IsNumberList limit N list.items × (text.now ≡ numbers_text list.items)) }
    ensures none { IfNone result ((numbers : List ℕ) → IsNumberList limit N numbers → text.now ≡ numbers_text numbers
        → ⊥) }
{
    let mut list: ArrayVec<u8, N> = ArrayVec::new();
    let mut rest = text;
    let mut comma = comma_in(rest);
    while comma < rest.len() {
        push_number(&mut list, &rest[..comma], limit)?;
        let behind = &rest[comma..];
        rest = &behind[1..];
        comma = comma_in(rest);
    }
    push_number(&mut list, rest, limit)?;
    Some(list)
}

// How many bytes stand before the first comma; all where there is none.
fn comma_in(text: &[u8]) -> usize
    ensures comma { result ≡ position_or_len (λ byte. byte == 44) text.now }
    ensures within { result ≤ length text.now }
{
    for at in 0..text.len() {
        if text[at] == b',' {
            return at;
        }
    }
    text.len()
}

// Appends the number that this text is. None where it is none below the limit, or the list is full.
fn push_number<const N: usize>(list: &mut ArrayVec<u8, N>, text: &[u8], limit: u8) -> Option<()>
    ensures pushed { IfSome result (λ _. (n : ℕ) × (text.now ≡ decimal n) × (n < limit)
        × (list.new.items ≡ list.old.items ++ n ∷ [])) }
    ensures room { IfSome result (λ _. length list.new.items ≤ N) }
    ensures none { IfNone result ((n : ℕ) → text.now ≡ decimal n → n < limit → length list.old.items ≡ N) }
{
    list.try_push(number_of(text, limit)?).ok()
}
