// A number as text.
ghost use Rattle.std.specs.Prelude.{◌≡◌, ◌<◌, ℕ, IfNone, IfSome};
ghost use Rattle.std.specs.Fmt.{decimal};

use itoa::Buffer;

/// The number below the limit that this text is, in decimal with no needless zero. None where it is none.
pub fn number_of(text: &[u8], limit: u8) -> Option<u8>
    ensures number { IfSome result (λ n. (text.now ≡ decimal n) × (n < limit)) }
    ensures none { IfNone result ((n : ℕ) → text.now ≡ decimal n → n < limit → ⊥) }
{
    let mut digits = Buffer::new();
    for number in 0..limit {
        if digits.format(number).as_bytes() == text {
            return Some(number);
        }
    }
    None
}
