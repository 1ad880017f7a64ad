// Hears the bytes JC1 to JC3, one message after another.

ghost use Rattle.std.specs.Prelude.{◌≡◌, ◌<◌, ◌≤◌};
ghost use Rattle.std.specs.Option.{ForSome};
ghost use Rattle.otn_base.specs.declared.limits.TheConstants.{GROUPS};

use crate::patterns::{MOST, ONE_LESS, ONE_MORE, TWO_LESS, TWO_MORE};
use crc_small::crc8;
use std::marker::Model;

/// What a listener makes of a message.
#[derive(Clone, Copy, PartialEq, Eq, Debug)]
pub enum Heard {
    /// A number of groups, 0 to 15,232, and whether the indicators II and DI were equal.
    Accepted(u16, bool),
    /// The check is wrong, or the number is outside 0 to 15,232.
    Damaged,
    /// The message names a change, of no number that is kept or of another one than that which is kept.
    BaseLost,
}

/// Hears messages one after another, and keeps the last number that it accepted. It is seen as that number,
/// or as none.
#[derive(Drop)]
pub struct Listener {
    former: Option<u16>,
}

impl Model for Listener {
    ghost use Rattle.std.specs.Prelude.{ℕ, Option};

    ghost Value = { Option ℕ };

    ghost view = { λ l. l.former };

    ghost use Rattle.std.specs.Prelude.{◌≤◌};
    ghost use Rattle.std.specs.Option.{ForSome};
    ghost use Rattle.otn_base.specs.declared.limits.TheConstants.{GROUPS};

    ghost invariant = { λ l. ForSome l.former (λ n. n ≤ GROUPS) };
}

impl Listener {
    ghost use Rattle.std.specs.Prelude.{◌≡◌, ℕ, ◌<◌, ◌≤◌, None, slice_index, count_by, [], ◌∷◌};
    ghost use Rattle.crc_small.specs.Changes.{ChangesOneByte};
    ghost use Rattle.crc_small.specs.LongDivision.{crc8_of};
    ghost use Rattle.jc_codec.specs.Message.{hears, keeps, fits, table};

    /// A listener that keeps no number.
    pub fn new() -> Self
        ensures { result ≡ None }
    {
        Listener { former: None }
    }

    /// Hears the bytes JC1, JC2 and JC3 of a message. An accepted number is kept; a damaged message changes
    /// nothing; where the base is lost, no number is kept.
    pub fn hear(&mut self, bytes: [u8; 3]) -> Heard
        ensures heard { result ≡ hears self.old (slice_index bytes 0) (slice_index bytes 1) (slice_index bytes 2) }
        ensures kept { self.new ≡ keeps self.old result }

        // A right message that was changed within one byte is damaged.
        ensures one_byte_changed { (a b : ℕ) → a < 256 → b < 256
            → ChangesOneByte (a ∷ b ∷ crc8_of (a ∷ b ∷ []) ∷ [])
            (slice_index bytes 0 ∷ slice_index bytes 1 ∷ slice_index bytes 2 ∷ [])
            → result ≡ Heard.Damaged }

        // So it does not matter in which order the table's rows are tried.
        ensures one_row { (former bits ii di : ℕ) → former ≤ GROUPS → count_by (fits former bits ii di) table ≤ 1 }
    {
        let heard = heard_after(self.former, bytes[0], bytes[1], bytes[2]);
        match heard {
            Heard::Accepted(cm, _) => self.former = Some(cm),
            Heard::Damaged => {}
            Heard::BaseLost => self.former = None,
        }
        heard
    }
}

ghost use Rattle.std.specs.Prelude.{ℕ, [], ◌∷◌};
ghost use Rattle.crc_small.specs.Changes.{ChangesOneByte};
ghost use Rattle.crc_small.specs.LongDivision.{crc8_of};
ghost use Rattle.jc_codec.specs.Message.{hears, hears_word, heard_in, table, in_range as in_range_lem};

/// What a listener that keeps this former number hears.
fn heard_after(former: Option<u16>, jc1: u8, jc2: u8, jc3: u8) -> Heard
    requires { ForSome former (λ n. n ≤ GROUPS) }
    ensures heard { result ≡ hears former jc1 jc2 jc3 }
    ensures one_byte_changed { (a b : ℕ) → a < 256 → b < 256
        → ChangesOneByte (a ∷ b ∷ crc8_of (a ∷ b ∷ []) ∷ []) (jc1 ∷ jc2 ∷ jc3 ∷ [])
        → result ≡ Heard.Damaged }
{
    if jc3 == crc8(jc1, jc2) {
        heard_word(former, jc1 as u16 * 256 + jc2 as u16)
    } else {
        Heard::Damaged
    }
}

/// What the sixteen bits of JC1 and JC2 say.
fn heard_word(former: Option<u16>, word: u16) -> Heard
    requires { ForSome former (λ n. n ≤ GROUPS) }
    ensures { result ≡ hears_word former word }
{
    let bits = word / 4;
    let increment = word / 2 % 2;
    if increment == word % 2 {
        return in_range(bits, true);
    }
    match former {
        None => Heard::BaseLost,
        Some(former) => {
            if increment == 1 {
                heard_more(former, bits)
            } else {
                heard_less(former, bits)
            }
        }
    }
}

/// What the bits say where II alone is set.
#[tactic(auto, using(crate::proofs::Turned::patterns))]
fn heard_more(former: u16, bits: u16) -> Heard
    requires { former ≤ GROUPS }
    ensures { result ≡ heard_in table former bits 1 0 }
{
    if bits == former ^ ONE_MORE {
        in_range(former + 1, false)
    } else if bits == former ^ TWO_MORE {
        in_range(former + 2, false)
    } else {
        Heard::BaseLost
    }
}

/// What the bits say where DI alone is set.
#[tactic(auto, using(crate::proofs::Turned::patterns))]
fn heard_less(former: u16, bits: u16) -> Heard
    requires { former ≤ GROUPS }
    ensures { result ≡ heard_in table former bits 0 1 }
{
    if bits == former ^ ONE_LESS {
        less_by(former, 1)
    } else if bits == former ^ TWO_LESS {
        less_by(former, 2)
    } else {
        Heard::BaseLost
    }
}

fn in_range(cm: u16, equal: bool) -> Heard
    ensures { result ≡ in_range_lem cm equal }
{
    if cm <= MOST {
        Heard::Accepted(cm, equal)
    } else {
        Heard::Damaged
    }
}

ghost use Rattle.jc_codec.specs.Message.{moved};

/// A number that is less by `k`.
fn less_by(former: u16, k: u16) -> Heard
    requires { former ≤ GROUPS }
    ensures { result ≡ moved former 0 k }
{
    if k <= former {
        Heard::Accepted(former - k, false)
    } else {
        Heard::Damaged
    }
}
