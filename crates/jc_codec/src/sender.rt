// The bytes JC1 to JC3 that carry a number.

ghost use Rattle.std.specs.Prelude.{◌≡◌, ℕ, ◌≤◌, ◌==◌, count_by, slice_index};
ghost use Rattle.std.specs.Option.{ForSome};
ghost use Rattle.jc_codec.specs.declared.listener.Heard.{Heard};
ghost use Rattle.jc_codec.specs.Message.{says, hears, word_said, word_value, is_change, table};
ghost use Rattle.otn_base.specs.declared.limits.TheConstants.{GROUPS};

use crate::patterns::{ONE_LESS, ONE_MORE, TWO_LESS, TWO_MORE};
use crc_small::crc8;

/// The bytes JC1, JC2 and JC3 that carry the number `next` after `former` (G.709 Annex D), or without a
/// former one. A listener that keeps the former number hears the next one.
pub fn say(former: Option<u16>, next: u16) -> [u8; 3]
    requires former { ForSome former (λ n. n ≤ GROUPS) }
    requires next { next ≤ GROUPS }
    ensures said { result ≡ says former next }

    // Its indicators are equal unless the change is by one or two.
    ensures heard_back { let word = word_said former next in
        hears former (slice_index result 0) (slice_index result 1) (slice_index result 2) ≡ Heard.Accepted next (word.ii == word.di) }

    // So it does not matter in which order the table's rows are tried.
    ensures one_row { (n : ℕ) → count_by (is_change n next) table ≤ 1 }
{
    let word = word_for(former, next);
    let jc1 = (word / 256) as u8;
    let jc2 = (word % 256) as u8;
    [jc1, jc2, crc8(jc1, jc2)]
}

/// The sixteen bits of JC1 and JC2.
fn word_for(former: Option<u16>, next: u16) -> u16
    requires former { ForSome former (λ n. n ≤ GROUPS) }
    requires next { next ≤ GROUPS }
    ensures { result ≡ word_value (word_said former next) }
{
    match former {
        Some(former) => word_after(former, next),
        None => 4 * next + 3,
    }
}

/// The sixteen bits of JC1 and JC2 after a former number.
#[tactic(auto, using(crate::proofs::Turned::patterns))]
fn word_after(former: u16, next: u16) -> u16
    requires former { former ≤ GROUPS }
    requires next { next ≤ GROUPS }
    ensures { result ≡ word_value (word_said (Some former) next) }
{
    if next == former {
        4 * former
    } else if next == former + 1 {
        4 * (former ^ ONE_MORE) + 2
    } else if next + 1 == former {
        4 * (former ^ ONE_LESS) + 1
    } else if next == former + 2 {
        4 * (former ^ TWO_MORE) + 2
    } else if next + 2 == former {
        4 * (former ^ TWO_LESS) + 1
    } else {
        4 * next + 3
    }
}
