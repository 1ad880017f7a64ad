// Paces: how many bytes a client is to give in each turn.
ghost use Rattle.std.specs.Prelude.{◌≡◌, ℕ};
ghost use Rattle.plan_table.specs.NumberTests.{is_pace, least_pace, most_pace};
ghost use Rattle.plan_table.specs.Seen.{numbers_in};
ghost use Rattle.plan_table.specs.Values.{nominal};

use crate::number_lists::all_within;
use crate::numbers::Numbers;
use otn_base::Kind;
use otn_base::limits::{GROUPS, MOST_PACES, NOMINAL};

/// Whether the numbers are a pace of a connection of this kind, on so many slots.
pub fn is_pace(kind: Kind, count: usize, pace: &Numbers) -> bool
    ensures { result ≡ is_pace kind count (numbers_in pace.now) }
{
    1 <= pace.len()
        && pace.len() <= MOST_PACES
        && all_within(pace, least_pace(kind, count), most_pace(kind, count))
}

/// Whether the nominal pace is one: it is in range on each number of slots that the kind may have.
pub fn is_nominal_pace(kind: Kind, count: usize) -> bool
    ensures { result ≡ is_pace kind count (nominal count) }
{
    match kind {
        Kind::Odu0 => count == 1,
        Kind::Flex => true,
    }
}

// The least number of bytes in a turn.
fn least_pace(kind: Kind, count: usize) -> u64
    ensures { result ≡ least_pace kind count }
{
    match kind {
        Kind::Odu0 => NOMINAL as u64 - 1,
        Kind::Flex => count as u64,
    }
}

// The greatest number of bytes in a turn: each group of each slot.
fn most_pace(kind: Kind, count: usize) -> u128
    ensures { result ≡ most_pace kind count }
{
    match kind {
        Kind::Odu0 => NOMINAL as u128 + 1,
        Kind::Flex => count as u128 * GROUPS as u128,
    }
}
