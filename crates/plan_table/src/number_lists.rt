// Tests of lists of numbers: whether they are in range, whether they rise, and what two of them have in common.
ghost use Rattle.std.specs.Prelude.{◌≡◌};
ghost use Rattle.std.specs.List.{list_all};
ghost use Rattle.plan_table.specs.NumberTests.{have_common, is_line_list, is_slot_list, is_within, rises};
ghost use Rattle.plan_table.specs.Seen.{numbers_in};

use crate::numbers::Numbers;
use otn_base::limits::LINES;

/// Whether the number is from the one bound to the other.
pub fn is_within(number: i64, least: u64, most: u128) -> bool
    ensures { result ≡ is_within least most number }
{
    if number < 0 {
        return false;
    }
    let number = number as u64;
    least <= number && u128::from(number) <= most
}

/// Whether each of the numbers is from the one bound to the other.
#[tactic(auto, using(crate::proofs::Steps::alls))]
pub fn all_within(numbers: &Numbers, least: u64, most: u128) -> bool
    ensures { result ≡ list_all (is_within least most) (numbers_in numbers.now) }
{
    for i in 0..numbers.len() {
        if !is_within(numbers.at(i), least, most) {
            return false;
        }
    }
    true
}

// Whether each number is greater than the one before it.
#[tactic(auto, using(crate::proofs::Steps::rises_go, crate::proofs::Steps::rises_stop, crate::proofs::Steps::rises_done))]
fn rises(numbers: &Numbers) -> bool
    ensures { result ≡ rises (numbers_in numbers.now) }
{
    for i in 1..numbers.len() {
        if numbers.at(i) <= numbers.at(i - 1) {
            return false;
        }
    }
    true
}

/// Whether the numbers are a list of lines, which may be empty.
pub fn is_line_list(lines: &Numbers) -> bool
    ensures { result ≡ is_line_list (numbers_in lines.now) }
{
    all_within(lines, 0, LINES as u128 - 1) && rises(lines)
}

/// Whether the numbers are a list of slots of a line of so many.
pub fn is_slot_list(most: u8, slots: &Numbers) -> bool
    ensures { result ≡ is_slot_list most (numbers_in slots.now) }
{
    1 <= slots.len() && all_within(slots, 1, u128::from(most)) && rises(slots)
}

/// Whether a number is in both lists.
#[tactic(auto, using(crate::proofs::Steps::anys))]
pub fn have_common(numbers: &Numbers, others: &Numbers) -> bool
    ensures { result ≡ have_common (numbers_in numbers.now) (numbers_in others.now) }
{
    for i in 0..numbers.len() {
        if others.contains(numbers.at(i)) {
            return true;
        }
    }
    false
}
