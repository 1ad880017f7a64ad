// Numbers that fit the plan's types.
ghost use Rattle.std.specs.Prelude.{◌≡◌, ◌≤◌, IfOk, IsTrue, length, map};
ghost use Rattle.std.specs.List.{list_all};
ghost use Rattle.otn_base.specs.LineSlots.{slots_of};
ghost use Rattle.plan_file.specs.Entry.{natural, slots_as};
ghost use Rattle.plan_file.specs.Rules.{is_within, is_sapi, is_slot_list};
ghost use Rattle.plan_file.specs.Seen.{numbers_in};
ghost use Rattle.otn_base.specs.declared.limits.TheConstants.{MOST_SLOTS};

use crate::lines::LineList;
use arrayvec::ArrayVec;
use otn_base::limits::MOST_SLOTS;
use otn_base::{LineKind, Memory, Slots, Trace};
use plan_table::Numbers;
use std::alloc::Global;

/// The number of a line, a client, a port or a slot.
pub(crate) fn small(number: i64) -> u8
    requires { IsTrue (is_within 0 255 number) }
    ensures { result ≡ natural number }
{
    number as u8
}

/// A number of bytes or turns.
pub(crate) fn word(number: i64) -> u32
    requires { IsTrue (is_within 0 4294967295 number) }
    ensures { result ≡ natural number }
{
    number as u32
}

/// The numbers of bytes.
#[tactic(auto, using(crate::proofs::Filled::filled_more, crate::proofs::Filled::filled_all))]
pub(crate) fn words(alloc: Global, numbers: &Numbers) -> Result<Vec<u32>, Memory>
    requires { IsTrue (list_all (is_within 0 4294967295) (numbers_in numbers.now)) }
    ensures { IfOk result (λ list. list.items ≡ map natural (numbers_in numbers.now)) }
{
    let mut list = Vec::new(alloc);
    for i in 0..numbers.len() {
        list.push(word(numbers.at(i)))?;
    }
    Ok(list)
}

/// The lines.
pub(crate) fn lines(alloc: Global, numbers: &Numbers) -> Result<LineList, Memory>
    requires { IsTrue (list_all (is_within 0 3) (numbers_in numbers.now)) }
    ensures { IfOk result (λ lines. lines ≡ map natural (numbers_in numbers.now)) }
{
    Ok(LineList::of(line_numbers(alloc, numbers)?))
}

#[tactic(auto, using(crate::proofs::Filled::filled_more, crate::proofs::Filled::filled_all))]
fn line_numbers(alloc: Global, numbers: &Numbers) -> Result<Vec<u8>, Memory>
    requires { IsTrue (list_all (is_within 0 3) (numbers_in numbers.now)) }
    ensures { IfOk result (λ list. list.items ≡ map natural (numbers_in numbers.now)) }
{
    let mut list = Vec::new(alloc);
    for i in 0..numbers.len() {
        list.push(small(numbers.at(i)))?;
    }
    Ok(list)
}

/// The slots, on a line of the kind.
pub(crate) fn slots(kind: LineKind, numbers: &Numbers) -> Slots
    requires { IsTrue (is_slot_list (slots_of kind) (numbers_in numbers.now)) }
    ensures { result ≡ slots_as kind (numbers_in numbers.now) }
{
    let list = bytes(numbers);
    match Slots::new(list.as_slice(), kind) {
        Some(slots) => slots,
        None => unreachable!(),
    }
}

#[tactic(auto, using(crate::proofs::Filled::filled_more, crate::proofs::Filled::filled_all))]
fn bytes(numbers: &Numbers) -> ArrayVec<u8, MOST_SLOTS>
    requires few { length (numbers_in numbers.now) ≤ MOST_SLOTS }
    requires small { IsTrue (list_all (is_within 0 255) (numbers_in numbers.now)) }
    ensures { result.items ≡ map natural (numbers_in numbers.now) }
{
    let mut list = ArrayVec::new();
    for i in 0..numbers.len() {
        list.push(small(numbers.at(i)));
    }
    list
}

/// The trace.
pub(crate) fn trace(sapi: &[u8]) -> Trace
    requires { IsTrue (is_sapi sapi.now) }
    ensures { result ≡ sapi.now }
{
    match Trace::new(sapi) {
        Some(trace) => trace,
        None => unreachable!(),
    }
}
