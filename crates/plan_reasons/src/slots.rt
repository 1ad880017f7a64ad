// Lists of slots.
use crate::ends::kind_at;
use crate::text::{common_slots, member};
use otn_base::{Kind, Memory};
use plan_table::{
    Form, Numbers, Side, end_at, is_within, kind_at as connection_kind, list_or_empty,
};
use std::alloc::Global;
use toml::{Table, Value};

/// A slot list of the connection is none of its line, or does not suit its kind, or the two differ in length.
pub(crate) fn bad(alloc: Global, top: &Table, connection: &Value) -> Result<String, Memory> {
    let from = bad_end(alloc, top, connection, Side::From, "from")?;
    if !from.is_empty() {
        return Ok(from);
    }
    let to = bad_end(alloc, top, connection, Side::To, "to")?;
    if !to.is_empty() {
        return Ok(to);
    }
    let from = slots_at(connection, Side::From).len();
    let to = slots_at(connection, Side::To).len();
    Ok(format!(in alloc; "from and to have {from} and {to} slots; both have as many")?)
}

/// The slots of the end at this side. None where it is no line.
pub(crate) fn slots_at<'a>(connection: &'a Value, side: Side) -> Numbers<'a> {
    match end_at(connection, side) {
        Some(end) => Numbers::Values(list_or_empty(end.value.get("slots"))),
        None => Numbers::Values(&[]),
    }
}

// What is wrong with the slots of the end at this side. The empty text where nothing is.
fn bad_end(
    alloc: Global,
    top: &Table,
    connection: &Value,
    side: Side,
    name: &str,
) -> Result<String, Memory> {
    let Some(end) = end_at(connection, side) else {
        return Ok(String::new(alloc));
    };
    match end.form {
        Form::Line => {
            let most = kind_at(top, side, &end).slots();
            let slots = slots_at(connection, side);
            let shown = member(alloc, "slots", end.value.get("slots"))?;
            match fault_of(connection_kind(connection), most, &slots) {
                Some(fault) => fault_text(alloc, name, shown.as_str(), most, &slots, fault),
                None => Ok(String::new(alloc)),
            }
        }
        _ => Ok(String::new(alloc)),
    }
}

/// What is wrong with a list of slots.
#[derive(Clone, Copy)]
enum Fault {
    Empty,
    /// This number is none of a slot.
    Outside(i64),
    Falls,
    /// An ODU0 has one.
    Several,
}

fn fault_of(kind: Kind, most: u8, slots: &Numbers) -> Option<Fault> {
    if slots.len() == 0 {
        return Some(Fault::Empty);
    }
    if let Some(slot) = first_outside(most, slots) {
        return Some(Fault::Outside(slot));
    }
    if falls(slots) {
        return Some(Fault::Falls);
    }
    match kind {
        Kind::Odu0 if slots.len() > 1 => Some(Fault::Several),
        _ => None,
    }
}

// The first number that is not 1 to so many.
fn first_outside(most: u8, slots: &Numbers) -> Option<i64> {
    for i in 0..slots.len() {
        let slot = slots.at(i);
        if !is_within(slot, 1, u128::from(most)) {
            return Some(slot);
        }
    }
    None
}

// Whether a number is no greater than the one before it.
fn falls(slots: &Numbers) -> bool {
    for i in 1..slots.len() {
        if slots.at(i) <= slots.at(i - 1) {
            return true;
        }
    }
    false
}

fn fault_text(
    alloc: Global,
    name: &str,
    shown: &str,
    most: u8,
    slots: &Numbers,
    fault: Fault,
) -> Result<String, Memory> {
    match fault {
        Fault::Empty => Ok(format!(in alloc; "{name}: {shown} has no slot; write slots = [1]")?),
        Fault::Outside(slot) => outside_text(alloc, name, shown, most, slot),
        Fault::Falls => {
            let better = common_slots(alloc, slots, slots)?;
            Ok(format!(in alloc; "{name}: {shown} do not rise; write [{better}]")?)
        }
        Fault::Several => Ok(format!(in alloc;
            "{name}: {shown} are several, and an odu0 has one; kind = \"flex\" has one or more"
        )?),
    }
}

fn outside_text(
    alloc: Global,
    name: &str,
    shown: &str,
    most: u8,
    slot: i64,
) -> Result<String, Memory> {
    let hint = match (most, slot) {
        (8, 9..=32) => "; an OTU3 has 32: version = 2 and its line in otu3-in or otu3-out",
        (_, 0) => "; they count from 1",
        _ => "",
    };
    Ok(format!(in alloc; "{name}: {shown} has {slot}, and slots are 1 to {most}{hint}")?)
}
