// Paces.
use crate::slots::slots_at;
use otn_base::limits::{GROUPS, MOST_PACES, NOMINAL};
use otn_base::{Kind, Memory};
use plan_table::{Numbers, Side, is_within, kind_at, pace_at};
use std::alloc::Global;
use toml::Value;

/// The pace is too short or too long, or has a number out of range.
pub(crate) fn bad(alloc: Global, connection: &Value) -> Result<String, Memory> {
    match pace_at(connection) {
        Some(pace) => bad_list(alloc, connection, &pace),
        None => Ok(String::new(alloc)),
    }
}

fn bad_list(alloc: Global, connection: &Value, pace: &Numbers) -> Result<String, Memory> {
    let (least, most) = bounds(kind_at(connection), slot_count(connection));
    match first_outside(least, most, pace) {
        Some(number) if pace.len() <= MOST_PACES => {
            Ok(format!(in alloc; "pace has {number}, which is not {least} to {most}")?)
        }
        _ => {
            let count = pace.len();
            Ok(format!(in alloc; "pace has {count} numbers, and not 1 to {MOST_PACES}")?)
        }
    }
}

// How many slots the connection has at its line, or at both.
fn slot_count(connection: &Value) -> u64 {
    let from = slots_at(connection, Side::From).len();
    let to = slots_at(connection, Side::To).len();
    from.max(to) as u64
}

// The least and the greatest number of bytes in a turn, of a connection of this kind on so many slots.
fn bounds(kind: Kind, slots: u64) -> (u64, u64) {
    match kind {
        Kind::Odu0 => (NOMINAL as u64 - 1, NOMINAL as u64 + 1),
        Kind::Flex => (slots, slots.saturating_mul(GROUPS as u64)),
    }
}

fn first_outside(least: u64, most: u64, pace: &Numbers) -> Option<i64> {
    for i in 0..pace.len() {
        let number = pace.at(i);
        if !is_within(number, least, u128::from(most)) {
            return Some(number);
        }
    }
    None
}
