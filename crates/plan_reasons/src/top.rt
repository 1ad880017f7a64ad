// The rules of the top.
use crate::text::member;
use otn_base::Memory;
use otn_base::limits::{MOST_CONNECTIONS, MOST_TURNS};
use plan_table::{connections, is_line_list, numbers_at, top_value};
use std::alloc::Global;
use toml::Table;

/// The lists of lines.
const LISTS: [&str; 4] = ["otu3-in", "otu3-out", "scrambled-in", "scrambled-out"];

pub(crate) fn too_long(alloc: Global) -> Result<String, Memory> {
    Ok(String::from_str(alloc, "it has more than 1048576 bytes")?)
}

/// The number of turns is out of range.
pub(crate) fn turns(alloc: Global, top: &Table) -> Result<String, Memory> {
    let turns = member(alloc, "turns", top_value(top, "turns"))?;
    Ok(format!(in alloc; "{turns} is not 1 to {MOST_TURNS}")?)
}

/// There are too many connections.
pub(crate) fn too_many(alloc: Global, top: &Table) -> Result<String, Memory> {
    let count = connections(top).len();
    Ok(format!(in alloc; "there are {count} connections; {MOST_CONNECTIONS} is the most")?)
}

/// One of the lists of lines is none.
pub(crate) fn lines(alloc: Global, top: &Table) -> Result<String, Memory> {
    let key = first_bad(top, &LISTS);
    let list = member(alloc, key, top_value(top, key))?;
    Ok(format!(in alloc; "{list} are not numbers of lines, 0 to 3, that rise")?)
}

// The first of these lists that is none of lines.
fn first_bad(top: &Table, keys: &[&'static str]) -> &'static str {
    for key in keys {
        if !is_line_list(&numbers_at(top, key)) {
            return key;
        }
    }
    "a list"
}
