// How values and lists are shown.
use otn_base::Memory;
use plan_table::Numbers;
use std::alloc::Global;
use toml::Value;

/// The most characters that are shown of a text or a value.
const MOST_SHOWN: usize = 60;

/// The text, cut where it is long.
pub(crate) fn short(alloc: Global, text: &str) -> Result<String, Memory> {
    let mut shown = String::new(alloc);
    let mut room = MOST_SHOWN;
    for letter in text.chars() {
        if room == 0 {
            shown.push_str("..")?;
            return Ok(shown);
        }
        room -= 1;
        shown.push(letter)?;
    }
    Ok(shown)
}

/// The value as TOML has it, cut where it is long.
pub(crate) fn shown(alloc: Global, value: &Value) -> Result<String, Memory> {
    let whole = format!(in alloc; "{value}")?;
    short(alloc, whole.as_str())
}

/// What a table has at the key, as `key = value`; the key alone where it has nothing there.
pub(crate) fn member(alloc: Global, key: &str, value: Option<&Value>) -> Result<String, Memory> {
    match value {
        Some(value) => {
            let shown = shown(alloc, value)?;
            Ok(format!(in alloc; "{key} = {shown}")?)
        }
        None => Ok(String::from_str(alloc, key)?),
    }
}

/// The words with commas between them.
pub(crate) fn listed(
    alloc: Global,
    words: &[&'static str],
    more: &[&'static str],
) -> Result<String, Memory> {
    let mut list = String::new(alloc);
    add_words(&mut list, words)?;
    add_words(&mut list, more)?;
    Ok(list)
}

fn add_words(list: &mut String, words: &[&'static str]) -> Result<(), Memory> {
    for word in words {
        add(list, word)?;
    }
    Ok(())
}

// Adds a word to a list.
fn add(list: &mut String, word: &str) -> Result<(), Memory> {
    if !list.is_empty() {
        list.push_str(", ")?;
    }
    list.push_str(word)?;
    Ok(())
}

/// The slots, 1 to 32, that are in both of these lists, each once and rising, with commas between them.
pub(crate) fn common_slots(
    alloc: Global,
    slots: &Numbers,
    others: &Numbers,
) -> Result<String, Memory> {
    let mut list = String::new(alloc);
    for slot in 1..33i64 {
        if slots.contains(slot) && others.contains(slot) {
            let word = format!(in alloc; "{slot}")?;
            add(&mut list, word.as_str())?;
        }
    }
    Ok(list)
}
