// Where a text stops to be TOML.
use otn_base::Memory;
use std::alloc::Global;
use toml::de::Error;

/// What the reader of TOML says of the text: the line and the column, from 1, and what stands there.
pub(crate) fn reason(alloc: Global, text: &str, error: &Error) -> Result<String, Memory> {
    if error.is_memory() {
        return Err(Memory);
    }
    let said = format!(in alloc; "{error}")?;
    let mut reason = String::new(alloc);
    for line in said.as_str().lines() {
        if !reason.is_empty() {
            reason.push_str(": ")?;
        }
        reason.push_str(line)?;
    }
    add_hint(&mut reason, text)?;
    Ok(reason)
}

// Adds what is often meant by such a text.
fn add_hint(reason: &mut String, text: &str) -> Result<(), Memory> {
    if text.contains("turns:") {
        reason.push_str("; write turns = 16, with =")?;
    }
    Ok(())
}

/// What is said of a text that is no UTF-8 from the byte at this index on.
pub(crate) fn no_utf8(alloc: Global, text: &[u8], index: usize) -> Result<String, Memory> {
    if is_utf16(text) {
        return Ok(String::from_str(
            alloc,
            "it is UTF-16; save it as UTF-8 (iconv -f utf-16 -t utf-8)",
        )?);
    }
    let line = line_at(text, index);
    Ok(format!(in alloc; "no UTF-8 at line {line}, byte {index} of the file")?)
}

// Whether the text begins with the mark of UTF-16.
fn is_utf16(text: &[u8]) -> bool {
    matches!(text, [0xFF, 0xFE, ..] | [0xFE, 0xFF, ..])
}

// The number of the line, from 1, that the byte at this index is in.
fn line_at(text: &[u8], index: usize) -> u64 {
    let mut line = 1u64;
    for &byte in text.iter().take(index) {
        if byte == b'\n' {
            line = line.saturating_add(1);
        }
    }
    line
}
