// The words of a call.
ghost use Rattle.std.specs.Prelude.{◌≡◌, IfOk, MatchOption, OnSome, map};
ghost use Rattle.std.specs.Str.{IsUtf8};
ghost use Rattle.line_tool.specs.Words.{texts};
ghost use Rattle.otn_c.specs.Blocks.{words_said};

use otn_base::Memory;
use std::alloc::{AllocError, Global};
use std::str;

/// The words of a line, with a blank between each two. None where it is no text.
pub(crate) fn words_of(alloc: Global, line: &[u8]) -> Result<Option<Vec<String>>, Memory>
    ensures words { IfOk result (λ said. MatchOption said (IsUtf8 line.now → ⊥)
        (λ words. texts words.items ≡ words_said line.now)) }
    ensures text { IfOk result (λ said. OnSome said (IsUtf8 line.now)) }
{
    match str::from_utf8(line) {
        Ok(text) => Ok(Some(split_words(alloc, text)?)),
        Err(_) => Ok(None),
    }
}

// What stands between the blanks.
fn split_words(alloc: Global, text: &str) -> Result<Vec<String>, Memory>
    ensures { IfOk result (λ words. texts words.items ≡ words_said text.now) }
{
    let parts = pieces(alloc, text)?;
    let mut words = Vec::new(alloc);
    for i in 0..parts.len() {
        words.push(String::from_str(alloc, parts[i])?)?;
    }
    Ok(words)
}

fn pieces(alloc: Global, text: &str) -> Result<Vec<&str>, AllocError>
    ensures { IfOk result (λ parts. map (λ x. x.now) parts.items ≡ words_said text.now) }
{
    text.split(' ').collect(alloc)
}
