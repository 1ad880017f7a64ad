// The words after the program's name.
ghost use Rattle.std.specs.Prelude.{◌≡◌, ◌≤◌, IfOk, IfSome, length, map, string_bytes};
ghost use Rattle.command_words.specs.Words.{texts};
ghost use Rattle.program_words.specs.Given.{given_text, word_length, word_text};

use std::alloc::{AllocError, Global};
use std::env::FillError;
use std::rt::Env;
use std::str;

/// The longest word that is looked at, in bytes; no command has one as long.
const LONGEST_WORD: usize = 4096;

/// The words after the program's name, all of them. One that is no UTF-8, or has more than 4,096 bytes, is the empty
/// text, which no command has.
pub fn given_words<E: Env>(env: &E, alloc: Global) -> Result<Vec<String>, AllocError> {
    let answers = answers(env, alloc)?;
    words_of(alloc, &answers)
}

// What the system answers to the question for each word in turn, up to the first that there is not: its bytes, and none
// of one that is too long. No clause says what the system answers.
fn answers<E: Env>(env: &E, alloc: Global) -> Result<Vec<Vec<u8>>, AllocError> {
    let mut answers = Vec::new(alloc);
    let mut buffer = [0; LONGEST_WORD];
    for i in 1..usize::MAX {
        match length_of(env.arg(i, &mut buffer)) {
            Some(length) => answers.push(Vec::from_slice(alloc, &buffer[..length])?)?,
            None => break,
        }
    }
    Ok(answers)
}

// How many bytes of a word are looked at: none of one that is too long. None where there is no such word, so that the
// words end.
fn length_of(answer: Result<usize, FillError>) -> Option<usize>
    ensures { result ≡ word_length answer }
{
    match answer {
        Ok(length) => Some(length),
        Err(FillError::TooLong) => Some(0),
        Err(FillError::NotPresent) => None,
    }
}

// The words of these answers, one for each, in order.
fn words_of(alloc: Global, answers: &[Vec<u8>]) -> Result<Vec<String>, AllocError>
    ensures { IfOk result (λ words. texts words.items ≡ map given_text answers.now) }
{
    let mut words = Vec::new(alloc);
    for i in 0..answers.len() {
        words.push(word_of(alloc, answers[i].as_slice())?)?;
    }
    Ok(words)
}

// The word of these bytes.
fn word_of(alloc: Global, bytes: &[u8]) -> Result<String, AllocError>
    ensures { IfOk result (λ word. string_bytes word ≡ word_text bytes.now) }
{
    String::from_str(alloc, text_of(bytes))
}

// The text of these bytes, and the empty one where they are none.
fn text_of(bytes: &[u8]) -> &str
    ensures { result.now ≡ word_text bytes.now }
{
    match str::from_utf8(bytes) {
        Ok(text) => text,
        Err(_) => "",
    }
}
