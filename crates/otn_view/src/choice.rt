// What is asked for: the page, a view, or its events.
ghost use Rattle.std.specs.Prelude.{◌≡◌, true, false, codes};
ghost use Rattle.otn_view.specs.Choice.{AsksForPage, SplitsOff};
ghost use Rattle.otn_view.specs.Words.{texts};

/// Whether the words ask for the page: none, or `--help` alone.
pub(crate) fn asks_for_page(words: &[String]) -> bool
    ensures page { result ≡ true → AsksForPage (texts words.now) }
    ensures other { result ≡ false → AsksForPage (texts words.now) → ⊥ }
{
    match words {
        [] => true,
        [word] => is_help(word.as_str()),
        _ => false,
    }
}

// Whether the word asks for the page.
fn is_help(word: &str) -> bool
    ensures page { result ≡ true → word.now ≡ codes "--help" }
    ensures other { result ≡ false → word.now ≡ codes "--help" → ⊥ }
{
    word == "--help"
}

/// The words without the last one, where that is `events`, and whether it is.
pub(crate) fn split_events(words: &[String]) -> (&[String], bool)
    ensures { SplitsOff (texts words.now) (texts result.0.now) result.1 }
{
    match words {
        [front @ .., last] if last.as_str() == "events" => (front, true),
        _ => (words, false),
    }
}
