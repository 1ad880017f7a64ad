// The words that are answered by a page of text.
ghost use Rattle.std.specs.Prelude.{◌≡◌, ◌∷◌, [], ℕ, List, IfSome, IfNone, codes};
ghost use Rattle.command_words.specs.Words.{IsNoForm, texts};
ghost use Rattle.program_words.specs.Pages.{AsksFor};
ghost use Rattle.program_words.specs.declared.pages.Page.{Page};

/// A page that the program writes by itself.
#[derive(Clone, Copy, Debug, PartialEq, Eq)]
pub enum Page {
    /// The commands, their files and a plan: `--help`, `-h` or `help`, alone or with one word behind it.
    Help,
    /// The rules of a plan: `--rules`.
    Rules,
    /// The program's name and version: `--version`.
    Version,
}

/// The page that these words ask for. None where they ask for none. Words that ask for a page are no command.
pub fn page_of(words: &[String]) -> Option<Page>
    ensures page { IfSome result (AsksFor (texts words.now)) }
    ensures no_page { IfNone result ((page : Page) → AsksFor (texts words.now) page → ⊥) }
    ensures no_command { IfSome result (λ _. IsNoForm (texts words.now)) }
{
    match words {
        [word] => page_named(word.as_str()),
        [word, other] => page_about(word.as_str(), other.as_str()),
        _ => None,
    }
}

// The page that this one word asks for.
fn page_named(word: &str) -> Option<Page>
    ensures page { IfSome result (AsksFor (word.now ∷ [])) }
    ensures no_page { IfNone result ((page : Page) → AsksFor (word.now ∷ []) page → ⊥) }
    ensures no_command { IfSome result (λ _. IsNoForm (word.now ∷ [])) }
{
    match word {
        "--help" | "-h" | "help" => Some(Page::Help),
        "--rules" => Some(Page::Rules),
        "--version" => Some(Page::Version),
        _ => None,
    }
}

// The page that this word asks for with another behind it.
fn page_about(word: &str, other: &str) -> Option<Page>
    ensures page { IfSome result (AsksFor (word.now ∷ other.now ∷ [])) }
    ensures no_page { IfNone result ((page : Page) → AsksFor (word.now ∷ other.now ∷ []) page → ⊥) }
    ensures no_command { IfSome result (λ _. IsNoForm (word.now ∷ other.now ∷ [])) }
{
    match word {
        "--help" | "-h" | "help" => Some(Page::Help),
        _ => None,
    }
}

/// The words that are to be explained, and not done: those behind `--explain`. None where they are to be done. Words
/// that are to be explained are no command, and ask for no page.
pub fn explained(words: &[String]) -> Option<&[String]>
    ensures behind { IfSome result (λ rest. texts words.now ≡ codes "--explain" ∷ texts rest.now) }
    ensures done { IfNone result ((rest : List (List ℕ)) → texts words.now ≡ codes "--explain" ∷ rest → ⊥) }
{
    match words {
        [first, rest @ ..] => behind(first.as_str(), rest),
        _ => None,
    }
}

fn behind<'a>(first: &str, rest: &'a [String]) -> Option<&'a [String]>
    ensures rest { IfSome result (λ it. (first.now ≡ codes "--explain") × (it.now ≡ rest.now)) }
    ensures none { IfNone result (first.now ≡ codes "--explain" → ⊥) }
{
    match first {
        "--explain" => Some(rest),
        _ => None,
    }
}
