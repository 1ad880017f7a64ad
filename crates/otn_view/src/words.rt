// The words after the program's name.
ghost use Rattle.std.specs.Prelude.{◌≡◌, ◌<◌, ◌+◌, ◌++◌, ◌∷◌, [], ℕ, List, Bool, false, IfNone, IfOk, IfSome, if◌then◌else◌};
ghost use Rattle.otn_base.specs.declared.limits.TheConstants.{LINES};
ghost use Rattle.otn_base.specs.declared.line_kind.LineKind.{LineKind};
ghost use Rattle.line_view.specs.declared.shown.Shown.{Shown};
ghost use Rattle.otn_view.specs.Words.{AreOnLine, IsAsked, IsForm, IsGiven, IsNoForm, IsPlanned, AreShown, texts, kind_by, side_word};
ghost use Rattle.plan_views.specs.declared.side.Side.{Side};

use crate::tributary::tributary_of;
use line_view::Shown;
use otn_base::{LineKind, Memory};
use plan_views::Side;
use std::alloc::Global;

/// What the words ask for.
#[derive(Drop)]
pub(crate) enum Asked {
    /// A line of this kind, scrambled or not, and these tributaries on it.
    Given(LineKind, bool, Vec<Shown>),
    /// The line of this side and number of the plan.
    Planned(Side, u8),
}

/// What these words ask for: `FILE [otu3] [scrambled] PORT:K,K ..`, `FILE in N` or `FILE out N`. None where they have
/// another form.
pub(crate) fn asked_of(alloc: Global, words: &[String]) -> Result<Option<Asked>, Memory>
    ensures form { IfOk result (λ asked. IfSome asked (IsForm (texts words.now))) }
    ensures no_form { IfOk result (λ asked. IfNone asked (IsNoForm (texts words.now))) }
    ensures on_line { IfOk result (λ asked. IfSome asked AreOnLine) }
{
    let [_file, rest @ ..] = words else {
        return Ok(None);
    };
    match planned_of(rest) {
        Some((side, number)) => Ok(Some(Asked::Planned(side, number))),
        None => given_of(alloc, rest),
    }
}

// The side and the number of a line of the plan.
fn planned_of(words: &[String]) -> Option<(Side, u8)>
    ensures line { IfSome result (λ line. IsPlanned (texts words.now) line.0 line.1) }
    ensures none { IfNone result ((side : Side) (line : ℕ) → IsPlanned (texts words.now) side line → ⊥) }
{
    match words {
        [side, number] => planned_line(side.as_str(), number.as_str()),
        _ => None,
    }
}

fn planned_line(side: &str, number: &str) -> Option<(Side, u8)>
    ensures line { IfSome result (λ line. IsPlanned (side.now ∷ number.now ∷ []) line.0 line.1) }
    ensures none { IfNone result ((s : Side) (line : ℕ) → IsPlanned (side.now ∷ number.now ∷ []) s line → ⊥) }
{
    let side = side_of(side)?;
    Some((side, number_of(number.as_bytes())?))
}

// The side of this word.
fn side_of(word: &str) -> Option<Side>
    ensures side { IfSome result (λ side. word.now ≡ side_word side) }
    ensures none { IfNone result ((side : Side) → word.now ≡ side_word side → ⊥) }
{
    match word {
        "in" => Some(Side::In),
        "out" => Some(Side::Out),
        _ => None,
    }
}

// The number of a line of which this is the digit.
fn number_of(text: &[u8]) -> Option<u8>
    ensures number { IfSome result (λ n. (text.now ≡ (48 + n) ∷ []) × (n < LINES)) }
    ensures none { IfNone result ((n : ℕ) → text.now ≡ (48 + n) ∷ [] → n < LINES → ⊥) }
{
    match text {
        [digit @ b'0'..=b'3'] => Some(*digit - b'0'),
        _ => None,
    }
}

// The form of the line, and the tributaries to show.
fn given_of(alloc: Global, words: &[String]) -> Result<Option<Asked>, Memory>
    ensures form { IfOk result (λ asked. IfSome asked (IsAsked (texts words.now))) }
    ensures none { IfOk result (λ asked. IfNone asked ((kind : LineKind) (scrambled : Bool) (shown : List Shown)
        → IsGiven (texts words.now) kind scrambled shown → ⊥)) }
    ensures on_line { IfOk result (λ asked. IfSome asked AreOnLine) }
{
    let (otu3, rest) = behind("otu3", words);
    let (scrambled, rest) = behind("scrambled", rest);
    let kind = kind_by(otu3);
    match shown_of(alloc, kind, rest)? {
        None => Ok(None),
        Some(shown) => Ok(Some(Asked::Given(kind, scrambled, shown))),
    }
}

// Whether this is the first of the words, and the words behind it.
fn behind<'a>(word: &str, words: &'a [String]) -> (bool, &'a [String])
    ensures words { texts words.now ≡ (if result.0 then word.now ∷ [] else []) ++ texts result.1.now }
    ensures other { result.0 ≡ false → (rest : List (List ℕ)) → texts words.now ≡ word.now ∷ rest → ⊥ }
{
    let [first, rest @ ..] = words else {
        return (false, words);
    };
    if first.as_str() == word {
        return (true, rest);
    }
    (false, words)
}

fn kind_by(otu3: bool) -> LineKind
    ensures { result ≡ kind_by otu3 }
{
    if otu3 { LineKind::Otu3 } else { LineKind::Otu2 }
}

// The tributaries of these words. None where one of them says none.
fn shown_of(alloc: Global, kind: LineKind, words: &[String]) -> Result<Option<Vec<Shown>>, Memory>
    ensures shown { IfOk result (λ shown. IfSome shown (λ all. AreShown kind (texts words.now) all.items)) }
    ensures none { IfOk result (λ shown. IfNone shown ((all : List Shown) → AreShown kind (texts words.now) all → ⊥)) }
{
    let mut shown = Vec::new(alloc);
    for i in 0..words.len() {
        match tributary_of(words[i].as_str(), kind) {
            None => return Ok(None),
            Some(one) => shown.push(one)?,
        }
    }
    Ok(Some(shown))
}
