// What a message says to a sink, in the first turn of a stretch and in a later one.
ghost use Rattle.std.specs.Prelude.{◌≡◌, ℕ};
ghost use Rattle.tributary_model.specs.Machine.{begun, gone_on};
ghost use Rattle.trib_sink.specs.Following.{IsSmallSaid};
ghost use Rattle.trib_sink.specs.Steps.Following.{IsSmallHearing, FitsFirst, FitsNext};

use tributary_model::{Hearing, Said};

/// What the first turn of a stretch says, where this message begins one.
pub(crate) fn begun(heard: Option<Hearing>) -> Option<Said>
    ensures said { result ≡ begun heard }
    ensures small { (slots : ℕ) → IsSmallHearing slots heard → FitsFirst slots result }
{
    match heard {
        Some(Hearing::Pair(cm, cnd, true)) => Some(Said {
            cm,
            cnd,
            damaged: 0,
            due: None,
        }),
        _ => None,
    }
}

/// What the next turn says, where it goes on with the stretch: the pair of its message, or the former one
/// again where it is damaged. The third damaged message in a row ends the stretch; so does a lost one, or
/// a turn in which nothing is heard.
pub(crate) fn gone_on(said: Said, heard: Option<Hearing>) -> Option<Said>
    ensures said { result ≡ gone_on heard said }
    ensures small { (slots : ℕ) → IsSmallHearing slots heard → IsSmallSaid slots said
        → FitsNext slots result said.cnd }
{
    match heard {
        None => None,
        Some(Hearing::Lost) => None,
        Some(Hearing::Damaged) => {
            if said.damaged >= 2 {
                None
            } else {
                Some(Said {
                    cm: said.cm,
                    cnd: said.cnd,
                    damaged: said.damaged + 1,
                    due: Some(said.cnd),
                })
            }
        }
        Some(Hearing::Pair(cm, cnd, _)) => Some(Said {
            cm,
            cnd,
            damaged: 0,
            due: Some(said.cnd),
        }),
    }
}
