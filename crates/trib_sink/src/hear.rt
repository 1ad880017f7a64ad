// Hears the six bytes of a message.
ghost use Rattle.std.specs.Prelude.{◌≡◌};
ghost use Rattle.tributary_model.specs.Messages.{hears_message};
ghost use Rattle.trib_sink.specs.Steps.Following.{kept_after};

use cnd_codec::hear_d;
use jc_codec::{Heard, Listener};
use tributary_model::Hearing;

/// Hears JC1 to JC6 of a tributary of so many slots, after the number that the listener keeps. A message
/// whose remainder is damaged is damaged, and the number is not looked at.
#[tactic(auto, unfolding(tributary_model::specs::Messages::hears_message))]
pub(crate) fn hear_message(listener: &mut Listener, message: [u8; 6], slots: u32) -> Hearing
    ensures heard { result ≡ hears_message listener.old slots message }
    ensures kept { listener.new ≡ kept_after listener.old result }
{
    let [jc1, jc2, jc3, jc4, jc5, jc6] = message;
    match hear_d([jc4, jc5, jc6], slots) {
        None => Hearing::Damaged,
        Some(cnd) => match listener.hear([jc1, jc2, jc3]) {
            Heard::Accepted(cm, equal) => Hearing::Pair(cm, cnd, equal),
            Heard::Damaged => Hearing::Damaged,
            Heard::BaseLost => Hearing::Lost,
        },
    }
}
