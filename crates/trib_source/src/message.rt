// The message of a turn.
ghost use Rattle.std.specs.Prelude.{◌≡◌, ◌≢◌, ◌+◌, ◌<◌, ◌≤◌, ◌++◌, ◌∷◌, [], ℕ, slice_index};
ghost use Rattle.std.specs.List.{Contains};
ghost use Rattle.std.specs.Option.{ForSome};
ghost use Rattle.otn_base.specs.declared.limits.TheConstants.{GROUPS, LINE_COLUMNS};
ghost use Rattle.otn_base.specs.LineSlots.{slots_of};
ghost use Rattle.frame_geometry.specs.Places.{place_of};
ghost use Rattle.odtu_columns.specs.Message.{message_of};
ghost use Rattle.jc_codec.specs.Message.{says};
ghost use Rattle.cnd_codec.specs.Remainder.{says_cnd};
ghost use Rattle.tributary_model.specs.Places.{greatest};

use cnd_codec::say_d;
use jc_codec::say;
use odtu_columns::FillFrame;
use otn_base::Slots;

/// The six bytes that say a number after a former one, or without one, and the bytes over.
pub(crate) fn say_turn(former: Option<u16>, cm: u16, cnd: u16) -> [u8; 6]
    requires former { ForSome former (λ n. n ≤ GROUPS) }
    requires cm { cm ≤ GROUPS }
    requires cnd { cnd < 1024 }
    ensures { result ≡ says former cm ++ says_cnd cnd }
{
    let [jc1, jc2, jc3] = say(former, cm);
    let [jc4, jc5, jc6] = say_d(cnd);
    [jc1, jc2, jc3, jc4, jc5, jc6]
}

/// Puts the message into frame `n` where it is the frame of the greatest slot, and bytes 0 into its place
/// where it is that of another one; every other byte stays.
pub(crate) fn put_own_message<F: FillFrame>(slots: &Slots, n: u8, message: [u8; 6], frame: &mut F)
    requires { n < slots_of slots.now.kind }
    ensures greatest { n + 1 ≡ greatest slots.now.list → message_of (F.bytes frame.new) ≡ message }
    ensures other { Contains slots.now.list (n + 1) → n + 1 ≢ greatest slots.now.list
        → message_of (F.bytes frame.new) ≡ 0 ∷ 0 ∷ 0 ∷ 0 ∷ 0 ∷ 0 ∷ [] }
    ensures kept { (place : ℕ) → (Contains slots.now.list (n + 1) → (row column : ℕ) → 1 ≤ row → row ≤ 3 → 15 ≤ column
        → column ≤ 16 → place ≡ place_of LINE_COLUMNS row column → ⊥)
        → slice_index (F.bytes frame.new) place ≡ slice_index (F.bytes frame.old) place }
{
    if n + 1 == slots.last() {
        frame.fill_message(message);
        return;
    }
    if slots.has(n + 1) {
        frame.fill_message([0; 6]);
    }
}
