// What a turn says to a sink.
ghost use Rattle.std.specs.Prelude.{◌≡◌, ℕ, ◌≤◌, List, [], ◌++◌, Bool, true, false, Option, Some, None, if◌then◌else◌, length};
ghost use Rattle.std.specs.List.{list_any};
ghost use Rattle.otn_base.specs.declared.limits.TheConstants.{MOST_SLOTS};
ghost use Rattle.msi_table.specs.Marks.{is_marked};
ghost use Rattle.tributary_model.specs.Messages.{hears_message};
ghost use Rattle.tributary_model.specs.Stretches.{bytes_of};
ghost use Rattle.tributary_model.specs.Machine.{former_of};
ghost use Rattle.trib_sink.specs.Following.{Keeps};
ghost use Rattle.trib_sink.specs.Steps.Following.{IsSmallHearing, listener_after};
ghost use Rattle.trib_sink.specs.Watching.{Watched, AreOfSlots};

use crate::follower::Follower;
use crate::watching::{any_marked, take_all};
use msi_table::MsiWatch;
use otn_base::Slots;
use tributary_model::Hearing;

/// Watches the MSI bytes that came in a turn, and hears its message where no slot is marked. Where the
/// turn has no multiframe (`whole` is false) none of them counts, and nothing is heard.
#[tactic(auto, using(crate::proofs::LineRows::slots_inside, crate::proofs::Fits::heard_is_small, crate::proofs::Fits::nothing_is_small))]
pub(crate) fn hear_turn(
    whole: bool,
    slots: &Slots,
    message: [u8; 6],
    msi: &[(u8, u8)],
    watches: &mut [MsiWatch],
    follower: &mut Follower,
) -> Option<Hearing>
    requires watches { length watches.old ≡ MOST_SLOTS }
    requires msi { AreOfSlots msi.now }
    requires keeps { Keeps follower.old.standing follower.old.listener }
    ensures missed { whole ≡ false → (result ≡ None) × (watches.new ≡ watches.old) }
    ensures watched { whole ≡ true → (port : ℕ) (read : ℕ → List ℕ) → Watched port read watches.old
        → Watched port (λ k. read k ++ bytes_of k msi.now) watches.new }
    ensures heard { whole ≡ true → (port : ℕ) (read : ℕ → List ℕ) → Watched port read watches.old
        → result ≡ (if list_any (λ k. is_marked port (read k ++ bytes_of k msi.now)) slots.now.list then None
        else Some (hears_message (former_of follower.old.standing) follower.old.extraction.slots message)) }
    ensures small { IsSmallHearing follower.old.extraction.slots result }
    ensures follower { follower.new ≡ record follower.old { listener = listener_after follower.old result } }
{
    if !whole {
        return None;
    }
    take_all(watches, msi);
    if any_marked(watches, slots.as_slice()) {
        return None;
    }
    Some(follower.hear(message))
}
