// A port that gives bytes, and may fail at any call.
ghost use Rattle.std.specs.Prelude.{◌≡◌, ◌<◌, ◌≤◌, ℕ, Bool, false, List, [], Option, length, take, IfOk, OnOk, OnErr, Ok};
ghost use Rattle.port_base.specs.Fronts.{IsFront, AreFirst};
ghost use Rattle.port_base.specs.Bytes.{before, read_by, HasFailed};
ghost use Rattle.port_base.specs.Reads.{HasEnded, ended_after};

use otn_base::SharedBytes;
use std::alloc::Global;

/// A call of a port failed.
#[derive(Clone, Copy, Debug, PartialEq, Eq)]
pub struct Failed;

/// A port that gives bytes, such as a file.
pub trait Source: Drop {
    /// The bytes still to come, where the source tells them.
    ghost left: { Self → Option (List ℕ) };

    /// How often it has failed: a count that never falls.
    ghost faults: { Self → ℕ };

    /// Whether it has answered, in any call so far, that it ended: that no byte came into a slice with room.
    ghost ended: { Self → Bool };

    /// Whether it is a port behind a box.
    ghost boxed: { Self → Bool } = { λ _. false };

    /// The bytes at hand: what the source has read ahead of what it gave, and gives next. Most sources have none.
    ghost at_hand: { Self → List ℕ } = { λ _. [] };

    /// Puts the next bytes at the front of the slice, and answers how many. None came for a slice
    /// with room only where the source has ended. What is behind them in the slice is open.
    /// Failed comes only where the count of faults rose in this call or stands at its end, and
    /// then no byte is gone. A call that answers otherwise leaves the count as it was.
    fn read(&mut self, into: &mut [u8]) -> Result<usize, Failed>
        ensures bound { IfOk result (λ n. n ≤ length into.old) }
        ensures bytes { left self.old ≡ before (read_by result into.new) (left self.new) }
        ensures end { result ≡ Ok 0 → 0 < length into.old → HasEnded (left self.new) (ended self.new) }
        ensures answered { ended self.new ≡ ended_after (length into.old) result (ended self.old) }
        ensures later { faults self.old ≤ faults self.new }
        ensures cause { OnErr result (HasFailed (faults self.old) (faults self.new)) }
        ensures well { OnOk result (faults self.new ≡ faults self.old) }
        ensures same { boxed self.new ≡ boxed self.old };

    /// Looks ahead: where it has no bytes at hand, it may get some by one call of what it reads, into room that it then
    /// keeps. Nothing is given by this call, and none of its failures is an answer: a read meets it.
    fn look_ahead(&mut self, alloc: Global)
        ensures left { left self.new ≡ left self.old }
        ensures faults { faults self.new ≡ faults self.old }
        ensures ended { ended self.new ≡ ended self.old }
        ensures same { boxed self.new ≡ boxed self.old }
    {}

    /// Lends bytes at hand, from the front: all, some of them or none.
    fn peek(&self) -> &[u8]
        ensures front { IsFront result.now (at_hand self.now) }
    {
        &[]
    }

    /// Shares the first bytes at hand, so many of them, with whoever holds on to them. None where there are fewer, or
    /// where the source shares none.
    fn share(&self, n: usize) -> Option<SharedBytes>
        ensures first { AreFirst result n (at_hand self.now) }
    {
        None
    }

    /// Goes past so many of the bytes at hand, as a read does that gives them.
    fn pass(&mut self, n: usize)
        requires hand { n ≤ length (at_hand self.old) }
        ensures bytes { left self.old ≡ before (take n (at_hand self.old)) (left self.new) }
        ensures faults { faults self.new ≡ faults self.old }
        ensures ended { ended self.new ≡ ended self.old }
        ensures same { boxed self.new ≡ boxed self.old };
}
