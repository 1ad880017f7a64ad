// The data rule over the groups of a multiframe in order.
ghost use Rattle.std.specs.Prelude.{◌≡◌, ◌+◌, ◌*◌, ◌/◌, ◌%◌, ◌<◌, ◌≤◌, ◌↔◌, ℕ, IsTrue};
ghost use Rattle.gmp_rule.specs.DataRule.{IsData};
ghost use Rattle.otn_base.specs.declared.limits.TheConstants.{GROUPS};

use crate::ALL;
use std::marker::Model;

// The runs of an ODU0 at its nominal rate are 237 data groups long: its 64 stuff groups stand evenly among 15,232.
const FIRST_GUESS: u32 = 237;

/// The data rule over the groups in order, by a running remainder. It is seen as the number of data
/// groups of the multiframe and the number of groups asked so far.
#[derive(Drop)]
pub struct Runner {
    cm: u32,
    remainder: u32,
    asked: u32,
    // How long a run of data groups is, or one group less: a guess, with which the length is found without a division.
    near: u32,
}

impl Model for Runner {
    ghost use Rattle.std.specs.Prelude.{◌≡◌, ◌*◌, ◌%◌, ◌≤◌};
    ghost use Rattle.gmp_rule.specs.DataRule.{Progress};
    ghost use Rattle.otn_base.specs.declared.limits.TheConstants.{GROUPS};

    ghost Value = { Progress };

    ghost view = { λ r. record { cm = r.cm; asked = r.asked } };

    ghost invariant = { λ r. (r.cm ≤ GROUPS) × (r.asked ≤ GROUPS) × (r.remainder ≡ (r.asked * r.cm) % GROUPS) × (r.near ≤ GROUPS) };
}

impl Runner {
    /// A runner before group 1 of a multiframe with `c` data groups.
    pub fn start(c: u32) -> Self
        requires { c ≤ GROUPS }
        ensures cm { result.cm ≡ c }
        ensures asked { result.asked ≡ 0 }
    {
        Runner {
            cm: c,
            remainder: 0,
            asked: 0,
            near: FIRST_GUESS,
        }
    }

    /// A runner behind so many groups of a multiframe with `c` data groups.
    pub fn at(c: u32, asked: u32) -> Self
        requires cm { c ≤ GROUPS }
        requires asked { asked ≤ GROUPS }
        ensures cm { result.cm ≡ c }
        ensures asked { result.asked ≡ asked }
    {
        Runner {
            cm: c,
            remainder: asked * c % ALL,
            asked,
            near: FIRST_GUESS,
        }
    }

    /// Whether the next group carries data: the first call answers for group 1. A multiframe has
    /// 15,232 groups, and no more calls than that.
    pub fn next(&mut self) -> bool
        requires { self.old.asked < GROUPS }
        ensures answer { IsTrue result ↔ IsData self.old.cm (self.old.asked + 1) }
        ensures step { self.new ≡ record self.old { asked = self.old.asked + 1 } }
    {
        self.asked += 1;
        self.remainder += self.cm;
        if self.remainder >= ALL {
            self.remainder -= ALL;
            true
        } else {
            false
        }
    }

    /// How many of the next groups, of `most` at most, carry data before the first one that does not.
    /// They count as asked.
    pub fn data_run(&mut self, most: u32) -> u32
        requires { self.old.asked + most ≤ GROUPS }
        ensures most { result ≤ most }
        ensures data { (i : ℕ) → i < result → IsData self.old.cm (self.old.asked + i + 1) }
        ensures longest { result < most → IsData self.old.cm (self.old.asked + result + 1) → ⊥ }
        ensures step { self.new ≡ record self.old { asked = self.old.asked + result } }
    {
        let stuff = ALL - self.cm;
        let run = run_within(self.remainder, stuff, most, &mut self.near);
        self.asked += run;
        self.remainder -= run * stuff;
        run
    }
}

// How many groups, of `most` at most, carry data one after the other where the remainder stands so
// high and each of them lowers it by `stuff`.
fn run_within(remainder: u32, stuff: u32, most: u32, near: &mut u32) -> u32
    requires most { most ≤ GROUPS }
    requires remainder { remainder ≤ GROUPS }
    requires stuff { stuff ≤ GROUPS }
    requires near { near.old ≤ GROUPS }
    ensures most { result ≤ most }
    ensures inside { result * stuff ≤ remainder }
    ensures longest { result < most → remainder < result * stuff + stuff }
    ensures near { near.new ≤ GROUPS }
{
    if remainder < stuff {
        return 0;
    }
    if stuff == 0 {
        return most;
    }
    most.min(quotient(remainder, stuff, near))
}

// The quotient of the two, without a division where it is `near` or one more. Where it is neither, the guess becomes
// the length of the shorter runs of a multiframe with so many stuff groups. Its other runs are one group longer, but
// for one that begins in the middle.
fn quotient(dividend: u32, stuff: u32, near: &mut u32) -> u32
    requires dividend { dividend ≤ GROUPS }
    requires some { 0 < stuff }
    requires few { stuff ≤ GROUPS }
    requires near { near.old ≤ GROUPS }
    ensures quotient { result ≡ dividend / stuff }
    ensures near { near.new ≤ GROUPS }
{
    let product = *near * stuff;
    if product <= dividend && dividend - product < stuff {
        return *near;
    }
    if product + stuff <= dividend && dividend - product - stuff < stuff {
        return *near + 1;
    }
    *near = ALL / stuff - 1;
    dividend / stuff
}
