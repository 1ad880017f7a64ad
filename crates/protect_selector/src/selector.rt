// The choice between the two lines of a protected tributary, turn by turn.
ghost use Rattle.std.specs.Prelude.{◌≡◌, ◌+◌, ◌-◌, ◌/◌, ◌%◌, ◌<◌, ◌≤◌, ℕ, min, nat_le, List, [], ◌∷◌, Option, None, if◌then◌else◌};
ghost use Rattle.otn_base.specs.declared.limits.TheConstants.{MOST_SLOTS};
ghost use Rattle.protect_selector.specs.Selected.{BothTurn, of_side as of_side_in, other, is_up, choice_in, side_by};
ghost use Rattle.protect_selector.specs.Selector.{HasChosen, emitted_modulo, number_by};
ghost use Rattle.protect_selector.specs.Steps.Selector.{state_by, cause_by, to_skip_by};

use crate::side::{Choice, Side, SwitchCause};
use std::marker::Model;
use tributary_model::SinkState;

/// Chooses in each turn which of two lines goes on, by how the sinks of both stand after it. Counts of bytes are kept
/// modulo the number of slots. Contracts say which turns went by.
#[derive(Clone, Copy, Drop)]
pub struct Selector {
    slots: u32,
    wait: u32,
    side: Side,
    up: u32,
    skip: u32,
    due: u32,
    working: u32,
    protection: u32,
}

impl Model for Selector {
    ghost use Rattle.protect_selector.specs.Selector.{SelectorView, IsSelector};

    ghost Value = { SelectorView };

    ghost view = { λ s. record { m = s.slots; n = s.wait; side = s.side; up = s.up; skip = s.skip; due = s.due; working = s.working; protection = s.protection } };

    ghost invariant = { λ s. IsSelector (record { m = s.slots; n = s.wait; side = s.side; up = s.up; skip = s.skip; due = s.due; working = s.working; protection = s.protection }) };

    ghost inverse = { λ s. record { slots = s.m; wait = s.n; side = s.side; up = s.up; skip = s.skip; due = s.due; working = s.working; protection = s.protection } };
}

impl Selector {
    /// A selector for a tributary of `m` slots, 1 to 32, before the first turn: working is the side. It goes back to
    /// working once that was Up for `n` turns in a row; never, where `n` is 0.
    pub fn new(m: u32, n: u32) -> Selector
        requires some { 1 ≤ m }
        requires few { m ≤ MOST_SLOTS }
        ensures { HasChosen m n [] result }
    {
        Selector {
            slots: m,
            wait: n,
            side: Side::Working,
            up: 0,
            skip: 0,
            due: 0,
            working: 0,
            protection: 0,
        }
    }

    /// The choice in the next turn, after which the sinks of the lines stand so, and in which they emit so many bytes.
    pub fn pick(
        &mut self,
        working: SinkState,
        working_len: usize,
        protection: SinkState,
        protection_len: usize,
    ) -> Choice
        ensures choice { let now : BothTurn =
            record {
              working = record { state = working; bytes = working_len };
              protection = record { state = protection; bytes = protection_len };
            } in
            (m n : ℕ) (past : List BothTurn) → HasChosen m n past self.old → (result ≡ choice_in m n now past) × HasChosen m n (now ∷ past) self.new }

        // at most all of the side's bytes are skipped, and no more groups are completed than by these bytes
        ensures within { let now : BothTurn =
            record {
              working = record { state = working; bytes = working_len };
              protection = record { state = protection; bytes = protection_len };
            } in
            result.skip ≤ (of_side_in result.side now).bytes }
        ensures groups { let now : BothTurn =
            record {
              working = record { state = working; bytes = working_len };
              protection = record { state = protection; bytes = protection_len };
            } in
            (self.old.due + ((of_side_in result.side now).bytes - result.skip)) / self.old.m ≤ (emitted_modulo result.side self.old + (of_side_in result.side now).bytes) / self.old.m }
        ensures slots { self.new.m ≡ self.old.m }
    {
        let m = self.slots;
        self.up = turns_up(working, self.up, self.wait);
        let cause = cause_of(self.side, working, protection, self.up, self.wait);
        let side = side_by(self.side, cause);
        let emitted = of_side(side, self.working, self.protection);
        let to_skip = to_skip_in(m, emitted, cause, self.skip, self.due);
        let bytes = bytes_of(side, working_len, protection_len);
        let skip = (to_skip as usize).min(bytes);
        self.side = side;
        self.skip = to_skip - skip as u32;
        self.due = added(self.due, bytes - skip, m);
        self.working = added(self.working, working_len, m);
        self.protection = added(self.protection, protection_len, m);
        Choice { side, skip, cause }
    }
}

// For how many turns in a row working was Up, as far as they are counted, where its sink stands so after one more.
fn turns_up(state: SinkState, up: u32, wait: u32) -> u32
    requires high { up ≤ wait }
    ensures { result ≡ (if is_up state then min wait (up + 1) else 0) }
{
    if state != SinkState::Up {
        return 0;
    }
    if up < wait { up + 1 } else { wait }
}

// The cause of a switch, where working was Up for so many turns, this one among them.
fn cause_of(
    side: Side,
    working: SinkState,
    protection: SinkState,
    up: u32,
    wait: u32,
) -> Option<SwitchCause>
    ensures { result ≡ cause_by wait up side (state_by side working protection)
        (state_by (other side) working protection) }
{
    let (own, beside) = match side {
        Side::Working => (working, protection),
        Side::Protection => (protection, working),
    };
    if own != SinkState::Up && beside == SinkState::Up {
        return Some(SwitchCause::Defect);
    }
    if side == Side::Protection && wait > 0 && up >= wait {
        return Some(SwitchCause::Restored);
    }
    None
}

// The side after a turn with this cause of a switch.
fn side_by(side: Side, cause: Option<SwitchCause>) -> Side
    ensures { result ≡ side_by side cause }
{
    if cause.is_none() {
        return side;
    }
    match side {
        Side::Working => Side::Protection,
        Side::Protection => Side::Working,
    }
}

// What a side has, of what both have.
fn of_side(side: Side, working: u32, protection: u32) -> u32
    ensures { result ≡ number_by side working protection }
{
    match side {
        Side::Working => working,
        Side::Protection => protection,
    }
}

fn bytes_of(side: Side, working: usize, protection: usize) -> usize
    ensures { result ≡ number_by side working protection }
{
    match side {
        Side::Working => working,
        Side::Protection => protection,
    }
}

// What is to be skipped in a turn: what was still to be skipped, and anew after a switch.
fn to_skip_in(m: u32, emitted: u32, cause: Option<SwitchCause>, skip: u32, due: u32) -> u32
    requires few { m ≤ MOST_SLOTS }
    requires emitted { emitted < m }
    requires due { due < m }
    ensures { result ≡ to_skip_by m emitted cause skip due }
{
    match cause {
        None => skip,
        Some(_) => (due + (m - emitted)) % m,
    }
}

// A count of bytes modulo m, and so many more.
fn added(count: u32, bytes: usize, m: u32) -> u32
    requires some { 1 ≤ m }
    requires few { m ≤ MOST_SLOTS }
    requires low { count < m }
    ensures value { result ≡ (count + bytes) % m }
    ensures low { result < m }
{
    let more = (bytes % m as usize) as u32;
    (count + more) % m
}
