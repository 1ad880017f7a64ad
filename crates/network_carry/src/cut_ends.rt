// The ends of a fibre that is cut: a line to the outside of the network, and one from there.
ghost use Rattle.network_carry.specs.declared.cut_ends.TheConstants.{MOST_BYTES};
ghost use Rattle.std.specs.Prelude.{◌≡◌, ◌≤◌, ◌<◌, ◌/◌, ◌+◌, false, None, IfOk, length};

use crate::passing::Passing;
use network_file::{Cut, Cuts};
use otn_base::Memory;
use port_base::{Failed, Sink, Source};
use std::alloc::Global;
use std::cell::RefCell;
use std::rc::Rc;

// The most bytes that go over a fibre: it takes no more.
const MOST_BYTES: u64 = 1 << 62;

type Shared = Rc<RefCell<Passing>>;

/// Takes what leaves at the near end of a fibre, from turn 1 on. It hands it to the far end, with zeros in place of it
/// in the turns in which the fibre is dark: no light. It tells no bytes, as a file does.
#[derive(Drop)]
pub struct CutSink {
    shared: Shared,
    cuts: Cuts,
    number: usize,
    turn_bytes: u64,
    total: u64,
    failed: u64,
    ghost some: { 0 < turn_bytes },
    ghost few: { total ≤ MOST_BYTES },
}

/// Gives what came over such a fibre. A read that finds nothing answers the end, for ever.
#[derive(Drop)]
pub struct CutSource {
    shared: Shared,
    ended: bool,
    failed: u64,
}

/// The two ends of the fibre of this number, from 1, with these cuts, on a line of so many bytes a turn.
pub fn cut_fibre(
    alloc: Global,
    cuts: &[Cut],
    number: usize,
    turn_bytes: usize,
) -> Result<(CutSink, CutSource), Memory> {
    let passing = Passing::with_room(alloc, turn_bytes)?;
    let shared = Rc::new(alloc, RefCell::new(passing))?;
    let source = CutSource {
        shared: shared.clone()?,
        ended: false,
        failed: 0,
    };
    let sink = CutSink {
        shared,
        cuts: cuts_of(alloc, cuts, number)?,
        number,
        turn_bytes: (turn_bytes as u64).max(1),
        total: 0,
        failed: 0,
    };
    Ok((sink, source))
}

// The cuts that are of this fibre.
fn cuts_of(alloc: Global, cuts: &[Cut], number: usize) -> Result<Cuts, Memory> {
    let mut own = Vec::new(alloc);
    for cut in cuts {
        if cut.fibre == number {
            own.push(*cut)?;
        }
    }
    Ok(Cuts::of(own))
}

impl CutSink {
    ghost use Rattle.network_carry.specs.Outside.{cut_got_faults, is_dark_at};

    // Whether the fibre is dark in the turn of the next byte.
    fn is_dark(&self) -> bool
        ensures { result ≡ is_dark_at self.now }
    {
        self.cuts
            .is_dark(self.number, self.total / self.turn_bytes + 1)
    }

    // How many of so many bytes are of this turn.
    fn part(&self, count: usize) -> usize
        ensures bound { result ≤ count }
        ensures some { 0 < count → 0 < result }
    {
        let left = self.turn_bytes - self.total % self.turn_bytes;
        left.min(count as u64) as usize
    }

    // Takes what is of this turn, and counts no failure.
    fn take(&mut self, bytes: &[u8]) -> Result<usize, Failed>
        ensures bound { IfOk result (λ n. n ≤ length bytes.now) }
        ensures progress { IfOk result (λ n. 0 < length bytes.now → 0 < n) }
        ensures faults { cut_got_faults self.new ≡ cut_got_faults self.old }
    {
        let n = self.part(bytes.len());
        let total = self.total.checked_add(n as u64).ok_or(Failed)?;
        if total > MOST_BYTES {
            return Err(Failed);
        }
        pass(&self.shared, &bytes[..n], self.is_dark())?;
        self.total = total;
        Ok(n)
    }
}

fn pass(shared: &Shared, bytes: &[u8], dark: bool) -> Result<(), Failed> {
    let mut passing = shared.try_borrow_mut().map_err(|_| Failed)?;
    passing.add(bytes, dark)
}

impl Sink for CutSink {
    ghost use Rattle.network_carry.specs.Outside.{cut_got_faults};

    ghost got = { λ _. None };

    ghost faults = { cut_got_faults };

    ghost keeps = { λ _. false };

    fn write(&mut self, bytes: &[u8]) -> Result<usize, Failed> {
        let answer = self.take(bytes);
        if answer.is_err() {
            self.failed = self.failed.saturating_add(1);
        }
        answer
    }

    fn kept(&self) -> Option<&[u8]> {
        None
    }
}

impl CutSource {
    ghost use Rattle.network_carry.specs.Outside.{cut_ended, cut_faults};

    // Gives what is there, and counts neither a failure nor the end.
    fn give(&self, into: &mut [u8]) -> Result<usize, Failed>
        ensures bound { IfOk result (λ n. n ≤ length into.old) }
        ensures size { length into.new ≡ length into.old }
    {
        let mut passing = self.shared.try_borrow_mut().map_err(|_| Failed)?;
        Ok(passing.take(into))
    }
}

impl Source for CutSource {
    ghost use Rattle.network_carry.specs.Outside.{cut_ended, cut_faults};

    ghost left = { λ _. None };

    ghost faults = { cut_faults };

    ghost ended = { cut_ended };

    fn read(&mut self, into: &mut [u8]) -> Result<usize, Failed> {
        let answer = self.give(into);
        if answer.is_err() {
            self.failed = self.failed.saturating_add(1);
        }
        self.ended |= answer == Ok(0) && !into.is_empty();
        answer
    }

    fn pass(&mut self, _n: usize) {}
}
