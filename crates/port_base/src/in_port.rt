// A source behind a box, or one in memory.
ghost use Rattle.std.specs.Prelude.{◌≡◌, ◌<◌, ◌≤◌, Ok, false, IfOk, OnOk, OnErr, length, min};
ghost use Rattle.port_base.specs.Bytes.{before, read_by, HasFailed};
ghost use Rattle.port_base.specs.Ports.{in_at_hand, in_left, in_ended, in_faults, is_in_boxed, held_left};
ghost use Rattle.port_base.specs.Reads.{HasEnded, ended_after};

use crate::{Failed, MemSource, Source};
use otn_base::SharedBytes;
use std::alloc::Global;

/// What an input place holds. Each call on it, and each of its meanings, is that of what it holds.
#[derive(Drop)]
pub enum InPort {
    Boxed(Box<dyn Source>),
    Held(MemSource),
}

impl Source for InPort {
    ghost left = { in_left (λ b. (Source-box b).left b.value) };

    ghost faults = { in_faults (λ b. (Source-box b).faults b.value) };

    ghost ended = { in_ended (λ b. (Source-box b).ended b.value) };

    ghost boxed = { is_in_boxed };

    ghost at_hand = { in_at_hand (λ b. (Source-box b).at_hand b.value) };

    fn read(&mut self, into: &mut [u8]) -> Result<usize, Failed>
        ensures bound { IfOk result (λ n. n ≤ length into.old) }
        ensures bytes { in_left left self.old ≡ before (read_by result into.new) (in_left left self.new) }
        ensures end { result ≡ Ok 0 → 0 < length into.old → HasEnded (in_left left self.new) (in_ended ended self.new) }
        ensures answered { in_ended ended self.new ≡ ended_after (length into.old) result (in_ended ended self.old) }
        ensures later { in_faults faults self.old ≤ in_faults faults self.new }
        ensures cause { OnErr result (HasFailed (in_faults faults self.old) (in_faults faults self.new)) }
        ensures well { OnOk result (in_faults faults self.new ≡ in_faults faults self.old) }
        ensures same { is_in_boxed self.new ≡ is_in_boxed self.old }
        ensures held { is_in_boxed self.old ≡ false
            → result ≡ Ok (min (length (held_left self.old)) (length into.old)) }
    {
        match self {
            InPort::Boxed(source) => source.read(into),
            InPort::Held(source) => source.read(into),
        }
    }

    fn look_ahead(&mut self, alloc: Global) {
        match self {
            InPort::Boxed(source) => source.look_ahead(alloc),
            InPort::Held(_) => {}
        }
    }

    fn peek(&self) -> &[u8] {
        match self {
            InPort::Boxed(source) => source.peek(),
            InPort::Held(_) => &[],
        }
    }

    fn share(&self, n: usize) -> Option<SharedBytes> {
        match self {
            InPort::Boxed(source) => source.share(n),
            InPort::Held(_) => None,
        }
    }

    fn pass(&mut self, n: usize) {
        match self {
            InPort::Boxed(source) => source.pass(n),
            InPort::Held(_) => {}
        }
    }
}
