// A source that spoils some of the bytes of another.
ghost use Rattle.std.specs.Prelude.{◌≡◌, ◌<◌, ◌≤◌, true, Ok, IfOk, OnOk, OnErr, length, drop, vec_len};
ghost use Rattle.std.specs.Option.{option_map};
ghost use Rattle.port_base.specs.Bytes.{before, read_by, HasFailed};
ghost use Rattle.port_base.specs.Reads.{HasEnded, ended_after};
ghost use Rattle.otn_ports.specs.Spoiling.{rises_from, spoiled};

use crate::masks::spoil;
use port_base::{Failed, Source};

/// Gives the bytes of a source, of which each at a listed place, counted from its first byte, is
/// XORed with its mask. It fails only where that source does.
#[derive(Drop)]
pub struct SpoiledSource<S> {
    inner: S,
    spoil: Vec<(u64, u8)>,
    next: usize,
    at: u64,
    ghost within: { next ≤ vec_len spoil },
    ghost rises: { rises_from at (drop next spoil.items) ≡ true },
}

impl<S: Source> SpoiledSource<S> {
    ghost use Rattle.otn_ports.specs.SpoiledPorts.{spoiled_left, spoiled_ended, spoiled_faults};

    /// Spoils this source's bytes: each pair is a place and its mask. The places rise strictly
    /// and are below 2^64-1.
    pub fn new(inner: S, spoil: Vec<(u64, u8)>) -> SpoiledSource<S>
        requires { rises_from 0 spoil.items ≡ true }
        ensures left { spoiled_left S.left result ≡ option_map (spoiled spoil.items 0) (S.left inner) }
        ensures ended { spoiled_ended S.ended result ≡ S.ended inner }
        ensures faults { spoiled_faults S.faults result ≡ S.faults inner }
    {
        SpoiledSource {
            inner,
            spoil,
            next: 0,
            at: 0,
        }
    }
}

impl<S: Source> Source for SpoiledSource<S> {
    ghost use Rattle.otn_ports.specs.SpoiledPorts.{spoiled_left, spoiled_ended, spoiled_faults};

    ghost left = { spoiled_left S.left };

    ghost faults = { spoiled_faults S.faults };

    ghost ended = { spoiled_ended S.ended };

    fn read(&mut self, into: &mut [u8]) -> Result<usize, Failed>
        ensures bound { IfOk result (λ n. n ≤ length into.old) }
        ensures bytes { spoiled_left S.left self.old ≡ before (read_by result into.new) (spoiled_left S.left self.new) }
        ensures end { result ≡ Ok 0 → 0 < length into.old
            → HasEnded (spoiled_left S.left self.new) (spoiled_ended S.ended self.new) }
        ensures answered { spoiled_ended S.ended self.new
            ≡ ended_after (length into.old) result (spoiled_ended S.ended self.old) }
        ensures later { spoiled_faults S.faults self.old ≤ spoiled_faults S.faults self.new }
        ensures cause { OnErr result (HasFailed (spoiled_faults S.faults self.old) (spoiled_faults S.faults self.new)) }
        ensures well { OnOk result (spoiled_faults S.faults self.new ≡ spoiled_faults S.faults self.old) }
    {
        let n = self.inner.read(into)?;
        let used = spoil(&mut into[..n], self.at, &self.spoil[self.next..]);
        self.next += used;
        self.at = self.at.saturating_add(n as u64);
        Ok(n)
    }

    fn pass(&mut self, _n: usize) {}
}
