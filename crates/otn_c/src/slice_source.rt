// A source over bytes that are lent.
ghost use Rattle.std.specs.Prelude.{◌≡◌, ◌<◌, ◌≤◌, Some, Ok, false, IfOk, OnOk, OnErr, length, min};
ghost use Rattle.port_base.specs.Bytes.{before, read_by, HasFailed};
ghost use Rattle.port_base.specs.Reads.{HasEnded, ended_after};

use port_base::{Failed, Source};

/// Bytes that are lent: it copies none but into what it is asked to fill. It tells them, and never fails.
#[derive(Drop)]
pub struct SliceSource<'a> {
    bytes: &'a [u8],
    at: usize,
    ended: bool,
    ghost within: { at ≤ length bytes.now },
}

impl<'a> SliceSource<'a> {
    ghost use Rattle.otn_c.specs.Lent.{lent_left, lent_ended};

    /// Gives these bytes.
    pub fn new(bytes: &'a [u8]) -> SliceSource<'a>
        ensures left { lent_left result ≡ bytes.now }
        ensures ended { lent_ended result ≡ false }
    {
        SliceSource {
            bytes,
            at: 0,
            ended: false,
        }
    }
}

impl<'a> Source for SliceSource<'a> {
    ghost use Rattle.otn_c.specs.Lent.{lent_left, lent_ended, lent_faults};

    ghost left = { λ source. Some (lent_left source) };

    ghost faults = { lent_faults };

    ghost ended = { lent_ended };

    /// Gives as many as there are and as the slice has room for.
    fn read(&mut self, into: &mut [u8]) -> Result<usize, Failed>
        ensures bound { IfOk result (λ n. n ≤ length into.old) }
        ensures end { result ≡ Ok 0 → 0 < length into.old → HasEnded (Some (lent_left self.new)) (lent_ended self.new) }
        ensures later { lent_faults self.old ≤ lent_faults self.new }
        ensures cause { OnErr result (HasFailed (lent_faults self.old) (lent_faults self.new)) }
        ensures well { OnOk result (lent_faults self.new ≡ lent_faults self.old) }
        ensures answer { result ≡ Ok (min (length (lent_left self.old)) (length into.old)) }
        ensures bytes { Some (lent_left self.old) ≡ before (read_by result into.new) (Some (lent_left self.new)) }
        ensures answered { lent_ended self.new ≡ ended_after (length into.old) result (lent_ended self.old) }
    {
        let rest = &self.bytes[self.at..];
        let n = rest.len().min(into.len());
        into[..n].copy_from_slice(&rest[..n]);
        self.at += n;
        self.ended |= n == 0 && !into.is_empty();
        Ok(n)
    }

    fn pass(&mut self, _n: usize) {}
}
