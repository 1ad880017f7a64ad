// A place for an input: it is empty, its port is live, or its port has failed and is called no more.
ghost use Rattle.std.specs.Prelude.{◌≡◌, ◌≢◌, ◌<◌, ◌≤◌, length, take};
ghost use Rattle.port_base.specs.Fronts.{IsFront, AreFirst};
ghost use Rattle.port_base.specs.InPlace.{dead_in};
ghost use Rattle.port_base.specs.Retiring.{retired_in};
ghost use Rattle.port_base.specs.Reads.{Reads, Takes, state_after, idle_reading};
ghost use Rattle.port_base.specs.Views.{Live, Dead};

use crate::{InPort, Sealed, Source, read_whole};
use otn_base::SharedBytes;
use std::alloc::Global;
use std::mem;

/// How a read of a whole slice ended: the slice is full, the input ended after so many bytes and
/// fewer than the slice has, or a call failed.
#[derive(Clone, Copy, Debug, PartialEq, Eq)]
pub enum Reading {
    Full,
    End(usize),
    Lost,
}

/// A place for a source. The number counts the bytes taken of it, and stops at 2^64-1. A dead
/// place is made by `dead`, and its port is out of reach.
#[derive(Drop)]
pub enum InPlaceOf<P> {
    Empty,
    Live(P, u64),
    Dead(Sealed<P>, u64),
}

/// A place for a source behind a box or in memory.
pub type InPlace = InPlaceOf<InPort>;

impl<P: Source> InPlaceOf<P> {
    ghost use Rattle.port_base.specs.AtHand.{place_at_hand};
    ghost use Rattle.port_base.specs.InPlace.{in_view};

    /// A dead place with this port, of which so many bytes were taken.
    pub fn dead(port: P, number: u64) -> InPlaceOf<P>
        ensures { in_view P.Source result ≡ dead_in P.Source port number }
    {
        InPlaceOf::Dead(Sealed { port }, number)
    }

    /// Reads until the slice is full. After Full the slice is the bytes taken; after End(n) they
    /// stand at its front; after Lost its content is open. The place dies exactly where the
    /// answer is Lost, and then its port's count of faults rose in this call or stands at its
    /// end; else the count is as it was. A place that is not live calls nothing, and acts as one that ended.
    pub fn read_full(&mut self, into: &mut [u8]) -> Reading
        ensures state { (in_view P.Source self.new).state ≡ state_after (in_view P.Source self.old).state result }
        ensures live { (in_view P.Source self.old).state ≡ Live
            → Reads result (in_view P.Source self.old) into.new (in_view P.Source self.new) }
        ensures idle { (in_view P.Source self.old).state ≢ Live
            → (self.new ≡ self.old) × (into.new ≡ into.old) × (result ≡ idle_reading (length into.old)) }
        ensures well { result ≢ Reading.Lost → (in_view P.Source self.new).faults ≡ (in_view P.Source self.old).faults }
        ensures empty { length into.old ≡ 0 → (self.new ≡ self.old) × (result ≡ Reading.Full) }
    {
        if into.is_empty() {
            return Reading::Full;
        }
        let reading = match self {
            InPlaceOf::Live(port, number) => {
                let (reading, count) = read_whole(port, into);
                *number = number.saturating_add(count as u64);
                reading
            }
            InPlaceOf::Empty => return Reading::End(0),
            InPlaceOf::Dead(..) => return Reading::End(0),
        };
        if reading == Reading::Lost {
            self.die();
        }
        reading
    }

    /// Looks ahead at what the place gives next, and gives nothing. A place that is not live calls nothing.
    pub fn look_ahead(&mut self, alloc: Global)
        ensures view { in_view P.Source self.new ≡ in_view P.Source self.old }
        ensures idle { (in_view P.Source self.old).state ≢ Live → self.new ≡ self.old }
    {
        if let InPlaceOf::Live(port, _) = self {
            port.look_ahead(alloc);
        }
    }

    /// Lends bytes at hand, from the front: all, some of them or none. A place that is not live has none.
    pub fn peek(&self) -> &[u8]
        ensures front { IsFront result.now (place_at_hand P.Source self.now) }
    {
        if let InPlaceOf::Live(port, _) = self {
            port.peek()
        } else {
            &[]
        }
    }

    /// Shares the first bytes at hand, so many of them, with whoever holds on to them. None where there are fewer, or
    /// where the port shares none; a place that is not live has none.
    pub fn share(&self, n: usize) -> Option<SharedBytes>
        ensures first { AreFirst result n (place_at_hand P.Source self.now) }
    {
        if let InPlaceOf::Live(port, _) = self {
            port.share(n)
        } else {
            None
        }
    }

    /// Goes past so many of the bytes at hand, and counts them as a read that gives them does.
    pub fn pass(&mut self, n: usize)
        requires hand { n ≤ length (place_at_hand P.Source self.old) }
        ensures passed { Takes (in_view P.Source self.old) (take n (place_at_hand P.Source self.old))
            (in_view P.Source self.new) }
        ensures state { (in_view P.Source self.new).state ≡ (in_view P.Source self.old).state }
        ensures ended { (in_view P.Source self.new).ended ≡ (in_view P.Source self.old).ended }
        ensures faults { (in_view P.Source self.new).faults ≡ (in_view P.Source self.old).faults }
    {
        if let InPlaceOf::Live(port, number) = self {
            port.pass(n);
            *number = number.saturating_add(n as u64);
        }
    }

    /// A live place becomes empty, and its port is dropped. An empty or a dead place stays.
    pub fn retire(&mut self)
        ensures retired { in_view P.Source self.new ≡ retired_in (in_view P.Source self.old) }
        ensures idle { (in_view P.Source self.old).state ≢ Live → self.new ≡ self.old }
    {
        match self {
            InPlaceOf::Live(..) => *self = InPlaceOf::Empty,
            InPlaceOf::Empty => {}
            InPlaceOf::Dead(..) => {}
        }
    }

    // A live place becomes dead.
    fn die(&mut self)
        ensures { (in_view P.Source self.old).state ≡ Live
            → in_view P.Source self.new ≡ record (in_view P.Source self.old) { state = Dead } }
    {
        match mem::replace(self, InPlaceOf::Empty) {
            InPlaceOf::Live(port, number) => *self = InPlaceOf::dead(port, number),
            place => *self = place,
        }
    }
}
