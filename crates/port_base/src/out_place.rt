// A place for an output: it is empty, its port is live, its port is retired and keeps what it got, or its port has
// failed and is called no more.
ghost use Rattle.std.specs.Prelude.{◌≡◌, ◌≢◌, true, false, Some, MatchOption, length, take};
ghost use Rattle.port_base.specs.Given.{Gained};
ghost use Rattle.port_base.specs.OutPlace.{dead_out, out_view};
ghost use Rattle.port_base.specs.Retiring.{retired_out, retired_sink};
ghost use Rattle.port_base.specs.Sent.{IsSent};
ghost use Rattle.port_base.specs.Views.{Live, Dead};
ghost use Rattle.port_base.specs.Writes.{Writes, IsWriting, state_after_write};

use crate::drain::{drain_counted, frames_counted, lines_counted};
use crate::{OutPort, Sealed, Sink, Written};
use std::mem;

/// A place for a sink. The number counts the bytes sent to it, and stops at 2^64-1. A dead place
/// is made by `dead`, and its port is out of reach. A retired place is made by `retire`, of a port that keeps what it
/// got: it acts as an empty one, and hands out those bytes.
#[derive(Drop)]
pub enum OutPlaceOf<K> {
    Empty,
    Live(K, u64),
    Retired(Sealed<K>),
    Dead(Sealed<K>, u64),
}

/// A place for a sink behind a box or in memory.
pub type OutPlace = OutPlaceOf<OutPort>;

impl<K: Sink> OutPlaceOf<K> {
    /// A dead place with this port, to which so many bytes were sent.
    pub fn dead(port: K, number: u64) -> OutPlaceOf<K>
        ensures { out_view K.Sink result ≡ dead_out K.Sink port number }
    {
        OutPlaceOf::Dead(Sealed { port }, number)
    }

    /// Writes all bytes. After Lost a part of them went out, from the front. The place dies
    /// exactly where the answer is Lost, and then its port's count of faults rose in this call
    /// or stands at its end; else the count is as it was. A place that is not live calls nothing, and answers Whole.
    pub fn write_all(&mut self, bytes: &[u8]) -> Written
        ensures state { (out_view K.Sink self.new).state ≡ state_after_write (out_view K.Sink self.old).state result }
        ensures live { (out_view K.Sink self.old).state ≡ Live
            → Writes result (out_view K.Sink self.old) bytes.now (out_view K.Sink self.new) }
        ensures idle { (out_view K.Sink self.old).state ≢ Live → (self.new ≡ self.old) × (result ≡ Written.Whole) }
        ensures sent { IsSent (out_view K.Sink self.old) bytes.now (out_view K.Sink self.new) }
        ensures well { result ≢ Written.Lost → (out_view K.Sink self.new).faults ≡ (out_view K.Sink self.old).faults }
        ensures empty { length bytes.now ≡ 0 → (self.new ≡ self.old) × (result ≡ Written.Whole) }
    {
        if bytes.is_empty() {
            return Written::Whole;
        }
        let ending = match self {
            OutPlaceOf::Live(port, number) => drain_counted(port, number, bytes),
            OutPlaceOf::Empty => return Written::Whole,
            OutPlaceOf::Retired(..) => return Written::Whole,
            OutPlaceOf::Dead(..) => return Written::Whole,
        };
        if ending == Written::Lost {
            self.die();
        }
        ending
    }

    /// Writes lines, each with its LF at its end, and says how many bytes went: all lines at once to a file of the
    /// system, and to any other port each line for itself. What is said of `write_all` holds.
    pub fn write_lines(&mut self, lines: &[u8]) -> (Written, usize)
        ensures state { (out_view K.Sink self.new).state ≡ state_after_write (out_view K.Sink self.old).state result.0 }
        ensures live { (out_view K.Sink self.old).state ≡ Live
            → Writes result.0 (out_view K.Sink self.old) lines.now (out_view K.Sink self.new) }
        ensures idle { (out_view K.Sink self.old).state ≢ Live → (self.new ≡ self.old) × (result ≡ (Written.Whole, 0)) }
        ensures sent { IsSent (out_view K.Sink self.old) lines.now (out_view K.Sink self.new) }
        ensures written { Gained (out_view K.Sink self.old) (take result.1 lines.now) (out_view K.Sink self.new) }
        ensures writing { (out_view K.Sink self.old).state ≡ Live → IsWriting result.0 result.1 (length lines.now) }
        ensures well { result.0 ≢ Written.Lost → (out_view K.Sink self.new).faults ≡ (out_view K.Sink self.old).faults }
        ensures empty { length lines.now ≡ 0 → (self.new ≡ self.old) × (result ≡ (Written.Whole, 0)) }
    {
        if lines.is_empty() {
            return (Written::Whole, 0);
        }
        let (answer, written) = match self {
            OutPlaceOf::Live(port, number) => lines_counted(port, number, lines),
            OutPlaceOf::Empty => return (Written::Whole, 0),
            OutPlaceOf::Retired(..) => return (Written::Whole, 0),
            OutPlaceOf::Dead(..) => return (Written::Whole, 0),
        };
        if answer == Written::Lost {
            self.die();
        }
        (answer, written)
    }

    /// Writes frames of a line, each of 16,320 bytes, and says how many bytes went: all frames at once to a file of the
    /// system, and to any other port each frame for itself. What is said of `write_all` holds.
    pub fn write_frames(&mut self, frames: &[u8]) -> (Written, usize)
        ensures state { (out_view K.Sink self.new).state ≡ state_after_write (out_view K.Sink self.old).state result.0 }
        ensures live { (out_view K.Sink self.old).state ≡ Live
            → Writes result.0 (out_view K.Sink self.old) frames.now (out_view K.Sink self.new) }
        ensures idle { (out_view K.Sink self.old).state ≢ Live → (self.new ≡ self.old) × (result ≡ (Written.Whole, 0)) }
        ensures sent { IsSent (out_view K.Sink self.old) frames.now (out_view K.Sink self.new) }
        ensures written { Gained (out_view K.Sink self.old) (take result.1 frames.now) (out_view K.Sink self.new) }
        ensures writing { (out_view K.Sink self.old).state ≡ Live → IsWriting result.0 result.1 (length frames.now) }
        ensures well { result.0 ≢ Written.Lost → (out_view K.Sink self.new).faults ≡ (out_view K.Sink self.old).faults }
        ensures empty { length frames.now ≡ 0 → (self.new ≡ self.old) × (result ≡ (Written.Whole, 0)) }
    {
        if frames.is_empty() {
            return (Written::Whole, 0);
        }
        let (answer, written) = match self {
            OutPlaceOf::Live(port, number) => frames_counted(port, number, frames),
            OutPlaceOf::Empty => return (Written::Whole, 0),
            OutPlaceOf::Retired(..) => return (Written::Whole, 0),
            OutPlaceOf::Dead(..) => return (Written::Whole, 0),
        };
        if answer == Written::Lost {
            self.die();
        }
        (answer, written)
    }

    /// A live place becomes a retired one, where its port keeps what it got, and else an empty one, whose port is
    /// dropped. A place that is not live stays.
    pub fn retire(&mut self)
        ensures retired { out_view K.Sink self.new ≡ retired_out (out_view K.Sink self.old) }
        ensures dropped { (out_view K.Sink self.old).state ≡ Live → (out_view K.Sink self.old).keeps ≡ false
            → self.new ≡ OutPlaceOf.Empty }
        ensures idle { (out_view K.Sink self.old).state ≢ Live → self.new ≡ self.old }
    {
        match mem::replace(self, OutPlaceOf::Empty) {
            OutPlaceOf::Live(port, _) => *self = retired(port),
            place => *self = place,
        }
    }

    /// What the place's port got, where it keeps it: of a live place as of a dead or a retired one. An empty
    /// place keeps nothing.
    pub fn kept(&self) -> Option<&[u8]>
        ensures { MatchOption result ((out_view K.Sink self.now).keeps ≡ false)
            (λ bytes. ((out_view K.Sink self.now).keeps ≡ true) × ((out_view K.Sink self.now).got ≡ Some bytes.now)) }
    {
        match self {
            OutPlaceOf::Empty => None,
            OutPlaceOf::Live(port, _) => port.kept(),
            OutPlaceOf::Retired(sealed) => sealed.port.kept(),
            OutPlaceOf::Dead(sealed, _) => sealed.port.kept(),
        }
    }

    // A live place becomes dead.
    fn die(&mut self)
        ensures { (out_view K.Sink self.old).state ≡ Live
            → out_view K.Sink self.new ≡ record (out_view K.Sink self.old) { state = Dead } }
    {
        match mem::replace(self, OutPlaceOf::Empty) {
            OutPlaceOf::Live(port, number) => *self = OutPlaceOf::dead(port, number),
            place => *self = place,
        }
    }
}

// The place of a retired port: it stays there where it keeps what it got, and else it is dropped.
fn retired<K: Sink>(port: K) -> OutPlaceOf<K>
    ensures view { out_view K.Sink result ≡ retired_sink (K.keeps port) (K.got port) }
    ensures dropped { K.keeps port ≡ false → result ≡ OutPlaceOf.Empty }
{
    if port.kept().is_none() {
        return OutPlaceOf::Empty;
    }
    OutPlaceOf::Retired(Sealed { port })
}
