// The client frames that carry the channels, one after another.
ghost use Rattle.std.specs.Prelude.{◌≡◌, ◌≢◌, ◌<◌, ◌≤◌, ◌+◌, ◌++◌, ℕ, List, [], IfOk, length, take, drop};
ghost use Rattle.otn_base.specs.declared.limits.TheConstants.{CLIENT_FRAME_BYTES};
ghost use Rattle.port_base.specs.Racks.{bays_view};
ghost use Rattle.port_base.specs.Views.{BaysView};
ghost use Rattle.client_list.specs.ClientLists.{IsClientList};
ghost use Rattle.bundle_command.specs.Steps.Framed.{AreReady, FramesHave, FramesStand, OnlyInputs};

use crate::framing::Framing;
use crate::weaving::Weaving;
use frame_geometry::Frame;
use odu_client::ClientOverhead;
use otn_base::limits::CLIENT_FRAME_BYTES;
use otn_base::{Memory, Trace, copy_front};
use port_base::{Rack, Sink, Source};
use std::alloc::Global;

impl Framing {
    /// The frames of these clients' channels, before the first byte. All memory is taken here.
    pub(crate) fn new(alloc: Global, clients: &[u8]) -> Result<Framing, Memory>
        requires { IsClientList clients.now }
        ensures { IfOk result (λ framing. (first : BaysView) → FramesStand clients.now first first [] framing) }
    {
        Ok(Framing {
            weaving: Weaving::new(alloc, clients)?,
            overhead: ClientOverhead::new(),
            frame: Frame::new(alloc)?,
            at: CLIENT_FRAME_BYTES,
            trace: no_trace(),
        })
    }

    /// The next bytes of the frames.
    pub(crate) fn fill<I: Source, O: Sink>(&mut self, bays: &mut Rack<I, O>, into: &mut [u8])
        requires ready { AreReady (bays_view I.Source O.Sink bays.old) self.old }
        ensures size { length into.new ≡ length into.old }
        ensures stands { (clients : List ℕ) (first : BaysView) (due : List ℕ)
            → FramesStand clients first (bays_view I.Source O.Sink bays.old) due self.old
            → FramesStand clients first (bays_view I.Source O.Sink bays.new) (due ++ into.new) self.new }
        ensures alone { OnlyInputs (bays_view I.Source O.Sink bays.old) (bays_view I.Source O.Sink bays.new) }
    {
        let mut done = 0;
        while done < into.len() {
            done += self.step(bays, &mut into[done..]);
        }
    }

    // The next bytes of one frame: how many.
    fn step<I: Source, O: Sink>(&mut self, bays: &mut Rack<I, O>, into: &mut [u8]) -> usize
        requires ready { AreReady (bays_view I.Source O.Sink bays.old) self.old }
        requires room { 1 ≤ length into.old }
        ensures some { 1 ≤ result }
        ensures within { result ≤ length into.old }
        ensures size { length into.new ≡ length into.old }
        ensures stands { (clients : List ℕ) (first : BaysView) (due : List ℕ)
            → FramesHave clients first (bays_view I.Source O.Sink bays.old) due self.old
            → FramesStand clients first (bays_view I.Source O.Sink bays.new) (due ++ take result into.new) self.new }
        ensures alone { OnlyInputs (bays_view I.Source O.Sink bays.old) (bays_view I.Source O.Sink bays.new) }
    {
        self.have_frame(bays);
        self.give(into)
    }

    // Makes the next frame where the one in hand is gone.
    fn have_frame<I: Source, O: Sink>(&mut self, bays: &mut Rack<I, O>)
        requires ready { AreReady (bays_view I.Source O.Sink bays.old) self.old }
        ensures stands { (clients : List ℕ) (first : BaysView) (due : List ℕ)
            → FramesHave clients first (bays_view I.Source O.Sink bays.old) due self.old
            → FramesHave clients first (bays_view I.Source O.Sink bays.new) due self.new }
        ensures some { self.new.at < CLIENT_FRAME_BYTES }
        ensures alone { OnlyInputs (bays_view I.Source O.Sink bays.old) (bays_view I.Source O.Sink bays.new) }
    {
        if self.at < CLIENT_FRAME_BYTES {
            return;
        }
        self.make_frame(bays);
    }

    // Makes the next frame.
    fn make_frame<I: Source, O: Sink>(&mut self, bays: &mut Rack<I, O>)
        requires ready { AreReady (bays_view I.Source O.Sink bays.old) self.old }
        requires gone { self.old.at ≡ CLIENT_FRAME_BYTES }
        ensures stands { (clients : List ℕ) (first : BaysView) (due : List ℕ)
            → FramesHave clients first (bays_view I.Source O.Sink bays.old) due self.old
            → FramesHave clients first (bays_view I.Source O.Sink bays.new) due self.new }
        ensures start { self.new.at ≡ 0 }
        ensures alone { OnlyInputs (bays_view I.Source O.Sink bays.old) (bays_view I.Source O.Sink bays.new) }
    {
        self.weaving.fill_payload(bays, &mut self.frame);
        self.overhead.write(&mut self.frame, &self.trace);
        self.at = 0;
    }

    // The next bytes of the frame in hand, as many as there is room for: how many.
    fn give(&mut self, into: &mut [u8]) -> usize
        requires room { 1 ≤ length into.old }
        requires some { self.old.at < CLIENT_FRAME_BYTES }
        ensures some { 1 ≤ result }
        ensures within { result ≤ length into.old }
        ensures size { length into.new ≡ length into.old }
        ensures bytes { drop self.old.at self.old.frame ≡ take result into.new ++ drop self.new.at self.new.frame }
        ensures at { self.new.at ≡ self.old.at + result }
        ensures frame { self.new.frame ≡ self.old.frame }
        ensures rest { (self.new.weaving ≡ self.old.weaving) × (self.new.overhead ≡ self.old.overhead)
            × (self.new.trace ≡ self.old.trace) }
    {
        let count = into.len().min(CLIENT_FRAME_BYTES - self.at);
        copy_front(into, &self.frame.as_bytes()[self.at..self.at + count]);
        self.at += count;
        count
    }
}

// A trace with an empty identifier.
fn no_trace() -> Trace
    ensures { result ≡ [] }
{
    match Trace::new(&[]) {
        Some(trace) => trace,
        None => unreachable!(),
    }
}
