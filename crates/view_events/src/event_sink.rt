// A sink that writes the events of a view.
ghost use Rattle.std.specs.Prelude.{◌≡◌, ◌≢◌, ◌<◌, ◌≤◌, ◌+◌, ◌++◌, ◌∷◌, ℕ, [], List, None, false, IfOk, IsErr, OnErr, OnOk, length, slice_index, take};
ghost use Rattle.port_base.specs.Bytes.{after, sent, HasFailed};
ghost use Rattle.port_base.specs.PortViews.{SinkGot, SinkView, sink_view};
ghost use Rattle.view_events.specs.Stands.{HasTaken, IsEnded};

use crate::events::Events;
use arrayvec::ArrayVec;
use port_base::{Failed, Sink, Written, write_whole};
use std::alloc::Global;

// Room for a line of a view.
const ROOM: usize = 1024;

const LF: u8 = b'\n';

/// Takes the text of a view, and writes the events that its lines bring to another sink, those of a line by one whole
/// write. It tells no bytes. A write takes the bytes up to and with the first LF. It fails where the sink below does in
/// that, and where there is no memory for the events, or a line has more than 1,024 bytes: then its own count rises.
#[derive(Drop)]
pub struct EventSink<K> {
    inner: K,
    line: ArrayVec<u8, ROOM>,
    events: Events,
    /// The events of a line.
    out: Vec<u8>,
    own: u64,
}

impl<K: Sink> EventSink<K> {
    ghost use Rattle.view_events.specs.EventPorts.{event_faults};

    /// Writes the events of a view to this sink.
    pub fn new(alloc: Global, inner: K) -> EventSink<K>
        ensures { HasTaken K.Sink (sink_view K.Sink inner) [] result }
    {
        let line = ArrayVec::new();
        let events = Events::new(alloc);
        EventSink {
            inner,
            line,
            events,
            out: Vec::new(alloc),
            own: 0,
        }
    }

    // A write that fails by itself.
    #[tactic(auto, using(crate::proofs::Counts::own_fault))]
    fn refuse(&mut self) -> Result<usize, Failed>
        ensures refused { OnErr result (HasFailed (event_faults K.faults self.old) (event_faults K.faults self.new)) }
        ensures later { event_faults K.faults self.old ≤ event_faults K.faults self.new }
        ensures fails { IsErr result }
    {
        self.own = self.own.saturating_add(1);
        Err(Failed)
    }

    // Takes these n bytes, the last of a line, and writes the events of the line.
    #[tactic(auto, using(crate::proofs::Counts::later_faults, crate::proofs::Counts::inner_fault, crate::proofs::Counts::own_fault))]
    fn end_line(&mut self, n: usize) -> Result<usize, Failed>
        ensures bound { IfOk result (λ m. m ≡ n) }
        ensures later { event_faults K.faults self.old ≤ event_faults K.faults self.new }
        ensures cause { OnErr result (HasFailed (event_faults K.faults self.old) (event_faults K.faults self.new)) }
        ensures well { OnOk result (event_faults K.faults self.new ≡ event_faults K.faults self.old) }
        ensures ended { OnOk result (IsEnded K.Sink self.old self.new) }
    {
        self.out.clear();
        let told = self.events.take_line(self.line.as_slice(), &mut self.out);
        self.line.clear();
        match told {
            Ok(()) => Ok(self.send(n)?),
            Err(_) => self.refuse(),
        }
    }

    // Takes these n bytes, and writes the events that wait.
    #[tactic(auto, using(crate::proofs::Counts::inner_fault, crate::proofs::Counts::later_faults))]
    fn send(&mut self, n: usize) -> Result<usize, Failed>
        ensures bound { IfOk result (λ m. m ≡ n) }
        ensures later { event_faults K.faults self.old ≤ event_faults K.faults self.new }
        ensures cause { OnErr result (HasFailed (event_faults K.faults self.old) (event_faults K.faults self.new)) }
        ensures well { OnOk result (event_faults K.faults self.new ≡ event_faults K.faults self.old) }
        ensures wrote { OnOk result (SinkGot (sink_view K.Sink self.old.inner) self.old.out.items
            (sink_view K.Sink self.new.inner)) }
        ensures line { self.new.line ≡ self.old.line }
        ensures events { self.new.events ≡ self.old.events }
    {
        match write_whole(&mut self.inner, self.out.as_slice()) {
            Written::Whole => Ok(n),
            Written::Lost => Err(Failed),
        }
    }
}

impl<K: Sink> Sink for EventSink<K> {
    ghost use Rattle.view_events.specs.EventPorts.{event_faults};

    ghost got = { λ _. None };

    ghost faults = { event_faults K.faults };

    ghost keeps = { λ _. false };

    #[tactic(auto, using(crate::proofs::Counts::later_faults, crate::proofs::Counts::inner_fault, crate::proofs::Counts::own_fault))]
    fn write(&mut self, bytes: &[u8]) -> Result<usize, Failed>
        ensures bound { IfOk result (λ n. n ≤ length bytes.now) }
        ensures progress { IfOk result (λ n. 0 < length bytes.now → 0 < n) }
        ensures later { event_faults K.faults self.old ≤ event_faults K.faults self.new }
        ensures cause { OnErr result (HasFailed (event_faults K.faults self.old) (event_faults K.faults self.new)) }
        ensures well { OnOk result (event_faults K.faults self.new ≡ event_faults K.faults self.old) }
        ensures events { IfOk result (λ n. (first : SinkView) (text : List ℕ) → HasTaken K.Sink first text self.old
            → HasTaken K.Sink first (text ++ take n bytes.now) self.new) }
    {
        let n = first_line(bytes);
        if n == 0 {
            return Ok(0);
        }
        let Ok(()) = self.line.try_extend_from_slice(&bytes[..n]) else {
            return self.refuse();
        };
        let last = bytes[n - 1];
        if last != LF {
            return Ok(n);
        }
        let taken = self.end_line(n)?;
        Ok(taken)
    }

    fn kept(&self) -> Option<&[u8]> {
        None
    }
}

// How many bytes stand up to and with the first LF: all, where there is none.
fn first_line(bytes: &[u8]) -> usize
    ensures within { result ≤ length bytes.now }
    ensures some { 0 < length bytes.now → 0 < result }
    ensures before { (k : ℕ) → k + 1 < result → slice_index bytes.now k ≢ 10 }
{
    for n in 0..bytes.len() {
        if bytes[n] == LF {
            return n + 1;
        }
    }
    bytes.len()
}
