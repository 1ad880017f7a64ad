// The frames of a client out of their payload.
ghost use Rattle.std.specs.Prelude.{◌≡◌, ◌≢◌, ◌≤◌, ℕ, ◌+◌, List, [], ◌∷◌, ◌++◌, IfOk, length};
ghost use Rattle.frame_geometry.specs.Places.{payload_row_of};
ghost use Rattle.otn_base.specs.declared.limits.TheConstants.{CLIENT_COLUMNS, CLIENT_PAYLOAD_BYTES, PAYLOAD_COLUMNS};
ghost use Rattle.odu_client.specs.AlignedRuns.{payload_of};
ghost use Rattle.odu_client.specs.ClientFrames.{client_frames};
ghost use Rattle.odu_client.specs.ClientOverhead.{HasMadeFrames, MakesFrame};

use crate::client_overhead::ClientOverhead;
use frame_geometry::Frame;
use otn_base::limits::{CLIENT_COLUMNS, PAYLOAD_COLUMNS};
use otn_base::{Memory, Trace};
use std::alloc::Global;
use std::marker::Model;

/// Makes the frames of a client (G.709 clause 17.4), one after another, each of the payload that is handed in.
/// Contracts see the frame that was made last, and what is kept for the next.
#[derive(Drop)]
pub struct FrameMaker {
    overhead: ClientOverhead,
    frame: Frame<CLIENT_COLUMNS>,
}

impl Model for FrameMaker {
    ghost use Rattle.odu_client.specs.ClientOverhead.{MakerState};

    ghost Value = { MakerState };

    ghost view = { λ m. record { overhead = m.overhead; frame = m.frame } };
}

impl FrameMaker {
    ghost use Rattle.std.specs.Borrow.{sem};
    ghost use Rattle.odu_client.specs.FrameLending.{EndsHavingMade};

    /// A maker that has made no frame. All memory is taken here.
    pub fn new(alloc: Global) -> Result<FrameMaker, Memory>
        ensures made { IfOk result (λ maker. (sapi : List ℕ) → HasMadeFrames sapi 0 [] maker.overhead) }
    {
        Ok(FrameMaker {
            overhead: ClientOverhead::new(),
            frame: Frame::new(alloc)?,
        })
    }

    /// Begins anew.
    pub fn restart(&mut self)
        ensures made { (sapi : List ℕ) → HasMadeFrames sapi 0 [] self.new.overhead }
    {
        self.overhead = ClientOverhead::new();
    }

    /// The next frame, of this payload of 15,232 bytes. The trace is the same each time.
    pub fn make(&mut self, payload: &[u8], trace: &Trace) -> &Frame<CLIENT_COLUMNS>
        requires { length payload.now ≡ CLIENT_PAYLOAD_BYTES }
        // The frames since the start are the client's frames of all these payloads.
        ensures* made { sem 𝓛 (EndsHavingMade self.entry trace.now payload.now) }
        ensures frame { (count : ℕ) (emitted : List ℕ) → HasMadeFrames trace.now count emitted self.old.overhead
            → client_frames trace.now (count + 1) (emitted ++ payload.now) ≡ client_frames trace.now count emitted
            ++ result.now ∷ [] }
    {
        self.put_frame(payload, trace);
        &self.frame
    }

    fn put_frame(&mut self, payload: &[u8], trace: &Trace)
        requires { length payload.now ≡ CLIENT_PAYLOAD_BYTES }
        ensures { (count : ℕ) (emitted : List ℕ) → HasMadeFrames trace.now count emitted self.old.overhead
            → MakesFrame trace.now count emitted payload.now self.new.frame self.new.overhead }
    {
        put_payload(&mut self.frame, payload);
        self.overhead.write(&mut self.frame, trace);
    }
}

// Puts the payload in its four rows.
fn put_payload(frame: &mut Frame<CLIENT_COLUMNS>, payload: &[u8])
    requires { length payload.now ≡ CLIENT_PAYLOAD_BYTES }
    ensures { payload_of frame.new ≡ payload.now }
{
    frame
        .payload_row_mut(1)
        .copy_from_slice(&payload[..PAYLOAD_COLUMNS]);
    frame
        .payload_row_mut(2)
        .copy_from_slice(&payload[PAYLOAD_COLUMNS..2 * PAYLOAD_COLUMNS]);
    frame
        .payload_row_mut(3)
        .copy_from_slice(&payload[2 * PAYLOAD_COLUMNS..3 * PAYLOAD_COLUMNS]);
    frame
        .payload_row_mut(4)
        .copy_from_slice(&payload[3 * PAYLOAD_COLUMNS..]);
}
