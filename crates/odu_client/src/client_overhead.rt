// What stands beside the payload of a client's frames, one after another.
ghost use Rattle.std.specs.Prelude.{◌≡◌, ℕ, ◌+◌, ◌%◌, List, [], ◌∷◌, ◌++◌, length};
ghost use Rattle.frame_overhead.specs.TwoBefore.{HasSent, parity_due, or_zero};
ghost use Rattle.otn_base.specs.declared.limits.TheConstants.{CLIENT_COLUMNS, CLIENT_FRAME_BYTES, CLIENT_PAYLOAD_BYTES};
ghost use Rattle.frame_geometry.specs.PayloadParity.{payload_parity_of};
ghost use Rattle.odu_client.specs.AlignedRuns.{payload_of};
ghost use Rattle.odu_client.specs.ClientFrames.{client_frame};
ghost use Rattle.odu_client.specs.ClientOverhead.{HasMadeFrames, MakesFrame};

use crate::client_frame::put_beside;
use frame_geometry::Frame;
use frame_overhead::{parity_with, payload_parity};
use odu_path::PathWriter;
use otn_base::Trace;
use otn_base::limits::{CLIENT_COLUMNS, CLIENT_FRAME_BYTES};
use std::marker::Model;

/// Writes what stands beside the payload of a client's frames (G.709 clause 17.4), one after another: the alignment,
/// the overhead of the OPU and of the path. The payload is the caller's, in a frame of the caller's. Contracts see the
/// parities that are kept and the MFAS of the next frame.
#[derive(Drop)]
pub struct ClientOverhead {
    pub(crate) path: PathWriter,
    pub(crate) mfas: u8,
}

impl Model for ClientOverhead {
    ghost use Rattle.odu_client.specs.ClientOverhead.{OverheadState};

    ghost Value = { OverheadState };

    ghost view = { λ o. record { path = o.path; mfas = o.mfas } };
}

impl ClientOverhead {
    /// No frame was made.
    pub fn new() -> ClientOverhead
        ensures sent { HasSent CLIENT_COLUMNS [] result.path }
        ensures mfas { result.mfas ≡ 0 }
        ensures made { (sapi : List ℕ) → HasMadeFrames sapi 0 [] result }
    {
        ClientOverhead {
            path: PathWriter::new(),
            mfas: 0,
        }
    }

    /// Makes the next frame of the payload that stands in it: writes every other byte.
    pub fn write(&mut self, frame: &mut Frame<CLIENT_COLUMNS>, trace: &Trace)
        ensures made { (count : ℕ) (emitted : List ℕ) → HasMadeFrames trace.now count emitted self.old
            → length (payload_of frame.old) ≡ CLIENT_PAYLOAD_BYTES
            → MakesFrame trace.now count emitted (payload_of frame.old) frame.new self.new }
        ensures frame { (frames : List (List ℕ)) → HasSent CLIENT_COLUMNS frames self.old.path
            → frame.new ≡ client_frame trace.now self.old.mfas (or_zero (parity_due CLIENT_COLUMNS frames))
            (payload_of frame.old) }
        ensures sent { (frames : List (List ℕ)) → HasSent CLIENT_COLUMNS frames self.old.path
            → HasSent CLIENT_COLUMNS (frames ++ frame.new ∷ []) self.new.path }
        ensures mfas { self.new.mfas ≡ (self.old.mfas + 1) % 256 }
        ensures size { length frame.new ≡ CLIENT_FRAME_BYTES }
    {
        let payload = payload_parity(frame);
        self.write_with(frame, trace, payload);
    }

    /// As `write`, for a frame of which it is known what its payload gives to the BIP-8.
    pub fn write_with(&mut self, frame: &mut Frame<CLIENT_COLUMNS>, trace: &Trace, payload: u8)
        requires { payload ≡ payload_parity_of CLIENT_COLUMNS frame.old }
        ensures made { (count : ℕ) (emitted : List ℕ) → HasMadeFrames trace.now count emitted self.old
            → length (payload_of frame.old) ≡ CLIENT_PAYLOAD_BYTES
            → MakesFrame trace.now count emitted (payload_of frame.old) frame.new self.new }
        ensures frame { (frames : List (List ℕ)) → HasSent CLIENT_COLUMNS frames self.old.path
            → frame.new ≡ client_frame trace.now self.old.mfas (or_zero (parity_due CLIENT_COLUMNS frames))
            (payload_of frame.old) }
        ensures sent { (frames : List (List ℕ)) → HasSent CLIENT_COLUMNS frames self.old.path
            → HasSent CLIENT_COLUMNS (frames ++ frame.new ∷ []) self.new.path }
        ensures mfas { self.new.mfas ≡ (self.old.mfas + 1) % 256 }
        ensures size { length frame.new ≡ CLIENT_FRAME_BYTES }
        ensures payload { payload_of frame.new ≡ payload_of frame.old }
        ensures parity { payload_parity_of CLIENT_COLUMNS frame.new ≡ payload }
    {
        prove_eq!(frame.as_bytes().len(), CLIENT_FRAME_BYTES);
        put_beside(frame, self.mfas);
        let parity = parity_with(frame, payload);
        self.path.write_with(frame, self.mfas, trace, parity);
        self.mfas = self.mfas.wrapping_add(1);
    }
}
