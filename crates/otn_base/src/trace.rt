// The trail trace identifier of a section or a path.
ghost use Rattle.std.specs.Prelude.{◌≡◌, ◌%◌, ◌↔◌, IfSome, IsSome, slice_index};
ghost use Rattle.otn_base.specs.TrailTrace.{IsSapi, trail_trace};

use arrayvec::ArrayVec;
use std::marker::Model;

/// A source access point identifier, which the trail trace identifier (TTI) repeats in every 64 frames
/// (G.709 clause 15.2). Contracts see it as the list of its bytes.
#[derive(Clone, Debug, PartialEq, Eq, Drop)]
pub struct Trace {
    sapi: ArrayVec<u8, 15>,
}

impl Model for Trace {
    ghost use Rattle.std.specs.Prelude.{ℕ, List};
    ghost use Rattle.otn_base.specs.TrailTrace.{IsSapi};

    ghost Value = { List ℕ };

    ghost view = { λ t. t.sapi.items };

    ghost invariant = { λ t. IsSapi t.sapi.items };

    ghost inverse = { λ sapi. record { sapi = record { items = sapi } } };
}

impl Trace {
    /// The trace of this source access point identifier. None where it has more than 15 bytes, or one
    /// outside 0x20 to 0x7E.
    pub fn new(sapi: &[u8]) -> Option<Trace>
        ensures accepted { IsSome result ↔ IsSapi sapi.now }
        ensures same { IfSome result (λ trace. trace ≡ sapi.now) }
    {
        if !sapi.iter().all(|&byte| 0x20 <= byte && byte <= 0x7E) {
            return None;
        }
        let mut bytes = ArrayVec::new();
        match bytes.try_extend_from_slice(sapi) {
            Ok(()) => Some(Trace { sapi: bytes }),
            Err(_) => None,
        }
    }

    /// The trail trace byte of the frame with this multiframe alignment signal.
    #[tactic(auto, using(crate::proofs::Zeros::filled))]
    pub fn byte(&self, mfas: u8) -> u8
        ensures { result ≡ slice_index (trail_trace self.now) (mfas % 64) }
    {
        let place = (mfas % 64) as usize;
        if place == 0 {
            return 0;
        }
        match self.sapi.as_slice().get(place - 1) {
            Some(byte) => *byte,
            None => 0,
        }
    }

    /// The bytes of the source access point identifier.
    pub fn as_slice(&self) -> &[u8]
        ensures same { result.now ≡ self.now }
        ensures sapi { IsSapi self.now }
    {
        self.sapi.as_slice()
    }
}
