// The parities of the last two frames.
ghost use Rattle.std.specs.Prelude.{◌≡◌, ℕ, List, [], ◌∷◌, ◌++◌};

use std::marker::Model;

/// The parities of the last two frames of a line or a client. Contracts say which frames were sent so far.
#[derive(Clone, Copy, Drop)]
pub struct ParityDelay {
    last: Option<u8>,
    before: Option<u8>,
}

impl Model for ParityDelay {
    ghost use Rattle.frame_overhead.specs.TwoBefore.{Kept};

    ghost Value = { Kept };

    ghost view = { λ d. record { last = d.last; before = d.before } };

    ghost inverse = { λ d. record { last = d.last; before = d.before } };
}

impl ParityDelay {
    ghost use Rattle.frame_overhead.specs.Parity.{parity_of};
    ghost use Rattle.frame_overhead.specs.TwoBefore.{HasSent, or_zero, parity_due};

    /// No frame was sent.
    pub fn new() -> ParityDelay
        ensures { (cols : ℕ) → HasSent cols [] result }
    {
        ParityDelay {
            last: None,
            before: None,
        }
    }

    /// The parity that the next frame carries: that of the frame two before it. None for the first two frames.
    pub fn due(&self) -> Option<u8>
        ensures { (cols : ℕ) (frames : List (List ℕ)) → HasSent cols frames self.now → result ≡ parity_due cols frames }
    {
        self.before
    }

    /// The byte that the next frame carries: the parity that is due, 0 in the first two frames.
    pub fn due_byte(&self) -> u8
        ensures { (cols : ℕ) (frames : List (List ℕ)) → HasSent cols frames self.now
            → result ≡ or_zero (parity_due cols frames) }
    {
        or_zero(self.before)
    }

    /// A frame of this parity is sent.
    pub fn send(&mut self, parity: u8)
        ensures { (cols : ℕ) (frames : List (List ℕ)) (frame : List ℕ) → HasSent cols frames self.old
            → parity ≡ parity_of cols frame
            → HasSent cols (frames ++ frame ∷ []) self.new }
    {
        self.before = self.last;
        self.last = Some(parity);
    }
}

ghost use Rattle.frame_overhead.specs.TwoBefore.{or_zero as zero_if_none};

// The parity, or 0 where there is none.
fn or_zero(parity: Option<u8>) -> u8
    ensures { result ≡ zero_if_none parity }
{
    match parity {
        Some(parity) => parity,
        None => 0,
    }
}
