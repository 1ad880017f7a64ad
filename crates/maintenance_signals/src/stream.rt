// The stream of a signal, given piece by piece.
ghost use Rattle.std.specs.Prelude.{◌≡◌, ◌+◌, ℕ, length};

use crate::Signal;
use crate::runs::fill_from;
use std::marker::Model;

/// The stream of a signal's frames (G.709 clause 16.5): client frames of 15,296 bytes without an end, with
/// FAS, MFAS from 0 on and the signal's pattern. Contracts say how many of its bytes were given so far.
#[derive(Drop)]
pub struct SignalBytes {
    signal: Signal,
    place: usize,
}

impl Model for SignalBytes {
    ghost use Rattle.std.specs.Prelude.{◌<◌};
    ghost use Rattle.maintenance_signals.specs.Emitted.{StreamPlace};
    ghost use Rattle.maintenance_signals.specs.declared.runs.TheConstants.{PERIOD};

    ghost Value = { StreamPlace };

    ghost view = { λ s. record { signal = s.signal; place = s.place } };

    ghost invariant = { λ s. s.place < PERIOD };
}

impl SignalBytes {
    ghost use Rattle.maintenance_signals.specs.declared.signal.Signal.{Signal};
    ghost use Rattle.maintenance_signals.specs.Emitted.{HasEmitted};
    ghost use Rattle.maintenance_signals.specs.Stream.{signal_bytes};

    /// The stream of this signal, at its first byte.
    pub fn new(signal: Signal) -> SignalBytes
        ensures { HasEmitted signal 0 result }
    {
        SignalBytes { signal, place: 0 }
    }

    /// Writes the next bytes of the stream into all of `into`.
    pub fn next(&mut self, into: &mut [u8])
        ensures bytes { (signal : Signal) (emitted : ℕ) → HasEmitted signal emitted self.old
            → into.new ≡ signal_bytes signal emitted (length into.old) }
        ensures emitted { (signal : Signal) (emitted : ℕ) → HasEmitted signal emitted self.old
            → HasEmitted signal (emitted + length into.old) self.new }
    {
        self.place = fill_from(self.signal, self.place, into);
    }

    /// Goes back to the first byte of the stream.
    pub fn restart(&mut self)
        ensures { (signal : Signal) (emitted : ℕ) → HasEmitted signal emitted self.old → HasEmitted signal 0 self.new }
    {
        self.place = 0;
    }
}
