// The runs of equal bytes that a signal's frames are made of.
ghost use Rattle.std.specs.Prelude.{◌≡◌, ◌+◌, ◌%◌, ◌<◌, ◌≤◌, ℕ, length, slice_index};
ghost use Rattle.maintenance_signals.specs.Stream.{alignment, filling, pattern, signal_byte};
ghost use Rattle.otn_base.specs.declared.limits.TheConstants.{CLIENT_FRAME_BYTES};
ghost use Rattle.maintenance_signals.specs.declared.runs.TheConstants.{PERIOD};

use crate::Signal;
use otn_base::limits::{CLIENT_COLUMNS, CLIENT_FRAME_BYTES};

/// Bytes of the 256 frames after which a stream comes again.
pub(crate) const PERIOD: usize = 256 * CLIENT_FRAME_BYTES;

// Columns of row 1 that hold FAS, MFAS and zeros.
const ALIGNMENT: usize = 14;

// The place of FTFL in a frame: row 2, column 14.
const FTFL: usize = CLIENT_COLUMNS + 13;

// A byte, and how many places in a row it stands in.
#[derive(Clone, Copy)]
struct Run {
    byte: u8,
    places: usize,
}

/// Writes the bytes of a stream from a place on, and says where it stands then.
pub(crate) fn fill_from(signal: Signal, place: usize, into: &mut [u8]) -> usize
    requires { place < PERIOD }
    ensures bytes { (k : ℕ) → k < length into.old → slice_index into.new k ≡ signal_byte signal (place + k) }
    ensures place { result ≡ (place + length into.old) % PERIOD }
{
    let mut done = 0usize;
    let mut at = place;
    while done < into.len() {
        let run = run_at(signal, at);
        let count = run.places.min(into.len() - done);
        put_run(into, done, count, run.byte);
        done += count;
        at = (at + count) % PERIOD;
    }
    at
}

// Writes a byte into a run of places; the others stay.
fn put_run(into: &mut [u8], at: usize, count: usize, byte: u8)
    requires { at + count ≤ length into.old }
    ensures before { (k : ℕ) → k < at → slice_index into.new k ≡ slice_index into.old k }
    ensures run { (k : ℕ) → k < count → slice_index into.new (at + k) ≡ byte }
{
    into[at..at + count].fill(byte);
}

// The byte at a place of the stream, and a run from there on in which it stands.
fn run_at(signal: Signal, place: usize) -> Run
    requires { place < PERIOD }
    ensures some { 1 ≤ result.places }
    ensures few { result.places ≤ CLIENT_FRAME_BYTES }
    ensures same { (k : ℕ) → k < result.places → signal_byte signal (place + k) ≡ result.byte }
{
    let in_frame = place % CLIENT_FRAME_BYTES;
    if in_frame < ALIGNMENT {
        let mfas = (place / CLIENT_FRAME_BYTES) as u8;
        return Run {
            byte: alignment_byte(mfas, in_frame),
            places: 1,
        };
    }
    if in_frame < FTFL {
        return Run {
            byte: pattern_byte(signal),
            places: FTFL - in_frame,
        };
    }
    if in_frame > FTFL {
        return Run {
            byte: pattern_byte(signal),
            places: CLIENT_FRAME_BYTES - in_frame,
        };
    }
    Run {
        byte: ftfl_byte(signal),
        places: 1,
    }
}

// The byte of row 1 with so many before it in the row.
fn alignment_byte(mfas: u8, before: usize) -> u8
    ensures { result ≡ alignment mfas (before + 1) }
{
    match before {
        0..=2 => 0xF6,
        3..=5 => 0x28,
        6 => mfas,
        _ => 0,
    }
}

fn pattern_byte(signal: Signal) -> u8
    ensures { result ≡ filling signal }
{
    match signal {
        Signal::Ais => 0xFF,
        Signal::Oci => 0x66,
        Signal::Lck => 0x55,
    }
}

fn ftfl_byte(signal: Signal) -> u8
    ensures { result ≡ pattern signal 2 14 }
{
    match signal {
        Signal::Ais => 0,
        Signal::Oci => 0x66,
        Signal::Lck => 0x55,
    }
}
