// The end of a line.
ghost use Rattle.std.specs.Prelude.{◌≡◌, ◌≢◌, ◌<◌, ◌≤◌, true, false, length, take, slice_index, MatchOption};
ghost use Rattle.packet_text.specs.TextLines.{has_lf};
ghost use Rattle.packet_text.specs.Steps.Carrying.{IsFirstLf, lf_bits};

use std::simd::prelude::*;

const LF: u8 = b'\n';

// Bytes that are looked at together.
const PIECE: usize = 64;

/// The place of the first LF, if there is one.
pub(crate) fn first_lf(bytes: &[u8]) -> Option<usize>
    ensures { MatchOption result (has_lf bytes.now ≡ false) (IsFirstLf bytes.now) }
{
    let mut before = 0;
    while bytes.len() - before >= PIECE {
        let clean = clean_bytes(&bytes[before..before + PIECE]);
        if clean < PIECE {
            return Some(before + clean);
        }
        before += PIECE;
    }
    match next_lf(&bytes[before..]) {
        Some(n) => Some(before + n),
        None => None,
    }
}

// How many bytes of a piece are before its first LF: all where it has none.
fn clean_bytes(piece: &[u8]) -> usize
    requires { length piece.now ≡ 64 }
    ensures within { result ≤ 64 }
    ensures clean { has_lf (take result piece.now) ≡ false }
    ensures stops { result < 64 → slice_index piece.now result ≡ 10 }
{
    if is_clean(piece) {
        return PIECE;
    }
    before_lf(piece)
}

// Whether a piece has no LF.
fn is_clean(piece: &[u8]) -> bool
    requires { length piece.now ≡ 64 }
    ensures none { result ≡ true → lf_bits piece.now ≡ 0 }
    ensures some { result ≡ false → lf_bits piece.now ≢ 0 }
{
    lf_lanes(piece) == 0
}

// How many bytes of a piece are before its first LF, where it has one. It is called apart, since whether there is any
// is told by less than where it stands.
#[inline(never)]
fn before_lf(piece: &[u8]) -> usize
    requires long { length piece.now ≡ 64 }
    requires some { lf_bits piece.now ≢ 0 }
    ensures within { result ≤ 64 }
    ensures clean { has_lf (take result piece.now) ≡ false }
    ensures stops { result < 64 → slice_index piece.now result ≡ 10 }
{
    lf_lanes(piece).trailing_zeros() as usize
}

// A bit for each LF of a piece.
#[inline(always)]
fn lf_lanes(piece: &[u8]) -> u64
    requires { length piece.now ≡ 64 }
    ensures { result ≡ lf_bits piece.now }
{
    u8x64::from_slice(piece)
        .simd_eq(u8x64::splat(LF))
        .to_bitmask()
}

// The place of the first LF, byte by byte.
fn next_lf(bytes: &[u8]) -> Option<usize>
    ensures { MatchOption result (has_lf bytes.now ≡ false) (IsFirstLf bytes.now) }
{
    for (n, byte) in bytes.iter().enumerate() {
        if *byte == LF {
            return Some(n);
        }
    }
    None
}
