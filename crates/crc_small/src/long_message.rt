// The front of a message, folded into the bytes behind it.
ghost use Rattle.std.specs.Prelude.{◌≡◌, ℕ, ◌+◌, ◌≤◌, ◌<◌, ◌++◌, bit_xor, length, slice_index};
ghost use Rattle.std.specs.Simd.Lanes.{pick_l};
ghost use Rattle.std.specs.List.{range_with_len};
ghost use Rattle.crc_small.specs.Steps.Folding.{after_some, sum_at, places, pending};
ghost use Rattle.crc_small.specs.Steps.Window.{IsVector, IsWindow, window_byte};

use crate::steps::sixteen32;
use std::simd::u8x16;

/// The register of the check of 32 bits after the first bytes of a message, and how many they are: each sixteen bytes
/// but for the last are added to bytes behind them, 16, 19, 35, 43, 64, 75, 77, 81 and 93 bytes on. That leaves the
/// check as it was, since these numbers are those of a multiple of the generator.
pub(crate) fn front32(bytes: &[u8]) -> (u32, usize)
    requires { 96 ≤ length bytes.now }
    ensures within { result.1 ≤ length bytes.now }
    ensures register { result.0 ≡ after_some (slice_index bytes.now) 0 result.1 0xFFFFFFFF }
{
    let mut window = Window::start();
    let mut at = 0;
    while bytes.len() - at >= 128 {
        let one = window.fold(load(bytes, at));
        let after_one = window.push(one);
        let two = after_one.fold(load(bytes, at + 16));
        window = after_one.push(two);
        at += 32;
    }
    let register = unfold(window, bytes, at);
    (register, at + 96)
}

// The register behind a window and 96 bytes more: the window is added to these.
fn unfold(window: Window, bytes: &[u8], at: usize) -> u32
    requires window { IsWindow window }
    requires room { at + 96 ≤ length bytes.now }
    ensures { result ≡ after_some (λ j. slice_index bytes.now (at + j)) 0 96 (pending (window_byte window) 0) }
{
    let mut left = window;
    let mut register = 0;
    for part in 0..6_usize {
        let sum = left.fold(load(bytes, at + 16 * part));
        register = sixteen32(register, &sum.to_array());
        left = left.push(u8x16::splat(0));
    }
    register
}

/// The last 96 bytes that were folded, the newest of them in `v1`.
#[derive(Clone, Copy)]
pub(crate) struct Window {
    v1: u8x16,
    v2: u8x16,
    v3: u8x16,
    v4: u8x16,
    v5: u8x16,
    v6: u8x16,
}

impl Window {
    // The window before a message: four bytes that leave a register of ones.
    fn start() -> Window
        ensures window { IsWindow result }
        ensures ones { pending (window_byte result) 0 ≡ 0xFFFFFFFF }
    {
        let none = u8x16::splat(0);
        Window {
            v1: u8x16::from_array([0, 0, 0, 0, 0, 0, 0, 0, 0, 0, 0, 0, 0x46, 0xAF, 0x64, 0x49]),
            v2: none,
            v3: none,
            v4: none,
            v5: none,
            v6: none,
        }
    }

    // The next sixteen bytes, with what the window adds to them.
    #[inline(always)]
    fn fold(self, next: u8x16) -> u8x16
        requires window { IsWindow self }
        requires next { IsVector next }
        ensures vector { IsVector result }
        ensures bytes { (j : ℕ) → j < 16 → slice_index result j
            ≡ bit_xor (slice_index next j) (sum_at (λ c. window_byte self (j + c)) places) }
    {
        let near = from_13(self.v3 ^ self.v2, self.v2 ^ self.v1);
        let far = from_5(self.v5 ^ self.v3, self.v4 ^ self.v2);
        let farther = from_3(self.v6 ^ self.v5, self.v5 ^ self.v4);
        let alone = from_15(self.v6, self.v5);
        next ^ self.v4 ^ farther ^ far ^ alone ^ near ^ self.v1
    }

    // The window sixteen bytes on.
    #[inline(always)]
    fn push(self, newest: u8x16) -> Window
        ensures { result ≡ record {
          v1 = newest;
          v2 = self.v1;
          v3 = self.v2;
          v4 = self.v3;
          v5 = self.v4;
          v6 = self.v5;
        } }
    {
        Window {
            v1: newest,
            v2: self.v1,
            v3: self.v2,
            v4: self.v3,
            v5: self.v4,
            v6: self.v5,
        }
    }
}

// Sixteen bytes from this place on.
#[inline(always)]
fn load(bytes: &[u8], at: usize) -> u8x16
    requires { at + 16 ≤ length bytes.now }
    ensures vector { IsVector result }
    ensures bytes { (j : ℕ) → j < 16 → slice_index result j ≡ slice_index bytes.now (at + j) }
{
    u8x16::from_slice(&bytes[at..])
}

// Sixteen bytes of two vectors, one behind the other, from byte 3 on.
#[inline(always)]
fn from_3(older: u8x16, newer: u8x16) -> u8x16
    ensures { result ≡ pick_l 0 (older ++ newer) (range_with_len 3 16) }
{
    older.shuffle(
        newer,
        [3, 4, 5, 6, 7, 8, 9, 10, 11, 12, 13, 14, 15, 16, 17, 18],
    )
}

// From byte 5 on.
#[inline(always)]
fn from_5(older: u8x16, newer: u8x16) -> u8x16
    ensures { result ≡ pick_l 0 (older ++ newer) (range_with_len 5 16) }
{
    older.shuffle(
        newer,
        [5, 6, 7, 8, 9, 10, 11, 12, 13, 14, 15, 16, 17, 18, 19, 20],
    )
}

// From byte 13 on.
#[inline(always)]
fn from_13(older: u8x16, newer: u8x16) -> u8x16
    ensures { result ≡ pick_l 0 (older ++ newer) (range_with_len 13 16) }
{
    older.shuffle(
        newer,
        [
            13, 14, 15, 16, 17, 18, 19, 20, 21, 22, 23, 24, 25, 26, 27, 28,
        ],
    )
}

// From byte 15 on.
#[inline(always)]
fn from_15(older: u8x16, newer: u8x16) -> u8x16
    ensures { result ≡ pick_l 0 (older ++ newer) (range_with_len 15 16) }
{
    older.shuffle(
        newer,
        [
            15, 16, 17, 18, 19, 20, 21, 22, 23, 24, 25, 26, 27, 28, 29, 30,
        ],
    )
}
