// The receiver's side.
ghost use Rattle.std.specs.Prelude.{◌≡◌, ℕ, ◌-◌, ◌<◌, ◌≤◌, ◌%◌, ◌++◌, ◌^◌, List, [], length, take};
ghost use Rattle.std.specs.Int.{to_be_bytes, w64};
ghost use Rattle.gfp_scrambler.specs.BitList.{AreBytes, IsDescrambled};
ghost use Rattle.gfp_scrambler.specs.Register.{HasTaken, descrambled, last_bits, shifted};

use crate::register::{BELOW_KEY, REGISTER};
use crate::words::{WORD, put_word, word_at};
use std::marker::Model;

/// A descrambler: contracts see its register, the last 43 bits that came, the latest the least
/// significant.
#[derive(Drop)]
pub struct Descrambler {
    register: u64,
}

impl Model for Descrambler {
    ghost Value = { ℕ };

    ghost view = { λ s. s.register };

    ghost invariant = { λ s. s.register < 2 ^ 43 };
}

impl Descrambler {
    /// A descrambler that nothing came to: all bits before the first are 0.
    pub fn new() -> Descrambler
        ensures register { result ≡ 0 }
        ensures nothing { HasTaken [] [] result }
    {
        Descrambler { register: 0 }
    }

    /// Descrambles the next bytes in place.
    pub fn descramble(&mut self, bytes: &mut [u8])
        // All bytes since the descrambler was new are one list of bits.
        ensures rule { (got plain : List ℕ) → HasTaken got plain self.old →
            HasTaken (got ++ bytes.old) (plain ++ bytes.new) self.new }
        ensures bytes { bytes.new ≡ descrambled self.old bytes.old }
        ensures register { self.new ≡ last_bits self.old bytes.old }
    {
        self.register = descramble_from(self.register, bytes);
    }

    /// Descrambles the next bytes into as many others; they stay as they came.
    pub fn descramble_into(&mut self, got: &[u8], plain: &mut [u8])
        requires size { length plain.old ≡ length got.now }
        // All bytes since the descrambler was new are one list of bits.
        ensures rule { (earlier before : List ℕ) → HasTaken earlier before self.old →
            HasTaken (earlier ++ got.now) (before ++ plain.new) self.new }
        ensures bytes { plain.new ≡ descrambled self.old got.now }
        ensures register { self.new ≡ last_bits self.old got.now }
    {
        self.register = descramble_over(self.register, got, plain);
    }
}

// The register is a parameter, so that the loop keeps it in a processor's register.
fn descramble_from(register: u64, bytes: &mut [u8]) -> u64
    requires { register < 2 ^ 43 }
    ensures bytes { bytes.new ≡ descrambled register bytes.old }
    ensures register { result ≡ last_bits register bytes.old }
    ensures small { result < 2 ^ 43 }
    ensures came { AreBytes bytes.old }
{
    let mut last = register;
    let mut at = 0;
    while bytes.len() - at >= WORD {
        let got = word_at(bytes, at);
        put_word(bytes, at, descramble_word(last, got));
        last = got % REGISTER;
        at += WORD;
    }
    descramble_bytes(last, &mut bytes[at..])
}

// The same into as many other bytes.
fn descramble_over(register: u64, got: &[u8], plain: &mut [u8]) -> u64
    requires size { length plain.old ≡ length got.now }
    requires small { register < 2 ^ 43 }
    ensures bytes { plain.new ≡ descrambled register got.now }
    ensures register { result ≡ last_bits register got.now }
    ensures small { result < 2 ^ 43 }
    ensures came { AreBytes got.now }
{
    let mut last = register;
    let mut at = 0;
    while got.len() - at >= WORD {
        let word = word_at(got, at);
        put_word(plain, at, descramble_word(last, word));
        last = word % REGISTER;
        at += WORD;
    }
    if at == got.len() || got.len() < 2 * WORD {
        return descramble_end(last, &got[at..], &mut plain[at..]);
    }
    descramble_last(got, plain)
}

// Eight bytes at once: the first 43 of their bits wait for the register, and the others for these as they came.
#[inline]
fn descramble_word(register: u64, word: u64) -> u64
    requires { register < 2 ^ 43 }
    ensures bytes { to_be_bytes w64 result ≡ descrambled register (to_be_bytes w64 word) }
    ensures register { word % 2 ^ 43 ≡ last_bits register (to_be_bytes w64 word) }
{
    word ^ (register << 21) ^ (word >> 43)
}

// The bytes that are no whole word.
fn descramble_bytes(register: u64, bytes: &mut [u8]) -> u64
    requires { register < 2 ^ 43 }
    ensures bytes { bytes.new ≡ descrambled register bytes.old }
    ensures register { result ≡ last_bits register bytes.old }
    ensures small { result < 2 ^ 43 }
{
    let mut last = register;
    for byte in bytes.iter_mut() {
        let got = *byte;
        *byte = got ^ (last / BELOW_KEY) as u8;
        last = last % BELOW_KEY * 256 + got as u64;
    }
    last
}

// The same into as many other bytes.
fn descramble_end(register: u64, got: &[u8], plain: &mut [u8]) -> u64
    requires size { length plain.old ≡ length got.now }
    requires small { register < 2 ^ 43 }
    ensures bytes { plain.new ≡ descrambled register got.now }
    ensures register { result ≡ last_bits register got.now }
    ensures small { result < 2 ^ 43 }
{
    let mut last = register;
    for (i, byte) in got.iter().enumerate() {
        plain[i] = *byte ^ (last / BELOW_KEY) as u8;
        last = last % BELOW_KEY * 256 + *byte as u64;
    }
    last
}

// The last eight bytes of sixteen or more, where those before them stand plain. The register before them is in the
// eight bytes before them, so it is of no account how many of the last eight stand plain already.
fn descramble_last(got: &[u8], plain: &mut [u8]) -> u64
    requires size { length plain.old ≡ length got.now }
    requires two { 16 ≤ length got.now }
    ensures bytes { (register : ℕ) → register < 2 ^ 43
        → take (length got.now - 8) plain.old ≡ descrambled register (take (length got.now - 8) got.now)
        → plain.new ≡ descrambled register got.now }
    ensures register { (register : ℕ) → register < 2 ^ 43 → result ≡ last_bits register got.now }
    ensures small { result < 2 ^ 43 }
{
    let at = got.len() - WORD;
    let before = word_at(got, at - WORD);
    let word = word_at(got, at);
    put_word(plain, at, descramble_word(before % REGISTER, word));
    word % REGISTER
}
