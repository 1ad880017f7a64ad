// The sender's side.
ghost use Rattle.std.specs.Prelude.{◌≡◌, ℕ, ◌<◌, ◌%◌, ◌++◌, ◌^◌, List, []};
ghost use Rattle.std.specs.Int.{to_be_bytes, w64};
ghost use Rattle.gfp_scrambler.specs.BitList.{AreBytes, IsScrambled};
ghost use Rattle.gfp_scrambler.specs.Register.{HasSent, last_bits, scrambled, shifted};

use crate::register::{BELOW_KEY, REGISTER};
use crate::words::{WORD, put_word, word_at};
use std::marker::Model;

/// A scrambler: contracts see its register, the last 43 bits that it sent, the latest the least
/// significant.
#[derive(Drop)]
pub struct Scrambler {
    register: u64,
}

impl Model for Scrambler {
    ghost Value = { ℕ };

    ghost view = { λ s. s.register };

    ghost invariant = { λ s. s.register < 2 ^ 43 };
}

impl Scrambler {
    /// A scrambler that has sent nothing: all bits before the first are 0.
    pub fn new() -> Scrambler
        ensures register { result ≡ 0 }
        ensures nothing { HasSent [] [] result }
    {
        Scrambler { register: 0 }
    }

    /// Scrambles the next bytes in place.
    pub fn scramble(&mut self, bytes: &mut [u8])
        // All bytes since the scrambler was new are one list of bits.
        ensures rule { (plain sent : List ℕ) → HasSent plain sent self.old →
            HasSent (plain ++ bytes.old) (sent ++ bytes.new) self.new }
        ensures bytes { bytes.new ≡ scrambled self.old bytes.old }
        ensures register { self.new ≡ last_bits self.old bytes.new }
    {
        self.register = scramble_from(self.register, bytes);
    }
}

// The register is a parameter, so that the loop keeps it in a processor's register.
fn scramble_from(register: u64, bytes: &mut [u8]) -> u64
    requires { register < 2 ^ 43 }
    ensures bytes { bytes.new ≡ scrambled register bytes.old }
    ensures register { result ≡ last_bits register bytes.new }
    ensures small { result < 2 ^ 43 }
    ensures came { AreBytes bytes.old }
{
    // The last 43 bits of it are the register.
    let mut last = register;
    let mut at = 0;
    while bytes.len() - at >= 2 * WORD {
        let word = word_at(bytes, at);
        put_word(bytes, at, scramble_word(last, word));
        let next = scramble_next(last, word, word_at(bytes, at + WORD));
        put_word(bytes, at + WORD, next);
        last = next;
        at += 2 * WORD;
    }
    while bytes.len() - at >= WORD {
        let sent = scramble_word(last, word_at(bytes, at));
        put_word(bytes, at, sent);
        last = sent;
        at += WORD;
    }
    scramble_bytes(last % REGISTER, &mut bytes[at..])
}

// Eight bytes at once, after bits of which `last` holds the last 43: the first 43 of their bits wait for these alone,
// and the others for the first.
#[inline]
fn scramble_word(last: u64, word: u64) -> u64
    ensures bytes { to_be_bytes w64 result ≡ scrambled (last % 2 ^ 43) (to_be_bytes w64 word) }
    ensures register { result % 2 ^ 43 ≡ last_bits (last % 2 ^ 43) (to_be_bytes w64 result) }
{
    let keyed = word ^ (last << 21);
    keyed ^ (keyed >> 43)
}

// The eight bytes after those of `word`: they wait for `word` with its key, and not for what is sent for it. So two
// words a turn take less time than two turns of one.
#[inline]
fn scramble_next(last: u64, word: u64, next: u64) -> u64
    ensures bytes { let register = last_bits (last % 2 ^ 43) (scrambled (last % 2 ^ 43) (to_be_bytes w64 word)) in
        to_be_bytes w64 result ≡ scrambled register (to_be_bytes w64 next) }
    ensures register { let register = last_bits (last % 2 ^ 43) (scrambled (last % 2 ^ 43) (to_be_bytes w64 word)) in
        result % 2 ^ 43 ≡ last_bits register (to_be_bytes w64 result) }
{
    let keyed = word ^ (last << 21);
    (next ^ (next >> 43)) ^ ((keyed << 21) ^ (keyed >> 22))
}

// The bytes that are no whole word.
fn scramble_bytes(register: u64, bytes: &mut [u8]) -> u64
    requires { register < 2 ^ 43 }
    ensures bytes { bytes.new ≡ scrambled register bytes.old }
    ensures register { result ≡ last_bits register bytes.new }
    ensures small { result < 2 ^ 43 }
{
    let mut last = register;
    for byte in bytes.iter_mut() {
        *byte ^= (last / BELOW_KEY) as u8;
        last = last % BELOW_KEY * 256 + *byte as u64;
    }
    last
}
