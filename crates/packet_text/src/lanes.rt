// Hex digits and bytes, sixteen at a time.
ghost use Rattle.std.specs.Prelude.{◌≡◌, ◌+◌, ◌*◌, ◌/◌, ◌%◌, ◌<◌, ◌≤◌, ◌++◌, ◌⊎◌, ℕ, true, false, map, bit_and, length, take, drop, slice_index};
ghost use Rattle.hex.specs.Hex.{encode_lower, lower_digits};
ghost use Rattle.packet_text.specs.Steps.DigitMarks.{sixteen, in_turn, bytes_from, byte_of, pair_lane, worth, numeral_worth, letter_worth, AllSmall, HasLarge, IsPair, HasRefused};

use std::simd::prelude::*;

/// Bytes that go together; twice as many digits do.
pub(crate) const BLOCK: usize = 16;

/// Writes the sixteen bytes that 32 digits say from `at` on. Gives `seen` with the bits of the digits' values: a lane
/// is 16 or more once a byte was seen there that is no digit.
#[inline(always)]
pub(crate) fn decode_block(digits: &[u8], bytes: &mut [u8], at: usize, seen: u8x16) -> u8x16
    requires digits { 2 * at + 32 ≤ length digits.now }
    requires bytes { at + 16 ≤ length bytes.old }
    ensures size { length bytes.new ≡ length bytes.old }
    ensures seen { AllSmall result → AllSmall seen }
    ensures here { AllSmall result → (i : ℕ) → at ≤ i → i < at + 16
        → IsPair (slice_index digits.now (2 * i)) (slice_index digits.now (2 * i + 1)) (slice_index bytes.new i) }
    ensures none { HasLarge result → HasLarge seen ⊎ HasRefused digits.now (at + 16) }
    ensures before { (i : ℕ) → i < at → slice_index bytes.new i ≡ slice_index bytes.old i }
{
    let first = values(load(digits, 2 * at));
    let second = values(load(digits, 2 * at + 16));
    joined(first, second).copy_to_slice(&mut bytes[at..]);
    seen | first | second
}

/// Sixteen bytes.
#[inline(always)]
pub(crate) fn load(bytes: &[u8], at: usize) -> u8x16
    requires { at + 16 ≤ length bytes.now }
    ensures { result ≡ sixteen (bytes_from bytes.now at) }
{
    u8x16::from_slice(&bytes[at..])
}

// The values of sixteen digits of either case. For a byte that is no digit it has 16 or more.
#[inline(always)]
fn values(digits: u8x16) -> u8x16
    ensures { result ≡ map worth digits }
{
    numerals(digits).simd_min(letters(digits))
}

// The values of numerals, and 16 or more for another byte. The sum takes '9' to 255 and the byte behind it to 0.
#[inline(always)]
fn numerals(digits: u8x16) -> u8x16
    ensures { result ≡ map numeral_worth digits }
{
    (digits + u8x16::splat(198)).saturating_sub(u8x16::splat(6)) - u8x16::splat(240)
}

// The values of letters from A to F, and 16 or more for another byte. The bit that tells the cases apart is dropped.
#[inline(always)]
fn letters(digits: u8x16) -> u8x16
    ensures { result ≡ map letter_worth digits }
{
    ((digits - u8x16::splat(65)) & u8x16::splat(0xDF)) + u8x16::splat(10)
}

// The bytes that 32 values of digits say, two of them a byte.
#[inline(always)]
fn joined(first: u8x16, second: u8x16) -> u8x16
    ensures { (f : ℕ → ℕ) → first ≡ sixteen f → second ≡ sixteen (λ i. f (16 + i)) → ((i : ℕ) → i < 32 → f i < 16)
        → result ≡ sixteen (λ i. byte_of (f (2 * i)) (f (2 * i + 1))) }
{
    paired(first).shuffle(
        paired(second),
        [0, 2, 4, 6, 8, 10, 12, 14, 16, 18, 20, 22, 24, 26, 28, 30],
    )
}

// What each two values say, in the even lane. As a word they are high + 256 low, so 4,097 times that has 16 high + low
// in its upper half.
#[inline(always)]
fn paired(values: u8x16) -> u8x16
    ensures { (f : ℕ → ℕ) → values ≡ sixteen f
        → result ≡ sixteen (λ i. pair_lane (f (2 * (i / 2))) (f (2 * (i / 2) + 1)) (i % 2)) }
{
    let pairs = u16x8::from_le_bytes(values) * u16x8::splat(0x1001);
    (pairs >> u16x8::splat(8)).to_le_bytes()
}

/// Whether all are below 16.
#[inline(always)]
pub(crate) fn all_small(seen: u8x16) -> bool
    ensures all { result ≡ true → AllSmall seen }
    ensures none { result ≡ false → HasLarge seen }
{
    seen.simd_gt(u8x16::splat(15)).to_bitmask() == 0
}

// What a row has for each byte, by its low four bits.
#[inline(always)]
fn by_low(row: u8x16, digits: u8x16) -> u8x16
    ensures { result ≡ map (λ x. slice_index row (bit_and x 15)) digits }
{
    row.swizzle_dyn(digits & u8x16::splat(15))
}

/// Writes the 32 digits of the sixteen bytes from `at` on, by the digits in order of their value.
#[inline(always)]
pub(crate) fn encode_block(table: u8x16, bytes: &[u8], digits: &mut [u8], at: usize)
    requires table { table ≡ lower_digits }
    requires bytes { at + 16 ≤ length bytes.now }
    requires digits { 2 * at + 32 ≤ length digits.old }
    ensures size { length digits.new ≡ length digits.old }
    ensures here { take (2 * at + 32) digits.new ≡ take (2 * at) digits.old
        ++ encode_lower (take 16 (drop at bytes.now)) }
{
    let these = load(bytes, at);
    let high = by_high(table, these);
    let low = by_low(table, these);
    first_pairs(high, low).copy_to_slice(&mut digits[2 * at..]);
    later_pairs(high, low).copy_to_slice(&mut digits[2 * at + 16..]);
}

// What a row has for each byte, by its high four bits.
#[inline(always)]
fn by_high(row: u8x16, bytes: u8x16) -> u8x16
    ensures { result ≡ map (λ x. slice_index row (x / 16)) bytes }
{
    row.swizzle_dyn(bytes >> u8x16::splat(4))
}

// Lanes 0 to 7 of two vectors, in turn.
#[inline(always)]
fn first_pairs(high: u8x16, low: u8x16) -> u8x16
    ensures { (f g : ℕ → ℕ) → high ≡ sixteen f → low ≡ sixteen g → result ≡ in_turn f g }
{
    high.shuffle(
        low,
        [0, 16, 1, 17, 2, 18, 3, 19, 4, 20, 5, 21, 6, 22, 7, 23],
    )
}

// Lanes 8 to 15.
#[inline(always)]
fn later_pairs(high: u8x16, low: u8x16) -> u8x16
    ensures { (f g : ℕ → ℕ) → high ≡ sixteen f → low ≡ sixteen g → result ≡ in_turn (λ i. f (8 + i)) (λ i. g (8 + i)) }
{
    high.shuffle(
        low,
        [8, 24, 9, 25, 10, 26, 11, 27, 12, 28, 13, 29, 14, 30, 15, 31],
    )
}
