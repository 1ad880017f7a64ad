// The mask of a scrambled line.
ghost use Rattle.std.specs.Prelude.{◌≡◌, ℕ, ◌+◌, ◌-◌, ◌*◌, ◌/◌, ◌%◌, ◌^◌, ◌<◌, length, slice_index, true};
ghost use Rattle.otu_overhead.specs.Mask.{bits_from, mask};
ghost use Rattle.otn_base.specs.declared.limits.TheConstants.{LINE_FRAME_BYTES};

use frame_geometry::overhead::FAS;
use otn_base::limits::LINE_FRAME_BYTES;

/// The mask of the frames of a scrambled line, 16,320 bytes: 0 over the FAS, then the sequence of the scrambler (G.709
/// clause 11.2), which begins anew in each frame. A frame is sent as its exclusive or with the mask, byte by byte.
pub fn line_mask(into: &mut [u8])
    requires { length into.old ≡ LINE_FRAME_BYTES }
    ensures { into.new ≡ mask true }
{
    put_mask(into);
}

// The same, in its two parts.
fn put_mask(into: &mut [u8])
    requires { length into.old ≡ LINE_FRAME_BYTES }
    ensures fas { (place : ℕ) → place < 6 → slice_index into.new place ≡ 0 }
    ensures behind { (k : ℕ) → k < LINE_FRAME_BYTES - 6 → slice_index into.new (6 + k) ≡ bits_from (8 * k) 8 }
{
    into[..FAS.len()].fill(0);
    put_sequence(&mut into[FAS.len()..]);
}

// The sequence from its first bit on, the first bit of a byte most significant.
fn put_sequence(into: &mut [u8])
    ensures { (k : ℕ) → k < length into.old → slice_index into.new k ≡ bits_from (8 * k) 8 }
{
    let mut register = 0xFFFF_u16;
    for byte in into.iter_mut() {
        *byte = (register >> 8) as u8;
        register = eight_bits_on(register);
    }
}

// The sixteen bits of the sequence that begin eight later.
fn eight_bits_on(register: u16) -> u16
    ensures { (i : ℕ) → register ≡ bits_from i 16 → result ≡ bits_from (i + 8) 16 }
{
    let mut later = register;
    for _bit in 0..8u32 {
        later = one_bit_on(later);
    }
    later
}

// The sixteen bits of the sequence that begin one later: the next bit is the sum of those 1, 3, 12 and 16 before it.
fn one_bit_on(register: u16) -> u16
    ensures { (i : ℕ) → register ≡ bits_from i 16 → result ≡ bits_from (i + 1) 16 }
{
    let sum = bit(register, 0) + bit(register, 2) + bit(register, 11) + bit(register, 15);
    register % 0x8000 * 2 + sum % 2
}

// The bit at a place, the last bit at place 0.
fn bit(register: u16, place: u32) -> u16
    requires { place < 16 }
    ensures value { result ≡ register / 2 ^ place % 2 }
    ensures bound { result < 2 }
{
    (register >> place) % 2
}
