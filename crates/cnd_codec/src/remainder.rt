// The bytes JC4 to JC6, said and heard.

ghost use Rattle.std.specs.Prelude.{◌≡◌, ◌≢◌, ◌⊎◌, ◌↔◌, ℕ, ◌%◌, ◌<◌, ◌≤◌, IsNone, IfSome, slice_index};
ghost use Rattle.crc_small.specs.LongDivision.{crc5_of};
ghost use Rattle.cnd_codec.specs.Remainder.{says_cnd, hears_cnd, cnd_in};

use crc_small::crc5;

/// The bytes JC4, JC5 and JC6 that carry the remainder `d` (G.709 Annex D). Bits 1 to 3 of each are reserved,
/// and written 0.
pub fn say_d(d: u16) -> [u8; 3]
    requires { d < 1024 }
    ensures said { result ≡ says_cnd d }
    ensures heard_back { (m : ℕ) → d < m → hears_cnd m (slice_index result 0) (slice_index result 1)
        (slice_index result 2) ≡ Some d }
{
    let jc4 = (d / 32) as u8;
    let jc5 = (d % 32) as u8;
    [jc4, jc5, crc5(d)]
}

/// The remainder that the bytes JC4, JC5 and JC6 carry (G.709 Annex D) to a tributary of `m` slots, where it is
/// less than `m`. The reserved bits 1 to 3 of each are ignored.
pub fn hear_d(bytes: [u8; 3], m: u32) -> Option<u16>
    ensures heard { result ≡ hears_cnd m (slice_index bytes 0) (slice_index bytes 1) (slice_index bytes 2) }
    ensures damaged { let d = cnd_in (slice_index bytes 0) (slice_index bytes 1) in
        IsNone result ↔ ((slice_index bytes 2 % 32 ≢ crc5_of d) ⊎ (m ≤ d)) }
{
    let d = bytes[0] as u16 % 32 * 32 + bytes[1] as u16 % 32;
    if bytes[2] % 32 == crc5(d) && (d as u32) < m {
        Some(d)
    } else {
        None
    }
}
