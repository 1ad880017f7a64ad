// Words of eight bytes within a slice, the first byte the most significant one.
ghost use Rattle.std.specs.Prelude.{◌≡◌, ◌+◌, ◌≤◌, ◌++◌, take, drop, length};
ghost use Rattle.std.specs.Int.{to_be_bytes, w64};

/// Bytes of a word.
pub const WORD: usize = 8;

/// The word that begins at this place.
#[inline]
pub fn word_at(bytes: &[u8], at: usize) -> u64
    requires { at + 8 ≤ length bytes.now }
    ensures { to_be_bytes w64 result ≡ take 8 (drop at bytes.now) }
{
    u64::from_be_bytes([
        bytes[at],
        bytes[at + 1],
        bytes[at + 2],
        bytes[at + 3],
        bytes[at + 4],
        bytes[at + 5],
        bytes[at + 6],
        bytes[at + 7],
    ])
}

/// Puts a word there.
#[inline]
pub fn put_word(bytes: &mut [u8], at: usize, word: u64)
    requires { at + 8 ≤ length bytes.old }
    ensures { bytes.new ≡ take at bytes.old ++ (to_be_bytes w64 word ++ drop (at + 8) bytes.old) }
{
    bytes[at..at + WORD].copy_from_slice(&word.to_be_bytes());
}
