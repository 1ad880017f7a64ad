// The digits in front of a line.
ghost use Rattle.std.specs.Prelude.{◌≡◌, ◌≤◌, true, length, take};
ghost use Rattle.pcap_packets.specs.Written.{is_lower_digit, all_lower, digits_in_front};

/// Digits of a line at most: those of 65,531 bytes.
pub(crate) const MOST_DIGITS: usize = 131_062;

// Bytes that are looked at together: 16 go into a register, and short lines have a few of these.
const BLOCK: usize = 32;

/// How many digits, 0 to 9 and a to f, are in front.
pub(crate) fn leading_digits(bytes: &[u8]) -> usize
    ensures bound { result ≤ length bytes.now }
    ensures count { result ≡ digits_in_front bytes.now }
    ensures digits { all_lower (take result bytes.now) ≡ true }
{
    let mut count = leading_blocks(bytes);
    while count < bytes.len() && is_digit(bytes[count]) {
        count += 1;
    }
    count
}

// How many bytes the blocks in front have that are digits alone.
fn leading_blocks(bytes: &[u8]) -> usize
    ensures bound { result ≤ length bytes.now }
    ensures digits { all_lower (take result bytes.now) ≡ true }
{
    let mut count = 0;
    while bytes.len() - count >= BLOCK && all_digits(&bytes[count..count + BLOCK]) {
        count += BLOCK;
    }
    count
}

// Whether all are digits: each is looked at, so that many are at once.
fn all_digits(bytes: &[u8]) -> bool
    ensures { result ≡ all_lower bytes.now }
{
    let mut all = true;
    for byte in bytes {
        all &= is_digit(*byte);
    }
    all
}

fn is_digit(byte: u8) -> bool
    ensures { result ≡ is_lower_digit byte }
{
    matches!(byte, b'0'..=b'9' | b'a'..=b'f')
}
