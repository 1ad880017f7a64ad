// The packet of a line.
ghost use Rattle.std.specs.Prelude.{◌≡◌, ◌≤◌, length, take, MatchOption, Some, None};
ghost use Rattle.packet_text.specs.PacketText.{without_cr, bytes_of_line};

use crate::pairs::decode_digits;

/// Digits of a line at most: those of the longest packet.
pub(crate) const MOST_DIGITS: usize = 131_054;

const CR: u8 = b'\r';

/// Writes the packet of a line to the front of the slice, and says how many bytes it has: none where the line is empty.
/// None where the line is bad; the slice's content is then open.
#[tactic(auto, using(crate::proofs::LineBytes::read_long, crate::proofs::LineBytes::read_odd, crate::proofs::LineBytes::read_none))]
pub(crate) fn read_line(line: &[u8], packet: &mut [u8]) -> Option<usize>
    requires { length packet.old ≡ 65527 }
    ensures { MatchOption result (bytes_of_line line.now ≡ None)
        (λ n. (n ≤ 65527) × (bytes_of_line line.now ≡ Some (take n packet.new))) }
{
    let digits = trimmed(line);
    if digits.len() > MOST_DIGITS || digits.len() % 2 != 0 {
        return None;
    }
    let n = digits.len() / 2;
    if !decode_digits(digits, &mut packet[..n]) {
        return None;
    }
    Some(n)
}

// A line without the CR at its end.
#[tactic(auto, unfolding(crate::specs::PacketText::without_cr))]
fn trimmed(line: &[u8]) -> &[u8]
    ensures { result.now ≡ without_cr line.now }
{
    let n = line.len();
    if n > 0 && line[n - 1] == CR {
        return &line[..n - 1];
    }
    line
}
