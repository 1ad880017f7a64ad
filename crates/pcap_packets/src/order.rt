// The byte order of a capture's numbers.
ghost use Rattle.std.specs.Prelude.{◌≡◌, ◌+◌, ◌≤◌, length};
ghost use Rattle.pcap_packets.specs.CaptureText.{half_in, number_in};

/// Which byte of a number comes first.
#[derive(Clone, Copy, PartialEq, Eq)]
pub(crate) enum ByteOrder {
    LowFirst,
    HighFirst,
}

/// The number in the two bytes there.
pub(crate) fn half_at(order: ByteOrder, bytes: &[u8], at: usize) -> u16
    requires { at + 2 ≤ length bytes.now }
    ensures { result ≡ half_in order bytes.now at }
{
    let mut two = [0; 2];
    two.copy_from_slice(&bytes[at..at + 2]);
    match order {
        ByteOrder::LowFirst => u16::from_le_bytes(two),
        ByteOrder::HighFirst => u16::from_be_bytes(two),
    }
}

/// The number in the four bytes there.
#[tactic(auto, unfolding(crate::specs::CaptureText::number_in))]
pub(crate) fn number_at(order: ByteOrder, bytes: &[u8], at: usize) -> u32
    requires { at + 4 ≤ length bytes.now }
    ensures { result ≡ number_in order bytes.now at }
{
    let mut four = [0; 4];
    four.copy_from_slice(&bytes[at..at + 4]);
    match order {
        ByteOrder::LowFirst => u32::from_le_bytes(four),
        ByteOrder::HighFirst => u32::from_be_bytes(four),
    }
}
