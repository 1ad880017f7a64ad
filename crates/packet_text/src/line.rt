// What the next line that counts is.

/// The next packet, the end of the text, a bad line with its number, or a place that died.
#[derive(Clone, Copy, Debug, PartialEq, Eq)]
pub enum Line {
    Packet,
    End,
    Bad(u64),
    Lost,
}
