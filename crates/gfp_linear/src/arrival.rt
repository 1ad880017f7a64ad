// What arrives on a channel.

/// What arrives on a channel with a linear GFP frame (G.7041 clause 6.1.2.1.3.2). The first number is the channel
/// identifier (CID), 0 to 255.
pub enum Arrival<'a> {
    /// A packet of at least one byte.
    Packet(u8, &'a [u8]),
    /// The channel's client is lost (G.7041 clause 6.3.3).
    Loss(u8),
}
