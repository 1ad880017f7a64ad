// Kinds of tributaries, and the names of the ports of a node.

/// What a tributary is on a line (G.709 clause 12.2).
#[derive(Clone, Copy, Debug, PartialEq, Eq)]
pub enum Kind {
    /// An ODU0, which takes one tributary slot.
    Odu0,
    /// An ODUflex, which takes one slot or more.
    Flex,
}

/// A port of a node: a line, 0 to 3, or a client, 0 to 15, in or out.
#[derive(Clone, Copy, Debug, PartialEq, Eq)]
pub enum PortName {
    LineIn(u8),
    LineOut(u8),
    ClientIn(u8),
    ClientOut(u8),
}
