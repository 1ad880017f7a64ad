// The two sides of a node.

/// On which side of a node a line is.
#[derive(Clone, Copy, Debug, PartialEq, Eq)]
pub enum Side {
    /// A line input: the node takes from the line.
    In,
    /// A line output: the node puts on the line.
    Out,
}
