// The limits of a network's file. Its text has at most as many bytes as that of a plan.

/// Nodes of a network at most.
pub const MOST_NODES: usize = 1_024;

/// Fibres of a network at most.
pub const MOST_FIBRES: usize = 4_096;

/// Cuts of a network at most.
pub const MOST_CUTS: usize = 4_096;
