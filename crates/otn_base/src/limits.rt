// The numbers of the formats and the limits of the device, each said once.

/// Rows of a frame (G.709 clause 11).
pub const ROWS: usize = 4;

/// Columns of an OTU2 or OTU3 frame, the FEC field among them (G.709 clause 11.1).
pub const LINE_COLUMNS: usize = 4080;

/// Columns of an ODU frame, which carries a client (G.709 clause 12.1).
pub const CLIENT_COLUMNS: usize = 3824;

/// The last column of a line's frame before the FEC field.
pub const LAST_PAYLOAD_COLUMN: usize = 3824;

/// Columns of overhead in front of the payload of each row (G.709 clauses 15 and 17).
pub const OVERHEAD_COLUMNS: usize = 16;

/// Payload columns of a row of a frame.
pub const PAYLOAD_COLUMNS: usize = 3808;

/// Bytes of a line's frame: four rows of 4,080 columns.
pub const LINE_FRAME_BYTES: usize = 16_320;

/// Bytes of an ODU frame: four rows of 3,824 columns.
pub const CLIENT_FRAME_BYTES: usize = 15_296;

/// Payload bytes of an ODU frame.
pub const CLIENT_PAYLOAD_BYTES: usize = 15_232;

/// Tributary slots of an OPU2, and frames of its multiframe (G.709 clause 19.1.2: 1.25G slots).
pub const OTU2_SLOTS: usize = 8;

/// Tributary slots of an OPU3, and frames of its multiframe (G.709 clause 19.1.3: 1.25G slots).
pub const OTU3_SLOTS: usize = 32;

/// Tributary slots of a line at most, and tributary ports.
pub const MOST_SLOTS: usize = 32;

/// Groups of a slot in a multiframe, P of GMP: its payload bytes (G.709 Annex D).
pub const GROUPS: usize = 15_232;

/// Bytes of an ODU0 in a multiframe at the nominal rate.
pub const NOMINAL: usize = 15_168;

/// Line places of a node, in and out each.
pub const LINES: usize = 4;

/// Client places of a node, in and out each.
pub const CLIENTS: usize = 16;

/// Turns, each of one multiframe, of a plan at most.
pub const MOST_TURNS: usize = 16_384;

/// Frames that `slot` reads at most.
pub const MOST_FRAMES: usize = 131_072;

/// Connections of a plan at most.
pub const MOST_CONNECTIONS: usize = 48;

/// Numbers of a pace list at most.
pub const MOST_PACES: usize = 64;

/// Bytes of a plan's text at most.
pub const MOST_PLAN_BYTES: usize = 1_048_576;

/// Bytes of a packet that is offered to a client at most.
pub const MOST_PACKET: usize = 65_527;

/// Bytes of a packet that is delivered at most.
pub const MOST_DELIVERED: usize = 65_531;

/// Empty lines in a row in a client file at most.
pub const MOST_EMPTY_LINES: usize = 65_536;
