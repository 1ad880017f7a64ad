// The overhead places of a frame that the device reads or writes, each by its row and its columns.

/// The frame alignment signal, in columns 1 to 6 of row 1 (G.709 clause 15.6.2.1).
pub const FAS: [u8; 6] = [0xF6, 0xF6, 0xF6, 0x28, 0x28, 0x28];

/// The row of frame and multiframe alignment and of section monitoring.
pub const SECTION_ROW: u32 = 1;

/// The column of the first byte of the FAS, in row 1.
pub const FAS_COLUMN: u32 = 1;

/// The column of the multiframe alignment signal, in row 1 (G.709 clause 15.6.2.2).
pub const MFAS_COLUMN: u32 = 7;

/// The columns of the trail trace identifier and of the BIP-8 of section monitoring, in row 1
/// (G.709 clause 15.7.2.1).
pub const SM_TTI_COLUMN: u32 = 8;

pub const SM_BIP8_COLUMN: u32 = 9;

/// The row of path monitoring, and the columns of its trail trace identifier, of its BIP-8, and of
/// the byte whose bits 6 to 8 are STAT (G.709 clause 15.8.2.1).
pub const PM_ROW: u32 = 3;

pub const PM_TTI_COLUMN: u32 = 10;

pub const PM_BIP8_COLUMN: u32 = 11;

pub const STAT_COLUMN: u32 = 12;

/// The first column of the OPU: overhead in columns 15 and 16, then payload (G.709 clause 12.1).
pub const OPU_COLUMN: u32 = 15;

/// The column of JC4, JC5 and JC6 in rows 1 to 3, and that of JC1, JC2 and JC3 (G.709 clause 19.4).
pub const REMAINDER_COLUMN: u32 = 15;

pub const NUMBER_COLUMN: u32 = 16;

/// The place of the payload structure identifier (G.709 clause 15.9.2.1).
pub const PSI_ROW: u32 = 4;

pub const PSI_COLUMN: u32 = 15;

/// The first payload column (G.709 clause 17).
pub const PAYLOAD_COLUMN: u32 = 17;

/// The first column of the FEC field of a line's frame (G.709 clause 11.1).
pub const FEC_COLUMN: u32 = 3825;
