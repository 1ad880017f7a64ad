// The bits of the former number that are inverted for a change, the most significant of 14 first.

use otn_base::limits::GROUPS;

/// The greatest number that a message carries: every group of a multiframe is data.
pub(crate) const MOST: u16 = GROUPS as u16;

/// For one more: `IUIUIUIUIUIUIU`.
pub(crate) const ONE_MORE: u16 = 0b10_1010_1010_1010;

/// For one less: `UIUIUIUIUIUIUI`.
pub(crate) const ONE_LESS: u16 = 0b01_0101_0101_0101;

/// For two more: `UIIUUIIUUIIUUI`.
pub(crate) const TWO_MORE: u16 = 0b01_1001_1001_1001;

/// For two less: `IUUIIUUIIUUIIU`.
pub(crate) const TWO_LESS: u16 = 0b10_0110_0110_0110;
