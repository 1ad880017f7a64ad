// The payload columns of a row.
ghost use Rattle.std.specs.Prelude.{◌≡◌, ℕ, ◌*◌, ◌≤◌, length};
ghost use Rattle.std.specs.Borrow.{sem, Lends, Array, u8 as byte};
ghost use Rattle.frame_geometry.specs.contracts.frame.Frame.{the_row};
ghost use Rattle.frame_geometry.specs.Places.{IsWidth, payload_row_of, with_payload_row};
ghost use Rattle.frame_geometry.specs.Loans.{after_row_loan};
ghost use Rattle.otn_base.specs.declared.limits.TheConstants.{PAYLOAD_COLUMNS};

use crate::Frame;
use crate::frame::take_over;
use otn_base::limits::{OVERHEAD_COLUMNS, PAYLOAD_COLUMNS};

impl<const COLS: usize> Frame<COLS> {
    /// The payload of a row (1 to 4): the 3,808 bytes of columns 17 to 3824.
    pub fn payload_row(&self, row: u32) -> &[u8]
        requires row_low { 1 ≤ row }
        requires row_high { row ≤ 4 }
        ensures bytes { result.now ≡ payload_row_of COLS row self.now }
        ensures size { length result.now ≡ PAYLOAD_COLUMNS }
    {
        let bytes = self.as_bytes();
        let start = COLS * (row as usize - 1) + OVERHEAD_COLUMNS;
        &bytes[start..start + PAYLOAD_COLUMNS]
    }

    /// The payload of a row (1 to 4), to be written; every other byte stays.
    pub fn payload_row_mut(&mut self, row: u32) -> &mut [u8]
        requires row_low { 1 ≤ row }
        requires row_high { row ≤ 4 }
        ensures* writes_back { sem 𝓛 (Lends (the_row COLS.row) (Array byte 0) self.entry result
            (after_row_loan COLS row self.entry.now)) }
        ensures bytes { result.now ≡ payload_row_of COLS row self.old }
        ensures size { length result.now ≡ PAYLOAD_COLUMNS }
        ensures frame { length self.old ≡ 4 * COLS }
        ensures width { IsWidth COLS }
    {
        take_over(&mut self.bytes, &mut self.shown);
        let bytes = &mut self.bytes;
        let start = COLS * (row as usize - 1) + OVERHEAD_COLUMNS;
        bytes.slice_mut(start..start + PAYLOAD_COLUMNS)
    }
}
