// The bytes of one tributary slot.
ghost use Rattle.std.specs.Prelude.{◌≡◌, ◌/◌, ◌≤◌, length};
ghost use Rattle.odtu_columns.specs.Columns.{slot_row_of};
ghost use Rattle.otn_base.specs.LineSlots.{slots_of};
ghost use Rattle.otn_base.specs.declared.limits.TheConstants.{PAYLOAD_COLUMNS};

use crate::line::take_one;
use frame_geometry::Frame;
use otn_base::LineKind;
use otn_base::limits::LINE_COLUMNS;

/// Writes the bytes of a slot (1 to 8 on an OTU2, 1 to 32 on an OTU3) in a row (1 to 4) of a frame, in the
/// order of their columns (G.709 clause 19.1): 476 of them, or 119.
pub fn slot_row(frame: &Frame<LINE_COLUMNS>, kind: LineKind, slot: u8, row: u32, into: &mut [u8])
    requires slot_low { 1 ≤ slot }
    requires slot_high { slot ≤ slots_of kind }
    requires row_low { 1 ≤ row }
    requires row_high { row ≤ 4 }
    requires size { length into.old ≡ PAYLOAD_COLUMNS / slots_of kind }
    ensures { into.new ≡ slot_row_of (slots_of kind) slot row frame.now }
{
    take_one(kind, frame.payload_row(row), slot, into);
}
