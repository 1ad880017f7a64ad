// The justification bytes of an ODTU.
ghost use Rattle.std.specs.Prelude.{◌≡◌, ◌≤◌, ℕ, length, slice_index};
ghost use Rattle.frame_geometry.specs.Places.{place_of};
ghost use Rattle.odtu_columns.specs.Message.{message_of};
ghost use Rattle.otn_base.specs.declared.limits.TheConstants.{LINE_COLUMNS, LINE_FRAME_BYTES};

use frame_geometry::Frame;
use frame_geometry::overhead::{NUMBER_COLUMN, REMAINDER_COLUMN};
use otn_base::limits::LINE_COLUMNS;

/// JC1 to JC6 of a frame, in this order (G.709 clause 19.4).
pub fn message(frame: &Frame<LINE_COLUMNS>) -> [u8; 6]
    ensures { result ≡ message_of frame.now }
{
    [
        frame.get(1, NUMBER_COLUMN),
        frame.get(2, NUMBER_COLUMN),
        frame.get(3, NUMBER_COLUMN),
        frame.get(1, REMAINDER_COLUMN),
        frame.get(2, REMAINDER_COLUMN),
        frame.get(3, REMAINDER_COLUMN),
    ]
}

/// Writes JC1 to JC6 of a frame, in this order; every other byte stays.
pub fn put_message(frame: &mut Frame<LINE_COLUMNS>, bytes: [u8; 6])
    ensures size { length frame.new ≡ LINE_FRAME_BYTES }
    ensures message { message_of frame.new ≡ bytes }
    ensures kept { (place : ℕ) → ((row column : ℕ) → 1 ≤ row → row ≤ 3 → 15 ≤ column → column ≤ 16
        → place ≡ place_of LINE_COLUMNS row column → ⊥) → slice_index frame.new place ≡ slice_index frame.old place }
{
    frame.set(1, NUMBER_COLUMN, bytes[0]);
    frame.set(2, NUMBER_COLUMN, bytes[1]);
    frame.set(3, NUMBER_COLUMN, bytes[2]);
    frame.set(1, REMAINDER_COLUMN, bytes[3]);
    frame.set(2, REMAINDER_COLUMN, bytes[4]);
    frame.set(3, REMAINDER_COLUMN, bytes[5]);
}
