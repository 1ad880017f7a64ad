// The payload bytes of a slot, gathered out of the bytes of frames.
ghost use Rattle.std.specs.Prelude.{◌≡◌, ◌*◌, ◌/◌, ◌≤◌, length, take};
ghost use Rattle.otn_base.specs.declared.limits.TheConstants.{GROUPS, LINE_FRAME_BYTES, OTU2_SLOTS};
ghost use Rattle.line_commands.specs.SlotReport.{slot_bytes, slot_bytes_until};
ghost use Rattle.line_commands.specs.declared.frames_at_hand.TheConstants.{FRAMES_AT_A_TIME};

use lane_kernels::take_slot;
use otn_base::limits::{
    GROUPS, LINE_COLUMNS, LINE_FRAME_BYTES, OTU2_SLOTS, OVERHEAD_COLUMNS, PAYLOAD_COLUMNS, ROWS,
};

/// Frames that are gathered at a time, at most.
pub(crate) const FRAMES_AT_A_TIME: usize = 8;

/// Bytes of a slot in an OTU2 frame.
pub(crate) const SLOT_BYTES: usize = GROUPS / OTU2_SLOTS;

// Bytes of a slot in a row of an OTU2 frame.
const ROW_BYTES: usize = PAYLOAD_COLUMNS / OTU2_SLOTS;

/// Gathers the slot's bytes of the whole frames among these bytes, so many frames at most and 8 at most, one frame
/// after the other, and answers how many frames they are. What is behind them is open.
pub(crate) fn gather_frames(bytes: &[u8], slot: u8, most: usize, into: &mut [u8]) -> usize
    requires low { 1 ≤ slot }
    requires high { slot ≤ OTU2_SLOTS }
    requires room { length into.old ≡ FRAMES_AT_A_TIME * (GROUPS / OTU2_SLOTS) }
    ensures few { result ≤ FRAMES_AT_A_TIME }
    ensures most { result ≤ most }
    ensures whole { result * LINE_FRAME_BYTES ≤ length bytes.now }
    ensures gathered { take (result * (GROUPS / OTU2_SLOTS)) into.new ≡ slot_bytes_until slot bytes.now result }
{
    let whole = bytes.len() / LINE_FRAME_BYTES;
    let frames = whole.min(most).min(FRAMES_AT_A_TIME);
    for f in 0..frames {
        let start = f * LINE_FRAME_BYTES;
        let to = f * SLOT_BYTES;
        gather_slot(
            &bytes[start..start + LINE_FRAME_BYTES],
            slot,
            &mut into[to..to + SLOT_BYTES],
        );
    }
    frames
}

/// Puts the slot's bytes of the four rows of a frame one after another.
pub(crate) fn gather_slot(frame: &[u8], slot: u8, into: &mut [u8])
    requires low { 1 ≤ slot }
    requires high { slot ≤ OTU2_SLOTS }
    requires frame { length frame.now ≡ LINE_FRAME_BYTES }
    requires room { length into.old ≡ GROUPS / OTU2_SLOTS }
    ensures { into.new ≡ slot_bytes slot frame.now }
{
    for row in 0..ROWS {
        let start = row * LINE_COLUMNS + OVERHEAD_COLUMNS;
        let to = row * ROW_BYTES;
        take_slot::<OTU2_SLOTS>(
            &frame[start..start + PAYLOAD_COLUMNS],
            slot,
            &mut into[to..to + ROW_BYTES],
        );
    }
}
