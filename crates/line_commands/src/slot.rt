// The command `slot`: the payload bytes of one tributary slot of each whole frame of a line.
ghost use Rattle.std.specs.Prelude.{◌≡◌, ◌≢◌, ◌*◌, ◌/◌, ◌<◌, ◌≤◌, ℕ, Some, length};
ghost use Rattle.otn_base.specs.declared.limits.TheConstants.{GROUPS, LINE_FRAME_BYTES, OTU2_SLOTS};
ghost use Rattle.port_base.specs.InPlace.{in_view};
ghost use Rattle.port_base.specs.Views.{Dead};
ghost use Rattle.port_base.specs.PortViews.{sink_view};
ghost use Rattle.command_base.specs.Ends.{ReportAfter};
ghost use Rattle.command_base.specs.Steps.Ends.{step_of};
ghost use Rattle.port_base.specs.AtHand.{place_at_hand};
ghost use Rattle.line_commands.specs.SlotReport.{slot_bytes_until};
ghost use Rattle.line_commands.specs.SlotRuns.{SlotEnded};
ghost use Rattle.line_commands.specs.Steps.SlotRuns.{FramesStep, SlotStep, SlotWritten, progress_of, end_of};
ghost use Rattle.line_commands.specs.declared.frames_at_hand.TheConstants.{FRAMES_AT_A_TIME};

use crate::frames_at_hand::{FRAMES_AT_A_TIME, SLOT_BYTES, gather_frames, gather_slot};
use command_base::ask_for_more;
use frame_geometry::Frame;
use otn_base::limits::{LINE_COLUMNS, LINE_FRAME_BYTES, MOST_FRAMES};
use port_base::{Ended, InPlaceOf, Reading, Sink, Source, Written, write_counted, write_whole};
use std::alloc::Global;

// What a step came to: so many frames are written, or the command ends.
enum Progress {
    Frames(usize),
    Stopped(Ended),
}

/// Writes the 1,904 payload bytes of the slot, 1 to 8, row by row, of each whole frame that the
/// line gives, of 131,072 frames at most, and then asks the line for one byte more. A write that fails
/// ends it at once. Frames that the line has at hand go eight at a time at most, by one write.
pub fn write_slot<I: Source, K: Sink>(
    alloc: Global,
    slot: u8,
    line: &mut InPlaceOf<I>,
    report: &mut K,
) -> Ended
    requires low { 1 ≤ slot }
    requires high { slot ≤ OTU2_SLOTS }
    ensures memory { result ≡ Ended.Memory → (line.new ≡ line.old) × (report.new ≡ report.old) }
    ensures run { result ≢ Ended.Memory → SlotEnded slot (in_view I.Source line.old) (in_view I.Source line.new)
        (K.got report.old) (K.got report.new) result }
    ensures report { ReportAfter (Some result) (sink_view K.Sink report.old) (sink_view K.Sink report.new) }
{
    let Ok(mut frame) = Frame::new(alloc) else {
        return Ended::Memory;
    };
    if let InPlaceOf::Dead(..) = line {
        return Ended::Cut;
    }
    write_frames(alloc, &mut frame, slot, line, report)
}

// The same, with a frame to read into and a line that is not dead.
fn write_frames<I: Source, K: Sink>(
    alloc: Global,
    frame: &mut Frame<LINE_COLUMNS>,
    slot: u8,
    line: &mut InPlaceOf<I>,
    report: &mut K,
) -> Ended
    requires low { 1 ≤ slot }
    requires high { slot ≤ OTU2_SLOTS }
    requires alive { (in_view I.Source line.old).state ≢ Dead }
    ensures run { SlotEnded slot (in_view I.Source line.old) (in_view I.Source line.new) (K.got report.old)
        (K.got report.new) result }
    ensures report { ReportAfter (Some result) (sink_view K.Sink report.old) (sink_view K.Sink report.new) }
{
    let mut bytes = [0; FRAMES_AT_A_TIME * SLOT_BYTES];
    let mut left = MOST_FRAMES;
    while left > 0 {
        match write_some(alloc, frame, &mut bytes, slot, left, line, report) {
            Progress::Frames(frames) => left -= frames,
            Progress::Stopped(ended) => return ended,
        }
    }
    ask_for_more(line)
}

// Some frames, so many at most: of the whole frames at hand 8 at most, by one write. Where there are none, one frame
// that is read.
fn write_some<I: Source, K: Sink>(
    alloc: Global,
    frame: &mut Frame<LINE_COLUMNS>,
    bytes: &mut [u8],
    slot: u8,
    most: usize,
    line: &mut InPlaceOf<I>,
    report: &mut K,
) -> Progress
    requires low { 1 ≤ slot }
    requires high { slot ≤ OTU2_SLOTS }
    requires room { length bytes.old ≡ FRAMES_AT_A_TIME * (GROUPS / OTU2_SLOTS) }
    requires most { 0 < most }
    requires alive { (in_view I.Source line.old).state ≢ Dead }
    ensures step { FramesStep slot most (in_view I.Source line.old) (in_view I.Source line.new) (K.got report.old)
        (K.got report.new) result }
    ensures report { ReportAfter (end_of result) (sink_view K.Sink report.old) (sink_view K.Sink report.new) }
{
    line.look_ahead(alloc);
    let frames = gather_frames(line.peek(), slot, most, bytes);
    if frames == 0 {
        return after_frame(write_frame(frame, slot, line, report));
    }
    write_gathered(&bytes[..frames * SLOT_BYTES], frames, line, report)
}

// Writes the slot's bytes of so many frames at hand, and goes past these frames. Where the write fails, it goes past
// those up to the one in which it failed.
fn write_gathered<I: Source, K: Sink>(
    bytes: &[u8],
    frames: usize,
    line: &mut InPlaceOf<I>,
    report: &mut K,
) -> Progress
    requires some { 0 < frames }
    requires few { frames ≤ FRAMES_AT_A_TIME }
    requires hand { frames * LINE_FRAME_BYTES ≤ length (place_at_hand I.Source line.old) }
    requires size { length bytes.now ≡ frames * (GROUPS / OTU2_SLOTS) }
    ensures step { (slot most : ℕ) → 1 ≤ slot → slot ≤ OTU2_SLOTS → frames ≤ most
        → bytes.now ≡ slot_bytes_until slot (place_at_hand I.Source line.old) frames
        → FramesStep slot most (in_view I.Source line.old) (in_view I.Source line.new) (K.got report.old)
        (K.got report.new) result }
    ensures report { ReportAfter (end_of result) (sink_view K.Sink report.old) (sink_view K.Sink report.new) }
{
    let (written, count) = write_counted(report, bytes);
    match written {
        Written::Whole => {
            line.pass(frames * LINE_FRAME_BYTES);
            Progress::Frames(frames)
        }
        Written::Lost => {
            line.pass((count / SLOT_BYTES + 1) * LINE_FRAME_BYTES);
            Progress::Stopped(Ended::ReportFault)
        }
    }
}

// One frame: None where the line gave a whole one and its slot is written, else how the command ends.
fn write_frame<I: Source, K: Sink>(
    frame: &mut Frame<LINE_COLUMNS>,
    slot: u8,
    line: &mut InPlaceOf<I>,
    report: &mut K,
) -> Option<Ended>
    requires low { 1 ≤ slot }
    requires high { slot ≤ OTU2_SLOTS }
    requires alive { (in_view I.Source line.old).state ≢ Dead }
    ensures step { SlotStep slot (in_view I.Source line.old) (in_view I.Source line.new) (K.got report.old)
        (K.got report.new) result }
    ensures report { ReportAfter result (sink_view K.Sink report.old) (sink_view K.Sink report.new) }
{
    match line.read_full(frame.as_bytes_mut()) {
        Reading::Full => step_after(write_slot_of(frame, slot, report)),
        Reading::End(0) => Some(Ended::Done),
        Reading::End(_) => Some(Ended::Unfinished),
        Reading::Lost => Some(Ended::Cut),
    }
}

// What comes after one frame.
fn after_frame(ended: Option<Ended>) -> Progress
    ensures { result ≡ progress_of ended }
{
    match ended {
        None => Progress::Frames(1),
        Some(ended) => Progress::Stopped(ended),
    }
}

// What comes after a write.
fn step_after(written: Written) -> Option<Ended>
    ensures { result ≡ step_of written }
{
    match written {
        Written::Whole => None,
        Written::Lost => Some(Ended::ReportFault),
    }
}

// Writes the slot's bytes of a frame.
fn write_slot_of<K: Sink>(frame: &Frame<LINE_COLUMNS>, slot: u8, report: &mut K) -> Written
    requires low { 1 ≤ slot }
    requires high { slot ≤ OTU2_SLOTS }
    ensures written { SlotWritten result slot frame.now (K.got report.old) (K.got report.new) }
    ensures report { ReportAfter (step_of result) (sink_view K.Sink report.old) (sink_view K.Sink report.new) }
{
    let mut bytes = [0; SLOT_BYTES];
    gather_slot(frame.as_bytes(), slot, &mut bytes);
    write_whole(report, &bytes)
}
