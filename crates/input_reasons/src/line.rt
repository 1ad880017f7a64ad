// Whether a file looks like a line.
ghost use Rattle.std.specs.Prelude.{◌≤◌, ◌<◌, ◌+◌, ◌*◌, ◌↔◌, IsTrue};

use otn_base::Memory;
use otn_base::limits::LINE_FRAME_BYTES;
use port_base::{Reading, Source, read_whole};
use std::alloc::{AllocError, Global};

/// The most frames that are looked at.
const MOST_FRAMES: u32 = 32;

/// Frame alignment.
const FAS: [u8; 6] = [0xF6, 0xF6, 0xF6, 0x28, 0x28, 0x28];

/// What is seen of the first frames of a file.
#[derive(Clone, Copy, Debug, PartialEq, Eq)]
pub struct LineLook {
    /// How many frames were looked at, 32 at most.
    pub frames: u32,
    /// How many of them begin with a FAS, and whether the first does.
    pub aligned: u32,
    pub begins: bool,
    /// Behind how many of them the MFAS rises by one, and behind how many it falls by one.
    pub rises: u32,
    pub falls: u32,
    /// The byte of the first frame at which a FAS stands first.
    pub found: Option<usize>,
}

impl LineLook {
    /// Whether three of four frames, or more, lack a FAS: no line, or one that does not begin at a frame.
    pub fn is_no_line(&self) -> bool
        ensures { IsTrue result ↔ ((0 < self.now.frames) × (4 * self.now.aligned ≤ self.now.frames)) }
    {
        self.frames > 0 && 4 * u64::from(self.aligned) <= u64::from(self.frames)
    }

    /// Whether the MFAS mostly counts down, as on a scrambled line that is read as a plain one: at three of four frames
    /// that have one before them, or more.
    pub fn counts_down(&self) -> bool
        ensures { IsTrue result ↔ ((1 < self.now.frames) × (3 * self.now.frames ≤ 4 * self.now.falls + 3)) }
    {
        self.frames > 1 && is_mostly(self.falls, self.frames)
    }

    /// Whether the MFAS mostly counts up, as on a plain line: likewise.
    pub fn counts_up(&self) -> bool
        ensures { IsTrue result ↔ ((1 < self.now.frames) × (3 * self.now.frames ≤ 4 * self.now.rises + 3)) }
    {
        self.frames > 1 && is_mostly(self.rises, self.frames)
    }
}

// Whether so many are three of four, or more, of one less than the frames.
fn is_mostly(many: u32, frames: u32) -> bool
    ensures { IsTrue result ↔ (3 * frames ≤ 4 * many + 3) }
{
    3 * u64::from(frames) <= 4 * u64::from(many) + 3
}

/// Looks at the first frames of a file.
pub fn look_at_line<S: Source>(alloc: Global, source: &mut S) -> Result<LineLook, Memory> {
    let mut look = LineLook {
        frames: 0,
        aligned: 0,
        begins: false,
        rises: 0,
        falls: 0,
        found: None,
    };
    let mut frame = frame_room(alloc)?;
    let mut before = None;
    for _ in 0..MOST_FRAMES {
        let (reading, _) = read_whole(source, &mut frame);
        if reading != Reading::Full {
            break;
        }
        before = Some(take(&mut look, &frame, before));
    }
    Ok(look)
}

// Room for a frame.
fn frame_room(alloc: Global) -> Result<Vec<u8>, AllocError> {
    vec![in alloc; 0; LINE_FRAME_BYTES]
}

// Looks at a frame, which comes behind one with this MFAS, and says its own.
fn take(look: &mut LineLook, frame: &[u8], before: Option<u8>) -> u8 {
    let is_aligned = frame.starts_with(&FAS);
    let own = frame.get(6).copied().unwrap_or(0);
    if look.frames == 0 {
        look.begins = is_aligned;
        look.found = frame.windows(6).position(|six| six == FAS.as_slice());
    }
    look.frames = look.frames.saturating_add(1);
    look.aligned = look.aligned.saturating_add(u32::from(is_aligned));
    if let Some(before) = before {
        look.rises = look
            .rises
            .saturating_add(u32::from(own == before.wrapping_add(1)));
        look.falls = look
            .falls
            .saturating_add(u32::from(own == before.wrapping_sub(1)));
    }
    own
}
