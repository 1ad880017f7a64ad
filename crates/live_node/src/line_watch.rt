// How many frames of an input line the next turn looks at. It says when a turn may be done, and nothing of what the
// turn does.
use multiframe::starts;
use otn_base::limits::{LINE_COLUMNS, LINE_FRAME_BYTES};
use otn_base::{LineKind, Memory};
use std::alloc::Global;

// Where the MFAS stands in a frame: row 1, column 7.
const MFAS_PLACE: usize = 6;

// What the mask of a scrambled line makes of that byte: it is the first that is masked.
const MFAS_MASK: u8 = 0xFF;

/// What the next turn of a line looks at: the MFAS bytes of the frames that were handed in and that no turn has used,
/// and whether the line hunts.
#[derive(Drop)]
pub(crate) struct LineWatch {
    kind: LineKind,
    mask: u8,
    hunts: bool,
    // The MFAS that is expected in the first frame, once the line is locked.
    expected: u8,
    waiting: Vec<u8>,
    closed: bool,
}

// A turn that may be done: how many frames it passes over, and whether it locks behind them.
#[derive(Clone, Copy)]
struct Due {
    lead_in: usize,
    locks: bool,
}

impl LineWatch {
    /// A line of this kind, plain or scrambled, before its first turn.
    pub(crate) fn new(alloc: Global, kind: LineKind, scrambled: bool) -> LineWatch {
        LineWatch {
            kind,
            mask: if scrambled { MFAS_MASK } else { 0 },
            hunts: true,
            expected: 0,
            waiting: Vec::new(alloc),
            closed: false,
        }
    }

    /// Whole frames come.
    pub(crate) fn note(&mut self, frames: &[u8]) -> Result<(), Memory> {
        for frame in frames.chunks_exact(LINE_FRAME_BYTES) {
            if let Some(byte) = frame.get(MFAS_PLACE) {
                self.waiting.push(*byte ^ self.mask)?;
            }
        }
        Ok(())
    }

    /// The last whole frames that came are not to count.
    pub(crate) fn take_back(&mut self, frames: &[u8]) {
        let count = frames.len() / LINE_FRAME_BYTES;
        let rest = self.waiting.len().saturating_sub(count);
        self.waiting.truncate(rest);
    }

    /// No more frames come.
    pub(crate) fn close(&mut self) {
        self.closed = true;
    }

    /// Whether more may come.
    pub(crate) fn is_open(&self) -> bool {
        !self.closed
    }

    /// Whether the next turn may be done: it looks at no frame that was not handed in, or no more come.
    pub(crate) fn covers_turn(&self) -> bool {
        self.closed || self.due().is_some()
    }

    /// A turn is done.
    pub(crate) fn end_turn(&mut self) {
        let Some(due) = self.due() else {
            return;
        };
        let size = self.kind.slots() as usize;
        if due.locks {
            let first = due.lead_in.saturating_add(size);
            self.lock(due.lead_in, size);
            self.let_go(first);
        } else {
            self.let_go(due.lead_in);
        }
    }

    // What the turn does, where the frames for it are there.
    fn due(&self) -> Option<Due> {
        let size = self.kind.slots() as usize;
        if !self.hunts {
            return self.due_at(0, size);
        }
        for n in 0..size {
            let mfas = *self.waiting.get(n)?;
            if mfas % self.kind.slots() == 0 {
                let next = *self.waiting.get(n.saturating_add(1))?;
                if starts(mfas, next, self.kind) {
                    return self.due_at(n, size);
                }
            }
        }
        Some(Due {
            lead_in: size,
            locks: false,
        })
    }

    // A multiframe that begins behind so many frames, where all of it is there.
    fn due_at(&self, lead_in: usize, size: usize) -> Option<Due> {
        if self.waiting.len() < lead_in.saturating_add(size) {
            return None;
        }
        Some(Due {
            lead_in,
            locks: true,
        })
    }

    // Locks on the multiframe behind these frames, and stays locked where it is not lost.
    fn lock(&mut self, lead_in: usize, size: usize) {
        if self.hunts {
            self.expected = match self.waiting.get(lead_in) {
                Some(mfas) => *mfas,
                None => 0,
            };
        }
        let mut wrong = 0usize;
        let mut expected = self.expected;
        for mfas in self.waiting.iter().skip(lead_in).take(size) {
            if *mfas != expected {
                wrong = wrong.saturating_add(1);
            }
            expected = expected.wrapping_add(1);
        }
        self.hunts = wrong > size / 2;
        self.expected = expected;
    }

    // Lets go of the first so many frames.
    fn let_go(&mut self, count: usize) {
        let count = count.min(self.waiting.len());
        let rest = self.waiting.len() - count;
        self.waiting.copy_within(count.., 0);
        self.waiting.truncate(rest);
    }
}

/// Whether these bytes are whole frames.
pub(crate) fn are_frames(bytes: &[u8]) -> bool {
    bytes.len() % (4 * LINE_COLUMNS) == 0
}
