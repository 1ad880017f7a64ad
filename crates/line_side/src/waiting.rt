// The frames of an output line that wait to be written.
ghost use Rattle.std.specs.Prelude.{◌≡◌, ◌≢◌, ◌+◌, ◌≤◌, ◌++◌, [], ◌↔◌, IfOk, IsTrue, length, take};
ghost use Rattle.otn_base.specs.declared.limits.TheConstants.{LINE_FRAME_BYTES as FRAME_BYTES};
ghost use Rattle.port_base.specs.OutPlace.{out_view};
ghost use Rattle.port_base.specs.Views.{Live, Empty};
ghost use Rattle.line_side.specs.Steps.LineOutput.{Joins, Leaves};

use otn_base::Memory;
use otn_base::limits::LINE_FRAME_BYTES;
use port_base::{OutPlaceOf, Sink};
use std::alloc::Global;
use std::marker::Model;

/// How many frames of a line leave together, by as few calls of the system as it takes. A multiframe has a multiple of
/// them, so at the end of a turn no frame waits.
pub const FRAMES_TOGETHER: usize = 8;

/// The frames of a line that were made and wait for others to leave with. They are seen as their bytes.
#[derive(Drop)]
pub(crate) struct Waiting {
    bytes: Vec<u8>,
    frames: usize,
}

impl Model for Waiting {
    ghost use Rattle.std.specs.Prelude.{◌≡◌, ◌<◌, ◌*◌, ℕ, List, take, length};
    ghost use Rattle.otn_base.specs.declared.limits.TheConstants.{LINE_FRAME_BYTES as FRAME_BYTES};
    ghost use Rattle.line_side.specs.declared.waiting.TheConstants.{FRAMES_TOGETHER as TOGETHER};

    ghost Value = { List ℕ };

    ghost view = { λ w. take (FRAME_BYTES * w.frames) w.bytes.items };

    ghost invariant = { λ w. (length w.bytes.items ≡ FRAME_BYTES * TOGETHER) × (w.frames < TOGETHER) };
}

impl Waiting {
    /// No frame waits. Answers `Memory` where there is no room for those that will.
    pub(crate) fn new(alloc: Global) -> Result<Waiting, Memory>
        ensures { IfOk result (λ waiting. waiting ≡ []) }
    {
        Ok(Waiting {
            bytes: vec![in alloc; 0u8; LINE_FRAME_BYTES * FRAMES_TOGETHER]?,
            frames: 0,
        })
    }

    /// A frame joins those that wait. Where they are eight then, they are written, and none waits any more. Says how
    /// many frames count: on an empty place this one, else those that went out whole.
    pub(crate) fn join<K: Sink>(&mut self, frame: &[u8], place: &mut OutPlaceOf<K>) -> usize
        requires size { length frame.now ≡ FRAME_BYTES }
        ensures joins { Joins self.old (out_view K.Sink place.old) frame.now self.new (out_view K.Sink place.new)
            result }
        ensures quiet { (out_view K.Sink place.old).state ≢ Live → place.new ≡ place.old }
    {
        put_at(&mut self.bytes, LINE_FRAME_BYTES * self.frames, frame);
        if self.frames + 1 == FRAMES_TOGETHER {
            self.frames = 0;
            return leave(&self.bytes, place);
        }
        self.frames += 1;
        leave(&[], place)
    }
}

// Writes frames, and says how many count: one on an empty place, where nothing is to be written, else those that went
// out whole.
fn leave<K: Sink>(frames: &[u8], place: &mut OutPlaceOf<K>) -> usize
    ensures leaves { Leaves (out_view K.Sink place.old) frames.now (out_view K.Sink place.new) result }
    ensures quiet { (out_view K.Sink place.old).state ≢ Live → place.new ≡ place.old }
{
    if is_empty(place) {
        return 1;
    }
    let (_, written) = place.write_frames(frames);
    written / LINE_FRAME_BYTES
}

fn is_empty<K: Sink>(place: &OutPlaceOf<K>) -> bool
    ensures { IsTrue result ↔ ((out_view K.Sink place.now).state ≡ Empty) }
{
    match place {
        OutPlaceOf::Empty => true,
        OutPlaceOf::Retired(..) => true,
        OutPlaceOf::Live(..) => false,
        OutPlaceOf::Dead(..) => false,
    }
}

// Puts a frame into the block, at this place.
fn put_at(block: &mut [u8], at: usize, frame: &[u8])
    requires { at + length frame.now ≤ length block.old }
    ensures front { take (at + length frame.now) block.new ≡ take at block.old ++ frame.now }
    ensures size { length block.new ≡ length block.old }
{
    block[at..at + frame.len()].copy_from_slice(frame);
}
