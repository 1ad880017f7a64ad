// The mask of a line.
ghost use Rattle.std.specs.Prelude.{◌≡◌, IfOk};
ghost use Rattle.otu_overhead.specs.Mask.{mask};
ghost use Rattle.line_side.specs.LineForm.{through_mask};

use frame_geometry::Frame;
use lane_kernels::xor_mask;
use otn_base::Memory;
use otn_base::limits::{LINE_COLUMNS, LINE_FRAME_BYTES};
use otu_overhead::line_mask;
use std::alloc::{AllocError, Global};
use std::marker::Model;

/// What the frames of a line go through: the mask of a scrambled line (G.709 clause 11.2), and nothing where the line
/// is plain. Contracts see it as whether the line is scrambled.
#[derive(Drop)]
pub(crate) struct LineMask {
    bytes: Option<Vec<u8>>,
}

impl Model for LineMask {
    ghost use Rattle.std.specs.Prelude.{◌≡◌, Bool, true, is_some};
    ghost use Rattle.std.specs.Option.{ForSome};
    ghost use Rattle.otu_overhead.specs.Mask.{mask};

    ghost Value = { Bool };

    ghost view = { λ m. is_some m.bytes };

    ghost invariant = { λ m. ForSome m.bytes (λ bytes. bytes.items ≡ mask true) };
}

impl LineMask {
    /// The mask of a line, made once.
    pub(crate) fn new(alloc: Global, scrambled: bool) -> Result<LineMask, Memory>
        ensures { IfOk result (λ m. m ≡ scrambled) }
    {
        if !scrambled {
            return Ok(LineMask { bytes: None });
        }
        let mut bytes = room(alloc, LINE_FRAME_BYTES)?;
        line_mask(&mut bytes);
        Ok(LineMask { bytes: Some(bytes) })
    }

    /// Takes a frame through the mask: a frame as it stands in a file to the frame of the line, and back.
    pub(crate) fn apply(&self, frame: &mut Frame<LINE_COLUMNS>)
        ensures { frame.new ≡ through_mask self.now frame.old }
    {
        let Some(mask) = &self.bytes else {
            return;
        };
        xor_mask(frame.as_bytes_mut(), mask);
    }
}

ghost use Rattle.std.specs.Prelude.{vec_len};

// So many bytes. That they are so many is all that proofs see of them here.
fn room(alloc: Global, n: usize) -> Result<Vec<u8>, AllocError>
    ensures { IfOk result (λ bytes. vec_len bytes ≡ n) }
{
    vec![in alloc; 0u8; n]
}
