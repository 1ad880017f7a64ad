// The parts of the client frames that carry the channels.
ghost use Rattle.std.specs.Prelude.{◌≡◌, ◌≤◌, length};
ghost use Rattle.otn_base.specs.declared.limits.TheConstants.{CLIENT_FRAME_BYTES};

use crate::weaving::Weaving;
use frame_geometry::Frame;
use odu_client::ClientOverhead;
use otn_base::Trace;
use otn_base::limits::CLIENT_COLUMNS;

/// The channels' stream in client frames.
#[derive(Drop)]
pub(crate) struct Framing {
    pub(crate) weaving: Weaving,
    pub(crate) overhead: ClientOverhead,
    pub(crate) frame: Frame<CLIENT_COLUMNS>,
    // Bytes of the frame that are gone.
    pub(crate) at: usize,
    pub(crate) trace: Trace,
    ghost within: { at ≤ CLIENT_FRAME_BYTES },
    ghost size: { length frame ≡ CLIENT_FRAME_BYTES },
}
