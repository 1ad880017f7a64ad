// A client's frame: what stands beside its payload.
ghost use Rattle.std.specs.Prelude.{◌≡◌};
ghost use Rattle.odu_client.specs.AlignedRuns.{payload_of};
ghost use Rattle.odu_client.specs.ClientFrames.{client_psi};
ghost use Rattle.odu_client.specs.Steps.FramePuts.{FrameWasPut};

use frame_geometry::Frame;
use frame_geometry::overhead::{FAS, PM_ROW, PSI_ROW, SECTION_ROW};
use frame_overhead::put_overhead;
use otn_base::limits::{CLIENT_COLUMNS, OVERHEAD_COLUMNS};

// PSI[0], the payload type of GFP (G.709 clause 15.9.2.1.1).
const GFP_MAPPING: u8 = 0x05;

/// Writes columns 1 to 16, in front of the payload: the alignment, with this MFAS, and the overhead of the OPU; columns
/// 1 to 14 of rows 2 to 4 are left to the path.
pub(crate) fn put_beside(frame: &mut Frame<CLIENT_COLUMNS>, mfas: u8)
    ensures { FrameWasPut mfas (payload_of frame.old) frame.new }
{
    let [a, b, c, d, e, f] = FAS;
    let none = [0; OVERHEAD_COLUMNS];
    put_overhead(
        frame,
        SECTION_ROW,
        &[a, b, c, d, e, f, mfas, 0, 0, 0, 0, 0, 0, 0, 0, 0],
    );
    put_overhead(frame, 2, &none);
    put_overhead(frame, PM_ROW, &none);
    put_overhead(
        frame,
        PSI_ROW,
        &[0, 0, 0, 0, 0, 0, 0, 0, 0, 0, 0, 0, 0, 0, psi(mfas), 0],
    );
}

// The PSI byte of the frame with this MFAS.
fn psi(mfas: u8) -> u8
    ensures { result ≡ client_psi mfas }
{
    if mfas == 0 { GFP_MAPPING } else { 0 }
}
