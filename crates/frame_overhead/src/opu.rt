// The parity of a frame.
ghost use Rattle.std.specs.Prelude.{◌≡◌, ◌<◌, ◌+◌, bit_xor, length, slice_index};
ghost use Rattle.frame_geometry.specs.PayloadParity.{payload_parity_of};
ghost use Rattle.frame_overhead.specs.Parity.{parity_of};

use frame_geometry::Frame;
use frame_geometry::overhead::OPU_COLUMN;
use otn_base::limits::LAST_PAYLOAD_COLUMN;

/// The BIP-8 of a frame: the exclusive or of all bytes in columns 15 to 3824 of its four rows.
pub fn parity<const COLS: usize>(frame: &Frame<COLS>) -> u8
    ensures { result ≡ parity_of COLS frame.now }
{
    let bytes = frame.as_bytes();
    let start = OPU_COLUMN as usize - 1;
    let second = COLS;
    let third = 2 * COLS;
    let fourth = 3 * COLS;
    let one = lane_kernels::parity(&bytes[start..LAST_PAYLOAD_COLUMN]);
    let two = lane_kernels::parity(&bytes[second + start..second + LAST_PAYLOAD_COLUMN]);
    let three = lane_kernels::parity(&bytes[third + start..third + LAST_PAYLOAD_COLUMN]);
    let four = lane_kernels::parity(&bytes[fourth + start..fourth + LAST_PAYLOAD_COLUMN]);
    one ^ two ^ three ^ four
}

/// What the payload gives to the BIP-8 of a frame: the exclusive or of all bytes in columns 17 to 3824 of its four
/// rows. Who writes a row last may take it of that row at once, while the row is at hand.
pub fn payload_parity<const COLS: usize>(frame: &Frame<COLS>) -> u8
    ensures { result ≡ payload_parity_of COLS frame.now }
{
    let one = lane_kernels::parity(frame.payload_row(1));
    let two = lane_kernels::parity(frame.payload_row(2));
    let three = lane_kernels::parity(frame.payload_row(3));
    let four = lane_kernels::parity(frame.payload_row(4));
    one ^ two ^ three ^ four
}

/// The BIP-8 of a frame, as `parity`, where it is known what the payload gives to it.
pub fn parity_with<const COLS: usize>(frame: &Frame<COLS>, payload: u8) -> u8
    requires payload { payload ≡ payload_parity_of COLS frame.now }
    ensures { result ≡ parity_of COLS frame.now }
{
    let bytes = frame.as_bytes();
    let start = OPU_COLUMN as usize - 1;
    let one = beside_payload(bytes, start);
    let two = beside_payload(bytes, COLS + start);
    let three = beside_payload(bytes, 2 * COLS + start);
    let four = beside_payload(bytes, 3 * COLS + start);
    one ^ two ^ three ^ four ^ payload
}

// What columns 15 and 16 of a row give to the parity, the first of which stands here.
fn beside_payload(bytes: &[u8], at: usize) -> u8
    requires { at + 1 < length bytes.now }
    ensures { result ≡ bit_xor (slice_index bytes.now at) (slice_index bytes.now (at + 1)) }
{
    bytes[at] ^ bytes[at + 1]
}
