// The frame alignment signal at the front of bytes.
ghost use Rattle.std.specs.Prelude.{◌≡◌, true, false, ◌+◌, ◌<◌, ◌≤◌, length};
ghost use Rattle.odu_client.specs.AlignedRuns.{has_fas, misses_after, is_signal};
ghost use Rattle.otn_base.specs.declared.limits.TheConstants.{CLIENT_FRAME_BYTES};

use frame_geometry::overhead::{FAS, PM_ROW, STAT_COLUMN};
use otn_base::limits::CLIENT_COLUMNS;

/// Bytes of the FAS.
pub(crate) const FAS_BYTES: usize = 6;

// The place of STAT in a frame: row 3, column 12 (G.709 clause 15.8.2.2).
const STAT: usize = CLIENT_COLUMNS * (PM_ROW as usize - 1) + STAT_COLUMN as usize - 1;

// Frames in a row without the FAS, at which the last is given up.
const MOST_MISSES: u8 = 5;

/// Whether six bytes or more begin with the FAS (G.709 clause 15.6.2.1).
#[tactic(auto, unfolding(crate::specs::AlignedRuns::has_fas))]
pub(crate) fn begins(bytes: &[u8]) -> bool
    requires { 6 ≤ length bytes.now }
    ensures { result ≡ has_fas bytes.now }
{
    bytes[0] == FAS[0]
        && bytes[1] == FAS[1]
        && bytes[2] == FAS[2]
        && bytes[3] == FAS[3]
        && bytes[4] == FAS[4]
        && bytes[5] == FAS[5]
}

/// How many frames in a row did not begin with the FAS, with the one that these bytes begin.
pub(crate) fn count(misses: u8, bytes: &[u8]) -> u8
    requires size { 6 ≤ length bytes.now }
    requires few { misses < 5 }
    ensures value { result ≡ misses_after misses bytes.now }
    ensures few { result ≤ 5 }
{
    if begins(bytes) {
        return 0;
    }
    misses + 1
}

/// Whether a frame is given up after its sixth byte: it is the fifth in a row without the FAS.
pub(crate) fn is_given_up(misses: u8, held: &[u8]) -> bool
    requires { misses < 5 }
    ensures yes { result ≡ true → (length held.now ≡ 6) × (5 ≤ misses_after misses held.now) }
    ensures not_yet { result ≡ false → length held.now ≡ 6 → misses_after misses held.now < 5 }
{
    if held.len() != FAS_BYTES {
        return false;
    }
    count(misses, held) >= MOST_MISSES
}

/// Whether a frame has AIS, OCI or LCK.
pub(crate) fn has_signal(frame: &[u8]) -> bool
    requires { length frame.now ≡ CLIENT_FRAME_BYTES }
    ensures { result ≡ is_signal frame.now }
{
    frame[STAT] % 8 >= 5
}
