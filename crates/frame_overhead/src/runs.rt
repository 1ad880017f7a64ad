// Bytes written into a row of a frame.
ghost use Rattle.std.specs.Prelude.{◌≡◌, ◌+◌, ◌*◌, ◌<◌, ◌≤◌, ℕ, length, slice_index};
ghost use Rattle.otn_base.specs.declared.limits.TheConstants.{OVERHEAD_COLUMNS};
ghost use Rattle.frame_geometry.specs.Places.{IsWidth};
ghost use Rattle.frame_overhead.specs.Runs.{IsPut};

use frame_geometry::Frame;

/// Writes bytes into a row (1 to 4), from a column on; every other byte of the frame stays.
pub fn put_run<const COLS: usize>(frame: &mut Frame<COLS>, row: u32, col: u32, bytes: &[u8])
    requires row_low { 1 ≤ row }
    requires row_high { row ≤ 4 }
    requires col_low { 1 ≤ col }
    requires col_high { col + length bytes.now ≤ COLS + 1 }
    ensures put { IsPut COLS row col bytes.now frame.old frame.new }
    ensures size { length frame.old ≡ 4 * COLS }
    ensures width { IsWidth COLS }
{
    put_at(
        frame.as_bytes_mut(),
        COLS * (row as usize - 1) + (col as usize - 1),
        bytes,
    );
}

/// Writes bytes into the overhead columns of a row (1 to 4), of which there are 16, from the first on; every other byte
/// of the frame stays.
pub fn put_overhead<const COLS: usize>(frame: &mut Frame<COLS>, row: u32, bytes: &[u8])
    requires row_low { 1 ≤ row }
    requires row_high { row ≤ 4 }
    requires size { length bytes.now ≤ OVERHEAD_COLUMNS }
    ensures put { IsPut COLS row 1 bytes.now frame.old frame.new }
    ensures size { length frame.old ≡ 4 * COLS }
    ensures width { IsWidth COLS }
{
    put_at(frame.as_bytes_mut(), COLS * (row as usize - 1), bytes);
}

// Writes bytes from a place on; the others stay.
fn put_at(into: &mut [u8], at: usize, bytes: &[u8])
    requires { at + length bytes.now ≤ length into.old }
    ensures before { (k : ℕ) → k < at → slice_index into.new k ≡ slice_index into.old k }
    ensures run { (k : ℕ) → k < length bytes.now → slice_index into.new (at + k) ≡ slice_index bytes.now k }
    ensures after { (k : ℕ) → at + length bytes.now ≤ k → slice_index into.new k ≡ slice_index into.old k }
{
    let end = at + bytes.len();
    into[at..end].copy_from_slice(bytes);
}
