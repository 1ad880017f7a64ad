// A frame: its bytes, row by row.
ghost use Rattle.std.specs.Prelude.{◌≡◌, ℕ, ◌*◌, ◌≤◌, length, IfOk, IfSome, None, slice_index, slice_set, unwrap_or, vec_len};
ghost use Rattle.std.specs.Vec.{vec_capacity};
ghost use Rattle.otn_base.specs.declared.limits.TheConstants.{OVERHEAD_COLUMNS};

use otn_base::limits::ROWS;
use otn_base::{Memory, SharedBytes};
use std::alloc::Global;
use std::marker::Model;
use std::mem;

/// A frame of four rows of `COLS` columns (G.709 clause 11.1): 4,080 of them for a frame of an OTU2 or an OTU3 with its
/// FEC field, 3,824 for an ODU frame. It is seen as the list of its bytes, row by row. Rows and columns count from 1.
/// A frame may show bytes that others hold too, until it is written to.
#[derive(Drop)]
pub struct Frame<const COLS: usize> {
    pub(crate) bytes: Vec<u8>,
    // What the frame shows in place of its own bytes.
    pub(crate) shown: Option<SharedBytes>,
}

impl<const COLS: usize> Model for Frame<COLS> {
    ghost use Rattle.std.specs.Prelude.{◌≡◌, ℕ, ◌*◌, List, length, unwrap_or};
    ghost use Rattle.frame_geometry.specs.Places.{IsWidth};

    ghost Value = { List ℕ };

    ghost view = { λ f. unwrap_or f.shown f.bytes.items };

    ghost invariant = { λ f. (length (unwrap_or f.shown f.bytes.items) ≡ 4 * COLS) × IsWidth COLS × (length f.bytes.items ≡ 4 * COLS) };
}

impl<const COLS: usize> Frame<COLS> {
    ghost use Rattle.std.specs.Borrow.{sem, Lends, Array, u8 as byte};
    ghost use Rattle.frame_geometry.specs.Loans.{after_loan};
    ghost use Rattle.frame_geometry.specs.contracts.frame.Frame.{the_row};
    ghost use Rattle.frame_geometry.specs.Places.{IsWidth, place_of};

    /// A frame of bytes that are all 0. Answers `Memory` where there is none for its bytes.
    pub fn new(alloc: Global) -> Result<Self, Memory>
        requires { IsWidth COLS }
        ensures size { IfOk result (λ frame. length frame ≡ 4 * COLS) }
        ensures zero { IfOk result (λ frame. (place : ℕ) → slice_index frame place ≡ 0) }
    {
        Ok(Frame {
            bytes: vec![in alloc; 0u8; ROWS * COLS]?,
            shown: None,
        })
    }

    /// The byte in a row (1 to 4) and a column (1 to `COLS`).
    pub fn get(&self, row: u32, col: u32) -> u8
        requires row_low { 1 ≤ row }
        requires row_high { row ≤ 4 }
        requires col_low { 1 ≤ col }
        requires col_high { col ≤ COLS }
        ensures { result ≡ slice_index self.now (place_of COLS row col) }
    {
        let bytes = self.as_bytes();
        bytes[COLS * (row as usize - 1) + (col as usize - 1)]
    }

    /// The byte in a row (1 to 4) and an overhead column (1 to 16), which a frame of each width has.
    pub fn overhead(&self, row: u32, col: u32) -> u8
        requires row_low { 1 ≤ row }
        requires row_high { row ≤ 4 }
        requires col_low { 1 ≤ col }
        requires col_high { col ≤ OVERHEAD_COLUMNS }
        ensures { result ≡ slice_index self.now (place_of COLS row col) }
    {
        let bytes = self.as_bytes();
        let row_before = COLS * (row as usize - 1);
        bytes[row_before + col as usize - 1]
    }

    /// Writes the byte in a row (1 to 4) and a column (1 to `COLS`); every other byte stays.
    pub fn set(&mut self, row: u32, col: u32, byte: u8)
        requires row_low { 1 ≤ row }
        requires row_high { row ≤ 4 }
        requires col_low { 1 ≤ col }
        requires col_high { col ≤ COLS }
        ensures written { self.new ≡ slice_set self.old (place_of COLS row col) byte }
        ensures size { length self.new ≡ 4 * COLS }
    {
        take_over(&mut self.bytes, &mut self.shown);
        self.bytes[COLS * (row as usize - 1) + (col as usize - 1)] = byte;
    }

    /// Writes 0 into every byte.
    pub fn clear(&mut self)
        ensures size { length self.new ≡ 4 * COLS }
        ensures zero { (place : ℕ) → slice_index self.new place ≡ 0 }
    {
        self.shown = None;
        self.bytes.fill(0);
    }

    /// Takes over all bytes of a frame, row by row: 4 times `COLS` bytes.
    pub fn fill_from(&mut self, bytes: &[u8])
        requires { length bytes.now ≡ 4 * COLS }
        ensures { self.new ≡ bytes.now }
    {
        self.shown = None;
        self.bytes.copy_from_slice(bytes);
    }

    /// Changes places with these bytes: they are the frame's from here on, row by row, and the frame's are theirs.
    pub fn exchange(&mut self, bytes: &mut Vec<u8>)
        requires size { vec_len bytes.old ≡ 4 * COLS }
        ensures frame { self.new ≡ bytes.old.items }
        ensures bytes { bytes.new.items ≡ self.old }
        ensures room { 4 * COLS ≤ vec_capacity bytes.new }
    {
        take_over(&mut self.bytes, &mut self.shown);
        mem::swap(&mut self.bytes, bytes);
    }

    /// Shows these bytes from here on, row by row, until the frame is written to or lets go of them.
    pub fn show(&mut self, bytes: SharedBytes)
        requires { length bytes ≡ 4 * COLS }
        ensures { self.new ≡ bytes }
    {
        self.shown = Some(bytes);
    }

    /// Lets go of bytes that it shows. What the frame holds then is of no account.
    pub fn let_go(&mut self)
        ensures size { length self.new ≡ 4 * COLS }
    {
        self.shown = None;
    }

    /// All bytes, row by row.
    pub fn as_bytes(&self) -> &[u8]
        ensures bytes { result.now ≡ self.now }
        ensures size { length result.now ≡ 4 * COLS }
        ensures width { IsWidth COLS }
    {
        match &self.shown {
            Some(shown) => shown.as_bytes(),
            None => &self.bytes,
        }
    }

    /// All bytes, row by row, to be written.
    pub fn as_bytes_mut(&mut self) -> &mut [u8]
        ensures* writes_back { sem 𝓛 (Lends (the_row COLS.row) (Array byte 0) self.entry result
            (after_loan COLS self.entry.now)) }
        ensures bytes { result.now ≡ self.old }
        ensures size { length result.now ≡ 4 * COLS }
        ensures width { IsWidth COLS }
    {
        take_over(&mut self.bytes, &mut self.shown);
        &mut self.bytes
    }
}

// Takes over bytes that are shown in place of these, and shows none.
pub(crate) fn take_over(bytes: &mut Vec<u8>, shown: &mut Option<SharedBytes>)
    requires { IfSome shown.old (λ s. length s ≡ vec_len bytes.old) }
    ensures bytes { bytes.new.items ≡ unwrap_or shown.old bytes.old.items }
    ensures none { shown.new ≡ None }
{
    if let Some(shown) = shown.take() {
        bytes.copy_from_slice(shown.as_bytes());
    }
}
