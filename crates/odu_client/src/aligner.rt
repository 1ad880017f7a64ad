// The frames of a client in the bytes that arrive.
ghost use Rattle.std.specs.Prelude.{◌≡◌, ◌≢◌, ◌<◌, ◌≤◌, ◌++◌, ℕ, List, [], true, false, length, take, slice_index, vec_len, IfOk};
ghost use Rattle.std.specs.Vec.{vec_capacity};
ghost use Rattle.odu_client.specs.AlignedRuns.{misses_after};
ghost use Rattle.otn_base.specs.declared.limits.TheConstants.{CLIENT_FRAME_BYTES};

use crate::Aligned;
use crate::fas::{FAS_BYTES, begins, count, has_signal, is_given_up};
use frame_geometry::Frame;
use otn_base::limits::{CLIENT_COLUMNS, CLIENT_FRAME_BYTES};
use otn_base::{Memory, append};
use std::alloc::Global;

/// Finds client frames in the bytes that arrive. In a search it looks for the first FAS; then frames follow one
/// another, until five in a row begin otherwise.
#[derive(Drop)]
pub struct ClientAligner {
    searching: bool,
    misses: u8,
    held: Vec<u8>,
    frame: Frame<CLIENT_COLUMNS>,
    frames: u64,
    ghost room: { CLIENT_FRAME_BYTES ≤ vec_capacity held },
    ghost few: { misses < 5 },
    ghost held_short: { vec_len held < CLIENT_FRAME_BYTES },
    ghost search_short: { searching ≡ true → vec_len held ≤ 5 },
    ghost going: { 6 ≤ vec_len held → misses_after misses held.items < 5 },
}

impl ClientAligner {
    ghost use Rattle.odu_client.specs.AlignedRuns.{arrivals};
    ghost use Rattle.odu_client.specs.Aligner.{AlignerState, HasAligned, Aligns, AlignsBy, searches_anew};
    ghost use Rattle.odu_client.specs.Steps.Aligner.{Goes, GoesBy};
    ghost use Rattle.odu_client.specs.View.{aligner_state, handed, frames_after};

    /// An aligner that searches. All memory is taken here.
    pub fn new(alloc: Global) -> Result<ClientAligner, Memory>
        ensures aligned { IfOk result (λ aligner. HasAligned [] (aligner_state aligner)) }
        ensures fresh { IfOk result (λ aligner. aligner_state aligner ≡ searches_anew) }
        ensures frame { IfOk result (λ aligner. (place : ℕ) → slice_index (handed aligner) place ≡ 0) }
        ensures frames { IfOk result (λ aligner. aligner.frames ≡ 0) }
    {
        Ok(ClientAligner {
            searching: true,
            misses: 0,
            held: Vec::with_capacity(alloc, CLIENT_FRAME_BYTES)?,
            frame: Frame::new(alloc)?,
            frames: 0,
        })
    }

    /// Begins anew with a search. The frame of the last answer `Whole` stays.
    pub fn restart(&mut self)
        ensures aligned { HasAligned [] (aligner_state self.new) }
        ensures fresh { aligner_state self.new ≡ searches_anew }
        ensures frame { handed self.new ≡ handed self.old }
        ensures frames { self.new.frames ≡ 0 }
    {
        self.held.clear();
        self.searching = true;
        self.misses = 0;
        self.frames = 0;
    }

    /// The next byte. Whole: a frame to be used ended with it. Break: a frame with AIS, OCI or LCK ended with it, or a
    /// search begins behind it.
    pub fn take(&mut self, byte: u8) -> Aligned
        ensures aligned { (read : List ℕ) → HasAligned read (aligner_state self.old)
            → Aligns read byte result (handed self.new) (aligner_state self.new) }
        ensures kept { result ≢ Aligned.Whole → handed self.new ≡ handed self.old }
        ensures frames { self.new.frames ≡ frames_after self.old.frames result }
    {
        if self.searching {
            return self.search(byte);
        }
        self.go_on(byte)
    }

    /// Takes bytes up to and with the first that ends in Whole or Break, and says how many; where none does, all, and
    /// the answer is Nothing.
    pub fn take_some(&mut self, bytes: &[u8]) -> (Aligned, usize)
        ensures within { result.1 ≤ length bytes.now }
        ensures all { result.0 ≡ Aligned.Nothing → result.1 ≡ length bytes.now }
        ensures some { 1 ≤ length bytes.now → 1 ≤ result.1 }
        ensures aligned { (read : List ℕ) → HasAligned read (aligner_state self.old)
            → AlignsBy read (take result.1 bytes.now) result.0 (handed self.new) (aligner_state self.new) }
        ensures none_before { (read : List ℕ) (k : ℕ) → HasAligned read (aligner_state self.old) → k < result.1
            → arrivals (read ++ take k bytes.now) ≡ arrivals read }
        ensures kept { result.0 ≢ Aligned.Whole → handed self.new ≡ handed self.old }
        ensures frames { self.new.frames ≡ frames_after self.old.frames result.0 }
    {
        let mut done = 0;
        while done < bytes.len() {
            done += self.pass(&bytes[done..]);
            if done >= bytes.len() {
                break;
            }
            let aligned = self.take(bytes[done]);
            done += 1;
            if aligned != Aligned::Nothing {
                return (aligned, done);
            }
        }
        (Aligned::Nothing, done)
    }

    // Goes on with the frame by as many bytes as make no news, and says how many.
    fn pass(&mut self, bytes: &[u8]) -> usize
        ensures within { result ≤ length bytes.now }
        ensures goes { (read : List ℕ) → HasAligned read (aligner_state self.old)
            → AlignsBy read (take result bytes.now) Aligned.Nothing (handed self.new) (aligner_state self.new) }
        ensures kept { handed self.new ≡ handed self.old }
        ensures frames { self.new.frames ≡ self.old.frames }
    {
        if self.searching {
            return 0;
        }
        if self.held.len() < FAS_BYTES {
            return 0;
        }
        let count = bytes.len().min(CLIENT_FRAME_BYTES - 1 - self.held.len());
        append(&mut self.held, &bytes[..count]);
        count
    }

    /// The frame of the last answer `Whole`, which stands until the next; before the first, all its bytes are 0.
    pub fn frame(&self) -> &Frame<CLIENT_COLUMNS>
        ensures { result.now ≡ handed self.now }
    {
        &self.frame
    }

    /// How often the answer was `Whole`.
    pub fn frames(&self) -> u64
        ensures { result ≡ self.now.frames }
    {
        self.frames
    }

    fn search(&mut self, byte: u8) -> Aligned
        requires { self.old.searching ≡ true }
        ensures goes { Goes (aligner_state self.old) byte result (handed self.new) (aligner_state self.new) }
        ensures kept { handed self.new ≡ handed self.old }
        ensures frames { self.new.frames ≡ self.old.frames }
        ensures nothing { result ≡ Aligned.Nothing }
    {
        append(&mut self.held, &[byte]);
        if self.held.len() < FAS_BYTES {
            return Aligned::Nothing;
        }
        if begins(&self.held) {
            self.searching = false;
            self.misses = 0;
            return Aligned::Nothing;
        }
        let _first = self.held.remove(0);
        Aligned::Nothing
    }

    fn go_on(&mut self, byte: u8) -> Aligned
        requires { self.old.searching ≡ false }
        ensures goes { Goes (aligner_state self.old) byte result (handed self.new) (aligner_state self.new) }
        ensures kept { result ≢ Aligned.Whole → handed self.new ≡ handed self.old }
        ensures frames { self.new.frames ≡ frames_after self.old.frames result }
    {
        append(&mut self.held, &[byte]);
        if is_given_up(self.misses, &self.held) {
            self.held.clear();
            self.misses = 0;
            self.searching = true;
            return Aligned::Break;
        }
        if self.held.len() < CLIENT_FRAME_BYTES {
            return Aligned::Nothing;
        }
        self.misses = count(self.misses, &self.held);
        if has_signal(&self.held) {
            self.held.clear();
            return Aligned::Break;
        }
        self.frame.exchange(&mut self.held);
        self.held.clear();
        self.frames = self.frames.saturating_add(1);
        Aligned::Whole
    }
}
