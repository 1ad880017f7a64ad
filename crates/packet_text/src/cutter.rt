// A text is read by blocks and cut into lines.
ghost use Rattle.std.specs.Prelude.{◌≡◌, ◌≢◌, ◌<◌, ◌≤◌, ◌+◌, [], true, false, length, vec_len, IfOk, MatchOption};
ghost use Rattle.std.specs.Vec.{vec_capacity};
ghost use Rattle.port_base.specs.InPlace.{in_view};
ghost use Rattle.packet_text.specs.Steps.Carrying.{NoneCarried, Carried};

use crate::block::{BLOCK, Block};
use crate::line_feed::first_lf;
use otn_base::{Memory, append};
use port_base::{InPlaceOf, Reading, Source};
use std::alloc::Global;

// Bytes of a line at most, without its LF: the most digits, and CR.
const MOST_LINE: usize = 131_055;

// What was met behind a line's beginning: its LF, the end of the text behind a last line without LF, too many bytes
// without LF, the end of the text where a line would begin, or the place's death.
#[derive(Clone, Copy, Debug, PartialEq, Eq)]
pub(crate) enum Cut {
    Line,
    Last,
    Long,
    End,
    Lost,
}

/// Cuts a text into lines.
#[derive(Drop)]
pub(crate) struct Cutter {
    block: Block,
    at: usize,
    end: usize,
    line: Vec<u8>,
    ended: bool,
    ghost at_within: { at ≤ end },
    ghost end_within: { end ≤ 4096 },
    ghost room: { 135151 ≤ vec_capacity line },
}

// The bytes up to the first LF go to the end of the line, or all where there is none. Says how many there are before
// it.
fn carry(line: &mut Vec<u8>, bytes: &[u8]) -> Option<usize>
    requires { vec_len line.old + length bytes.now ≤ vec_capacity line.old }
    ensures line { MatchOption result (NoneCarried line.old.items bytes.now line.new.items)
        (λ n. Carried line.old.items bytes.now n line.new.items) }
    ensures capacity { vec_capacity line.old ≤ vec_capacity line.new }
{
    match first_lf(bytes) {
        Some(n) => {
            append(line, &bytes[..n]);
            Some(n)
        }
        None => {
            append(line, bytes);
            None
        }
    }
}

impl Cutter {
    ghost use Rattle.packet_text.specs.Cutting.{cut_view};
    ghost use Rattle.packet_text.specs.Steps.Cutting.{fresh_cut, GoesOnBy, BlockCame, BlockLost, Cuts, Loses};

    /// A cutter that has read nothing.
    pub(crate) fn new(alloc: Global) -> Result<Cutter, Memory>
        ensures { IfOk result (λ cutter. cut_view cutter ≡ fresh_cut) }
    {
        Ok(Cutter {
            block: Block::new(alloc)?,
            at: 0,
            end: 0,
            line: Vec::with_capacity(alloc, MOST_LINE + BLOCK)?,
            ended: false,
        })
    }

    /// Begins anew.
    pub(crate) fn restart(&mut self)
        ensures { cut_view self.new ≡ fresh_cut }
    {
        self.at = 0;
        self.end = 0;
        self.line.clear();
        self.ended = false;
    }

    /// The line that was cut last, without its LF.
    pub(crate) fn line(&self) -> &[u8]
        ensures { result.now ≡ (cut_view self.now).line }
    {
        &self.line
    }

    /// Goes to the end of the next line. A block is read only where all bytes in hand are used.
    pub(crate) fn next<P: Source>(&mut self, place: &mut InPlaceOf<P>) -> Cut
        ensures cuts { result ≢ Cut.Lost → Cuts result (cut_view self.old).hand self.old.ended
            (in_view P.Source place.old) (cut_view self.new) (in_view P.Source place.new) }
        ensures lost { result ≡ Cut.Lost → Loses (cut_view self.old).hand self.old.ended
            (in_view P.Source place.old) (cut_view self.new) (in_view P.Source place.new) }
        ensures near { self.new.end < self.new.at + 4096 }
        ensures quiet { self.old.ended ≡ true → place.new ≡ place.old }
    {
        self.line.clear();
        loop {
            if self.go_on() {
                return Cut::Line;
            }
            if self.line.len() > MOST_LINE {
                return Cut::Long;
            }
            if self.ended {
                return self.close();
            }
            if !self.read_block(place) {
                return Cut::Lost;
            }
        }
    }

    // Goes on with the line by the bytes in hand, and says whether its LF was met.
    fn go_on(&mut self) -> bool
        requires { length self.old.line.items ≤ 131055 }
        ensures goes { GoesOnBy result (cut_view self.old) (cut_view self.new) }
        ensures near { self.new.end < self.new.at + 4096 }
    {
        match carry(&mut self.line, &self.block.bytes()[self.at..self.end]) {
            Some(n) => {
                self.at += n + 1;
                true
            }
            None => {
                self.at = self.end;
                false
            }
        }
    }

    // What the end of the text means for the line.
    fn close(&self) -> Cut
        ensures last { (cut_view self.now).line ≢ [] → result ≡ Cut.Last }
        ensures end { (cut_view self.now).line ≡ [] → result ≡ Cut.End }
    {
        if self.line.is_empty() {
            return Cut::End;
        }
        Cut::Last
    }

    // Reads the next block, and says whether the place lives on or was not live.
    fn read_block<P: Source>(&mut self, place: &mut InPlaceOf<P>) -> bool
        requires { self.old.ended ≡ false }
        ensures block { result ≡ true → BlockCame (cut_view self.old) (in_view P.Source place.old) (cut_view self.new)
            (in_view P.Source place.new) }
        ensures lost { result ≡ false → BlockLost (in_view P.Source place.old) (in_view P.Source place.new) }
        ensures rests { result ≡ false → cut_view self.new ≡ record (cut_view self.old) { hand = [] } }
        ensures near { result ≡ false → self.new.end < self.new.at + 4096 }
    {
        self.at = 0;
        match self.block.fill(place) {
            Reading::Full => {
                self.end = self.block.bytes().len();
                true
            }
            Reading::End(n) => {
                self.end = n;
                self.ended = true;
                true
            }
            Reading::Lost => {
                self.end = 0;
                false
            }
        }
    }
}
