// The packets of a text, line by line.
ghost use Rattle.std.specs.Prelude.{◌≡◌, ◌≢◌, ◌<◌, ◌≤◌, ◌+◌, ℕ, List, [], true, length, take, vec_len, IfOk};
ghost use Rattle.port_base.specs.InPlace.{in_view};
ghost use Rattle.port_base.specs.Views.{InView, Live, Dead};
ghost use Rattle.otn_base.specs.declared.limits.TheConstants.{MOST_EMPTY_LINES};

use crate::Line;
use crate::cutter::{Cut, Cutter};
use crate::digits::{MOST_DIGITS, read_line};
use crate::found::{Found, answer_for, pass};
use otn_base::Memory;
use port_base::{InPlaceOf, Source};
use std::alloc::Global;
use std::mem;

// Bytes of a packet at most: half as many as a line has digits.
const MOST_PACKET: usize = MOST_DIGITS / 2;

/// Reads the packets of a text from a place, line by line. It reads blocks of 4,096 bytes, one only when the last is
/// used up.
#[derive(Drop)]
pub struct PacketLines {
    cutter: Cutter,
    packet: Vec<u8>,
    len: usize,
    // Where the next line's bytes are made.
    spare: Vec<u8>,
    number: u64,
    empty: usize,
    answer: Line,
    ghost packet_size: { vec_len packet ≡ 65527 },
    ghost spare_size: { vec_len spare ≡ 65527 },
    ghost len_within: { len ≤ 65527 },
    ghost empty_within: { empty ≤ MOST_EMPTY_LINES },
}

impl PacketLines {
    ghost use Rattle.packet_text.specs.LinesStand.{lines_view, fresh_lines, LinesStand, TakeStands};
    ghost use Rattle.otn_base.specs.Counts.{saturated};
    ghost use Rattle.packet_text.specs.Cutting.{cut_view};
    ghost use Rattle.packet_text.specs.Steps.Finding.{Seeks, Finds, Judges, Counts};

    /// Lines of which nothing was read. All memory is taken here.
    pub fn new(alloc: Global) -> Result<PacketLines, Memory>
        ensures stands { IfOk result (λ lines. (first : InView) → LinesStand first first [] [] (lines_view lines)) }
        ensures fresh { IfOk result (λ lines. lines_view lines ≡ fresh_lines) }
    {
        Ok(PacketLines {
            cutter: Cutter::new(alloc)?,
            packet: vec![in alloc; 0u8; MOST_PACKET]?,
            len: 0,
            spare: vec![in alloc; 0u8; MOST_PACKET]?,
            number: 0,
            empty: 0,
            answer: Line::Packet,
        })
    }

    /// Begins anew, as for another place.
    pub fn restart(&mut self)
        ensures stands { (first : InView) → LinesStand first first [] [] (lines_view self.new) }
        ensures fresh { lines_view self.new ≡ fresh_lines }
    {
        self.cutter.restart();
        self.len = 0;
        self.number = 0;
        self.empty = 0;
        self.answer = Line::Packet;
    }

    /// The next line that counts. Bad has its number, from 1: a line is found bad at its LF or at the text's end, or
    /// once more than 131,055 bytes of it came. After Bad, End or Lost the same answer is given again, and nothing is
    /// read.
    pub fn take<P: Source>(&mut self, place: &mut InPlaceOf<P>) -> Line
        ensures answer { (lines_view self.new).answer ≡ result }
        ensures stands { (first : InView) (read : List ℕ) (packets : List (List ℕ))
            → LinesStand first (in_view P.Source place.old) read packets (lines_view self.old)
            → TakeStands first read packets (lines_view self.old) (lines_view self.new) (in_view P.Source place.new) }

        // Lost comes only where the place died in this call
        ensures lost { result ≡ Line.Lost → (lines_view self.old).answer ≡ Line.Packet
            → ((in_view P.Source place.old).state ≡ Live) × ((in_view P.Source place.new).state ≡ Dead) }

        // a packet has 1 to 65,527 bytes
        ensures packet { result ≡ Line.Packet
            → (1 ≤ length (lines_view self.new).packet) × (length (lines_view self.new).packet ≤ 65527) }

        // which stays until the next comes
        ensures kept { result ≢ Line.Packet → (lines_view self.new).packet ≡ (lines_view self.old).packet }

        // a block is read only where the last is used up: fewer bytes than a block are in hand
        ensures near { (lines_view self.old).answer ≡ Line.Packet → length (lines_view self.new).hand < 4096 }

        // once the last answer was given it is given again, and nothing is read
        ensures over { (lines_view self.old).answer ≢ Line.Packet → (self.new ≡ self.old) × (place.new ≡ place.old) }
        ensures quiet { (lines_view self.old).ended ≡ true → place.new ≡ place.old }
    {
        if self.answer != Line::Packet {
            return self.answer;
        }
        loop {
            let found = self.find(place);
            if found != Found::Empty {
                self.answer = answer_for(found, self.number);
                return self.answer;
            }
        }
    }

    /// The packet of the last answer `Packet`, which stands also behind `Bad`, `End` or `Lost`. Before the first it has
    /// no byte.
    pub fn packet(&self) -> &[u8]
        ensures { result.now ≡ (lines_view self.now).packet }
    {
        &self.packet[..self.len]
    }

    // The next line.
    fn find<P: Source>(&mut self, place: &mut InPlaceOf<P>) -> Found
        ensures finds { (first : InView) (read : List ℕ) (packets : List (List ℕ))
            → Seeks first read packets (lines_view self.old) (in_view P.Source place.old)
            → Finds result first read packets (lines_view self.old) (lines_view self.new)
            (in_view P.Source place.new) }
        ensures rises { result ≡ Found.Empty → self.new.empty ≡ self.old.empty + 1 }
        ensures some { result ≡ Found.Packet → 1 ≤ self.new.len }
        ensures kept { result ≢ Found.Packet → (lines_view self.new).packet ≡ (lines_view self.old).packet }
        ensures alive { result ≢ Found.Lost → (in_view P.Source place.new).state ≡ (in_view P.Source place.old).state }
        ensures lost { result ≡ Found.Lost
            → ((in_view P.Source place.old).state ≡ Live) × ((in_view P.Source place.new).state ≡ Dead) }
        ensures near { self.new.cutter.end < self.new.cutter.at + 4096 }
        ensures quiet { (lines_view self.old).ended ≡ true
            → (place.new ≡ place.old) × ((lines_view self.new).ended ≡ true) }
    {
        match self.cutter.next(place) {
            Cut::Line => self.judge(),
            Cut::Last => self.judge(),
            Cut::Long => self.too_long(),
            Cut::End => Found::End,
            Cut::Lost => Found::Lost,
        }
    }

    // What the line that was cut is.
    fn judge(&mut self) -> Found
        ensures judges { (lines : List (List ℕ)) → Counts lines (lines_view self.old)
            → Judges result lines (cut_view self.old.cutter).line (lines_view self.new) }
        ensures rises { result ≡ Found.Empty → self.new.empty ≡ self.old.empty + 1 }
        ensures some { result ≡ Found.Packet → 1 ≤ self.new.len }
        ensures cutter { self.new.cutter ≡ self.old.cutter }
        ensures line { (result ≢ Found.End) × (result ≢ Found.Lost) }
        ensures kept { result ≢ Found.Packet → (lines_view self.new).packet ≡ (lines_view self.old).packet }
    {
        self.number = self.number.saturating_add(1);
        match read_line(self.cutter.line(), &mut self.spare) {
            None => Found::Bad,
            Some(0) => pass(&mut self.empty),
            Some(n) => {
                mem::swap(&mut self.packet, &mut self.spare);
                self.len = n;
                self.empty = 0;
                Found::Packet
            }
        }
    }

    // A line with too many bytes was met.
    fn too_long(&mut self) -> Found
        ensures result { result ≡ Found.Bad }
        ensures number { (lines_view self.new).number ≡ saturated ((lines_view self.old).number + 1) }
        ensures cutter { self.new.cutter ≡ self.old.cutter }
        ensures kept { (lines_view self.new).packet ≡ (lines_view self.old).packet }
    {
        self.number = self.number.saturating_add(1);
        Found::Bad
    }
}
