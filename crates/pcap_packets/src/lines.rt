// The lines of a capture whose bytes come piece by piece.
ghost use Rattle.std.specs.Prelude.{◌≡◌, ◌≢◌, ◌<◌, ◌≤◌, ◌+◌, ℕ, List, [], ◌++◌, true, false, Some, IfOk, OnErr, OnOk, length, take, drop};
ghost use Rattle.std.specs.Option.{option_map};
ghost use Rattle.port_base.specs.Bytes.{HasFailed};
ghost use Rattle.packet_text.specs.PacketText.{packet_line};
ghost use Rattle.pcap_packets.specs.CaptureText.{capture_text, header_order, bad_line};
ghost use Rattle.pcap_packets.specs.HeldBytes.{held};
ghost use Rattle.pcap_packets.specs.Captures.{lines_left};
ghost use Rattle.pcap_packets.specs.Steps.Captures.{bytes_left, IsWaiting};

use crate::front::{Front, RECORD_HEADER, front_of};
use crate::header::{FILE_HEADER, order_of};
use crate::held::Held;
use crate::order::ByteOrder;
use otn_base::Memory;
use packet_text::ByteDigits;
use port_base::{Failed, Source};
use std::alloc::Global;

// The line that no packet gives.
const BAD_LINE: [u8; 2] = *b"!\n";

/// What comes next: a capture's header, its records in this byte order, or nothing more.
#[derive(Clone, Copy, PartialEq, Eq)]
pub(crate) enum Stage {
    Start,
    Records(ByteOrder),
    Over,
}

/// Makes lines of a capture's bytes: those that came and are not used are in hand, and what is not given of the line
/// that was made last is in hand, too.
#[derive(Drop)]
pub(crate) struct CaptureLines {
    stage: Stage,
    hand: Held,
    line: Held,
    digits: ByteDigits,
}

impl CaptureLines {
    /// At the start of a capture. All memory is taken here.
    pub(crate) fn new(alloc: Global) -> Result<CaptureLines, Memory>
        ensures { IfOk result (λ lines. (coming : List ℕ) → lines_left lines coming ≡ capture_text coming) }
    {
        Ok(CaptureLines {
            stage: Stage::Start,
            hand: Held::new(alloc)?,
            line: Held::new(alloc)?,
            digits: ByteDigits::new(),
        })
    }

    /// Gives bytes of lines, as far as what is in hand makes any, and says how many. None come into a slice with room
    /// only where no line is in hand.
    pub(crate) fn give(&mut self, into: &mut [u8]) -> usize
        ensures bound { result ≤ length into.old }
        ensures bytes { (coming : List ℕ)
            → lines_left self.old coming ≡ take result into.new ++ lines_left self.new coming }
        ensures none { result ≡ 0 → 0 < length into.old → held self.old.line ≡ [] }
    {
        let done = self.line.give(into);
        if done == into.len() {
            return done;
        }
        done + self.give_lines(&mut into[done..])
    }

    // Gives lines where none is in hand: whole ones, and then the front of one that has no room.
    fn give_lines(&mut self, into: &mut [u8]) -> usize
        requires empty { held self.old.line ≡ [] }
        ensures bound { result ≤ length into.old }
        ensures bytes { (coming : List ℕ)
            → lines_left self.old coming ≡ take result into.new ++ lines_left self.new coming }
    {
        let done = self.put_lines(into);
        if done < into.len() && self.next() {
            return done + self.line.give(&mut into[done..]);
        }
        done
    }

    // Puts whole lines into the slice, as many as there are and as it has room for.
    fn put_lines(&mut self, into: &mut [u8]) -> usize
        requires empty { held self.old.line ≡ [] }
        ensures bound { result ≤ length into.old }
        ensures bytes { (coming : List ℕ)
            → lines_left self.old coming ≡ take result into.new ++ lines_left self.new coming }
        ensures empty { held self.new.line ≡ [] }
    {
        match self.stage {
            Stage::Records(order) => self.put_records(order, into),
            _ => 0,
        }
    }

    fn put_records(&mut self, order: ByteOrder, into: &mut [u8]) -> usize
        requires records { self.old.stage ≡ Stage.Records order }
        requires empty { held self.old.line ≡ [] }
        ensures bound { result ≤ length into.old }
        ensures bytes { (coming : List ℕ)
            → lines_left self.old coming ≡ take result into.new ++ lines_left self.new coming }
        ensures empty { held self.new.line ≡ [] }
    {
        let mut done = 0;
        loop {
            let more = self.put_next(order, &mut into[done..]);
            if more == 0 {
                return done;
            }
            done += more;
        }
    }

    // Puts the line of the record at the front, where that is whole and there is room for the line, and says how many
    // bytes.
    fn put_next(&mut self, order: ByteOrder, into: &mut [u8]) -> usize
        requires records { self.old.stage ≡ Stage.Records order }
        requires empty { held self.old.line ≡ [] }
        ensures bound { result ≤ length into.old }
        ensures bytes { (coming : List ℕ)
            → lines_left self.old coming ≡ take result into.new ++ lines_left self.new coming }
        ensures empty { held self.new.line ≡ [] }
        ensures stage { self.new.stage ≡ self.old.stage }
    {
        match front_of(order, self.hand.bytes()) {
            Front::Whole(size) => self.put_line(size, into),
            _ => 0,
        }
    }

    // The same of the whole record at the front, whose packet has so many bytes.
    fn put_line(&mut self, size: usize, into: &mut [u8]) -> usize
        requires whole { 16 + size ≤ length (held self.old.hand) }
        requires fits { size ≤ 65527 }
        ensures bound { result ≤ length into.old }
        ensures none { result ≡ 0 → self.new ≡ self.old }
        ensures put { 0 < result → take result into.new ≡ packet_line (take size (drop 16 (held self.old.hand))) }
        ensures hand { 0 < result → held self.new.hand ≡ drop (16 + size) (held self.old.hand) }
        ensures line { self.new.line ≡ self.old.line }
        ensures stage { self.new.stage ≡ self.old.stage }
    {
        if into.len() <= 2 * size {
            return 0;
        }
        let end = RECORD_HEADER + size;
        let packet = &self.hand.bytes()[RECORD_HEADER..end];
        let count = self.digits.put_line(packet, into);
        self.hand.pass(end);
        count
    }

    /// Asks the source until a line is in hand or the text is over. Failed as the source does; the text to come is the
    /// same.
    pub(crate) fn ready<S: Source>(&mut self, source: &mut S) -> Result<(), Failed>
        ensures same { option_map (lines_left self.new) (S.left source.new)
            ≡ option_map (lines_left self.old) (S.left source.old) }
        ensures ready { OnOk result (held self.new.line ≡ [] → self.new.stage ≡ Stage.Over) }
        ensures later { S.faults source.old ≤ S.faults source.new }
        ensures cause { OnErr result (HasFailed (S.faults source.old) (S.faults source.new)) }
        ensures well { OnOk result (S.faults source.new ≡ S.faults source.old) }
    {
        while !self.settle() {
            self.ask(source)?;
        }
        Ok(())
    }

    // Makes a line of what is in hand, and says whether one is in hand now, or the text is over. If not, more bytes are
    // wanted.
    fn settle(&mut self) -> bool
        ensures same { (coming : List ℕ) → lines_left self.new coming ≡ lines_left self.old coming }
        ensures settled { result ≡ true → held self.new.line ≡ [] → self.new.stage ≡ Stage.Over }
        ensures waits { result ≡ false → IsWaiting self.new }
        ensures steps { result ≡ false → bytes_left self.new ≤ bytes_left self.old }
    {
        if !self.line.is_empty() {
            return true;
        }
        match self.stage {
            Stage::Start => self.start(),
            Stage::Records(order) => self.next_line(order),
            Stage::Over => true,
        }
    }

    // Reads the header, where it is there, and makes a line of what is behind it. Says whether a line is in hand.
    fn start(&mut self) -> bool
        requires start { self.old.stage ≡ Stage.Start }
        requires empty { held self.old.line ≡ [] }
        ensures same { (coming : List ℕ) → lines_left self.new coming ≡ lines_left self.old coming }
        ensures some { result ≡ true → held self.new.line ≢ [] }
        ensures waits { result ≡ false → IsWaiting self.new }
        ensures steps { result ≡ false → bytes_left self.new ≤ bytes_left self.old }
    {
        if self.hand.bytes().len() < FILE_HEADER {
            return false;
        }
        match order_of(self.hand.bytes()) {
            Some(order) => self.start_records(order),
            None => {
                self.end_badly();
                true
            }
        }
    }

    // Passes over the header, and makes a line of what is behind it. Says whether a line is in hand.
    fn start_records(&mut self, order: ByteOrder) -> bool
        requires start { self.old.stage ≡ Stage.Start }
        requires long { 24 ≤ length (held self.old.hand) }
        requires header { header_order (held self.old.hand) ≡ Some order }
        requires empty { held self.old.line ≡ [] }
        ensures same { (coming : List ℕ) → lines_left self.new coming ≡ lines_left self.old coming }
        ensures some { result ≡ true → held self.new.line ≢ [] }
        ensures waits { result ≡ false → IsWaiting self.new }
        ensures steps { result ≡ false → bytes_left self.new ≤ bytes_left self.old }
    {
        self.stage = Stage::Records(order);
        self.hand.pass(FILE_HEADER);
        self.next_line(order)
    }

    // Makes a line of what is in hand, where that is at a record, and says whether it made one.
    fn next(&mut self) -> bool
        requires empty { held self.old.line ≡ [] }
        ensures same { (coming : List ℕ) → lines_left self.new coming ≡ lines_left self.old coming }
        ensures some { result ≡ true → held self.new.line ≢ [] }
    {
        match self.stage {
            Stage::Records(order) => self.next_line(order),
            _ => false,
        }
    }

    // Makes the line of the record at the front, where it can be judged, and says whether it made one.
    fn next_line(&mut self, order: ByteOrder) -> bool
        requires records { self.old.stage ≡ Stage.Records order }
        requires empty { held self.old.line ≡ [] }
        ensures same { (coming : List ℕ) → lines_left self.new coming ≡ lines_left self.old coming }
        ensures some { result ≡ true → held self.new.line ≢ [] }
        ensures waits { result ≡ false → IsWaiting self.new }
        ensures steps { result ≡ false → bytes_left self.new ≤ bytes_left self.old }
    {
        match front_of(order, self.hand.bytes()) {
            Front::Waits => return false,
            Front::Whole(size) => self.make_line(size),
            Front::Bad => self.end_badly(),
        }
        true
    }

    // Makes the line of the whole record at the front, whose packet has so many bytes.
    fn make_line(&mut self, size: usize)
        requires whole { 16 + size ≤ length (held self.old.hand) }
        requires fits { size ≤ 65527 }
        ensures line { held self.new.line ≡ packet_line (take size (drop 16 (held self.old.hand))) }
        ensures hand { held self.new.hand ≡ drop (16 + size) (held self.old.hand) }
        ensures stage { self.new.stage ≡ self.old.stage }
    {
        let end = RECORD_HEADER + size;
        let packet = &self.hand.bytes()[RECORD_HEADER..end];
        self.line.hold_line(&self.digits, packet);
        self.hand.pass(end);
    }

    // The text ends with the bad line.
    fn end_badly(&mut self)
        ensures line { held self.new.line ≡ bad_line }
        ensures stage { self.new.stage ≡ Stage.Over }
        ensures hand { held self.new.hand ≡ held self.old.hand }
    {
        self.line.hold(&BAD_LINE);
        self.stage = Stage::Over;
    }

    // Asks the source once for more bytes.
    fn ask<S: Source>(&mut self, source: &mut S) -> Result<(), Failed>
        requires { IsWaiting self.old }
        ensures same { option_map (lines_left self.new) (S.left source.new)
            ≡ option_map (lines_left self.old) (S.left source.old) }
        ensures less { OnOk result (bytes_left self.new < bytes_left self.old) }
        ensures later { S.faults source.old ≤ S.faults source.new }
        ensures cause { OnErr result (HasFailed (S.faults source.old) (S.faults source.new)) }
        ensures well { OnOk result (S.faults source.new ≡ S.faults source.old) }
    {
        if self.hand.ask(source)? == 0 {
            self.end();
        }
        Ok(())
    }

    // The capture has no more bytes.
    fn end(&mut self)
        requires { IsWaiting self.old }
        ensures same { lines_left self.new [] ≡ lines_left self.old [] }
        ensures over { self.new.stage ≡ Stage.Over }
    {
        match self.stage {
            Stage::Start => self.end_badly(),
            Stage::Records(order) => self.end_records(order),
            Stage::Over => {}
        }
    }

    // The capture has no more bytes, and stands at a record: well if behind the last.
    fn end_records(&mut self, order: ByteOrder)
        requires records { self.old.stage ≡ Stage.Records order }
        requires waits { IsWaiting self.old }
        ensures same { lines_left self.new [] ≡ lines_left self.old [] }
        ensures over { self.new.stage ≡ Stage.Over }
    {
        if self.hand.is_empty() {
            self.stage = Stage::Over;
        } else {
            self.end_badly();
        }
    }
}
