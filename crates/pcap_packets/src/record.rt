// The line in hand of a sink that writes a capture, and its record.
ghost use Rattle.std.specs.Prelude.{◌≡◌, ◌≢◌, ◌<◌, ◌≤◌, ◌-◌, ◌+◌, ◌*◌, ◌%◌, ◌∷◌, ◌++◌, List, ℕ, [], true, false, IfOk, OnOk, OnErr, length, take, drop, min, if◌then◌else◌};
ghost use Rattle.port_base.specs.Bytes.{HasFailed};
ghost use Rattle.port_base.specs.declared.drain.Written.TheVariants as written;
ghost use Rattle.pcap_packets.specs.HeldBytes.{held};
ghost use Rattle.pcap_packets.specs.Written.{all_lower, is_line, digits_in_front, packet_of, header_written, record_of};
ghost use Rattle.pcap_packets.specs.Steps.Writing.{Went};
ghost use Rattle.pcap_packets.specs.Steps.Gathering.{lines_records, is_whole_line, Gathered, OneMore, IsCut, HasCut, PartWent, StopsAt, WentLines};

use crate::front::RECORD_HEADER;
use crate::held::Held;
use crate::leading::{MOST_DIGITS, leading_digits};
use otn_base::Memory;
use port_base::{Failed, Sink, Written};
use std::alloc::Global;

// The header of a capture, low byte first: version 2.4, packets of 65,535 bytes at most, Ethernet.
const HEADER: [u8; 24] = [
    0xd4, 0xc3, 0xb2, 0xa1, 2, 0, 4, 0, 0, 0, 0, 0, 0, 0, 0, 0, 0xff, 0xff, 0, 0, 1, 0, 0, 0,
];

/// The digits of a line that has begun, and, once it has ended, what is not written yet of its record.
#[derive(Drop)]
pub(crate) struct LineRecord {
    line: Held,
    rest: Held,
    // Whether a record was made, and with it the capture's header.
    begun: bool,
    ghost front: { line.at ≡ 0 },
    ghost few: { length (held line) ≤ 131062 },
    ghost digits: { all_lower (held line) ≡ true },
    ghost even: { held rest ≢ [] → length (held line) % 2 ≡ 0 },
}

impl LineRecord {
    /// No line has begun. All memory is taken here.
    pub(crate) fn new(alloc: Global) -> Result<LineRecord, Memory>
        ensures line { IfOk result (λ lines. held lines.line ≡ []) }
        ensures rest { IfOk result (λ lines. held lines.rest ≡ []) }
        ensures begun { IfOk result (λ lines. lines.begun ≡ false) }
    {
        Ok(LineRecord {
            line: Held::new(alloc)?,
            rest: Held::new(alloc)?,
            begun: false,
        })
    }

    /// Whether a record is being written.
    pub(crate) fn is_writing(&self) -> bool
        ensures none { result ≡ false → held self.now.rest ≡ [] }
        ensures some { result ≡ true → held self.now.rest ≢ [] }
    {
        !self.rest.is_empty()
    }

    /// Takes the digits at the front, as many as the line has room for, and says how many.
    pub(crate) fn take_digits(&mut self, bytes: &[u8]) -> usize
        requires { held self.old.rest ≡ [] }
        ensures bound { result ≤ length bytes.now }
        ensures count { result ≡ min (131062 - length (held self.old.line)) (digits_in_front bytes.now) }
        ensures line { held self.new.line ≡ held self.old.line ++ take result bytes.now }
        ensures rest { self.new.rest ≡ self.old.rest }
        ensures begun { self.new.begun ≡ self.old.begun }
    {
        let room = bytes.len().min(MOST_DIGITS - self.line.bytes().len());
        let count = leading_digits(&bytes[..room]);
        self.line.push(&bytes[..count]);
        count
    }

    /// Ends the line: makes its record, where it has digits of even count, and says whether it did.
    pub(crate) fn end_line(&mut self) -> bool
        requires { held self.old.rest ≡ [] }
        ensures made { result ≡ is_line (held self.old.line) }
        ensures line { self.new.line ≡ self.old.line }
        ensures rest { result ≡ true → held self.new.rest ≡ (if self.old.begun then [] else header_written)
            ++ record_of (packet_of (held self.old.line)) }
        ensures begun { result ≡ true → self.new.begun ≡ true }
        ensures none { result ≡ false → self.new ≡ self.old }
    {
        let count = self.line.bytes().len();
        if count == 0 || count % 2 != 0 {
            return false;
        }
        self.make_record();
        true
    }

    // Makes the record of the line in hand.
    fn make_record(&mut self)
        requires { length (held self.old.line) % 2 ≡ 0 }
        ensures line { self.new.line ≡ self.old.line }
        ensures rest { held self.new.rest ≡ (if self.old.begun then [] else header_written)
            ++ record_of (packet_of (held self.old.line)) }
        ensures begun { self.new.begun ≡ true }
    {
        self.begin_record();
        self.rest.push_record(self.line.bytes());
    }

    // Begins a record: the capture's header is in front of the first.
    fn begin_record(&mut self)
        requires { length (held self.old.line) % 2 ≡ 0 }
        ensures line { self.new.line ≡ self.old.line }
        ensures rest { held self.new.rest ≡ (if self.old.begun then [] else header_written) }
        ensures front { self.new.rest.at ≡ 0 }
        ensures begun { self.new.begun ≡ true }
    {
        self.rest.clear();
        if !self.begun {
            self.rest.push(&HEADER);
            self.begun = true;
        }
    }

    /// Writes what is left of the record, and begins a line behind it. Failed as the sink does, and then that much is
    /// left.
    pub(crate) fn write<S: Sink>(&mut self, sink: &mut S) -> Result<(), Failed>
        ensures sent { Went (held self.old.rest) (S.got sink.old) (held self.new.rest) (S.got sink.new) }
        ensures whole { OnOk result ((held self.new.rest ≡ []) × (held self.new.line ≡ [])) }
        ensures part { OnErr result ((held self.new.rest ≢ []) × (held self.new.line ≡ held self.old.line)) }
        ensures begun { self.new.begun ≡ self.old.begun }
        ensures later { S.faults sink.old ≤ S.faults sink.new }
        ensures cause { OnErr result (HasFailed (S.faults sink.old) (S.faults sink.new)) }
        ensures well { OnOk result (S.faults sink.new ≡ S.faults sink.old) }
    {
        self.rest.drain(sink)?;
        self.line.clear();
        Ok(())
    }

    /// Whether a record was made before, no line has begun, and no rest of a record is left.
    pub(crate) fn is_between(&self) -> bool
        ensures begun { result ≡ true → self.now.begun ≡ true }
        ensures line { result ≡ true → held self.now.line ≡ [] }
        ensures rest { result ≡ true → held self.now.rest ≡ [] }
    {
        self.begun && self.line.is_empty() && self.rest.is_empty()
    }

    /// Writes the records of the whole lines at the front together, as many as there is room for, and says how many
    /// bytes of the lines went. After Lost the line in which the sink stopped is in hand, and what is left of its
    /// record.
    pub(crate) fn write_lines<S: Sink>(&mut self, sink: &mut S, lines: &[u8]) -> (Written, usize)
        requires line { held self.old.line ≡ [] }
        ensures within { result.1 ≤ length lines.now }
        ensures sent { WentLines result.0 (take result.1 lines.now) (S.got sink.old) (held self.new.line)
            (held self.new.rest) (S.got sink.new) }
        ensures part { result.0 ≡ Written.Lost → (0 < result.1) × (result.1 < length lines.now) }
        ensures rest { result.0 ≡ Written.Lost → held self.new.rest ≢ [] }
        ensures begun { self.new.begun ≡ self.old.begun }
        ensures later { S.faults sink.old ≤ S.faults sink.new }
        ensures cause { result.0 ≡ Written.Lost → HasFailed (S.faults sink.old) (S.faults sink.new) }
        ensures well { result.0 ≢ Written.Lost → S.faults sink.new ≡ S.faults sink.old }
    {
        let count = self.gather(lines);
        let size = self.rest.bytes().len();
        match self.rest.drain(sink) {
            Ok(()) => (Written::Whole, count),
            Err(Failed) => {
                let sent = size - self.rest.bytes().len();
                (Written::Lost, self.stop(&lines[..count], sent))
            }
        }
    }

    // Makes the records of the whole lines at the front, as many as there is room for, and says how many bytes these
    // lines have.
    fn gather(&mut self, bytes: &[u8]) -> usize
        requires { held self.old.line ≡ [] }
        ensures within { result ≤ length bytes.now }
        ensures gathered { Gathered (take result bytes.now) (held self.new.rest) }
        ensures line { held self.new.line ≡ [] }
        ensures begun { self.new.begun ≡ self.old.begun }
    {
        self.rest.clear();
        let mut done = 0;
        let mut more = self.add_record(bytes);
        while more > 0 {
            done += more;
            more = self.add_record(&bytes[done..]);
        }
        done
    }

    // Puts the record of the line at the front behind the others, where that line is whole and there is room, and says
    // how many bytes the line has with its LF: none where there is no such line, or may be no room.
    fn add_record(&mut self, bytes: &[u8]) -> usize
        requires line { held self.old.line ≡ [] }
        requires front { self.old.rest.at ≡ 0 }
        ensures within { result ≤ length bytes.now }
        ensures none { result ≡ 0 → held self.new.rest ≡ held self.old.rest }
        ensures some { 0 < result → OneMore (take result bytes.now) (held self.old.rest) (held self.new.rest) }
        ensures line { held self.new.line ≡ [] }
        ensures front { self.new.rest.at ≡ 0 }
        ensures begun { self.new.begun ≡ self.old.begun }
    {
        self.rest.push_line(bytes)
    }

    // So many bytes of these lines' records went: the line in which they end is in hand, and what is left of its
    // record. Says how many bytes of the lines are written or in hand.
    fn stop(&mut self, lines: &[u8], sent: usize) -> usize
        requires { HasCut lines.now sent }
        ensures within { (0 < result) × (result < length lines.now) }
        ensures stopped { (all : List (List ℕ)) → IsCut all lines.now sent
            → PartWent (take result lines.now) (take sent (lines_records all)) (held self.new.line)
            (held self.new.rest) }
        ensures rest { held self.new.rest ≢ [] }
        ensures begun { self.new.begun ≡ self.old.begun }
    {
        let (done, count, left) = stopped_line(lines, sent);
        self.hold_part(&lines[done..done + count], left);
        done + count
    }

    // Holds this line, of whose record so many bytes went.
    fn hold_part(&mut self, digits: &[u8], sent: usize)
        requires line { is_whole_line digits.now ≡ true }
        requires part { sent < length (record_of (packet_of digits.now)) }
        ensures line { held self.new.line ≡ digits.now }
        ensures rest { held self.new.rest ≡ drop sent (record_of (packet_of digits.now)) }
        ensures begun { self.new.begun ≡ self.old.begun }
    {
        self.line.clear();
        self.line.push(digits);
        self.rest.clear();
        self.rest.push_record(digits);
        self.rest.pass(sent);
    }
}

// Where so many bytes of lines' records end: how many bytes the lines have whose records are within, how many digits
// the next one has, and how many bytes of its record are within.
fn stopped_line(lines: &[u8], sent: usize) -> (usize, usize, usize)
    requires { HasCut lines.now sent }
    ensures room { (0 < result.1) × (result.0 + (result.1 + 1) ≤ length lines.now) }
    ensures next { result.1 ≡ digits_in_front (drop result.0 lines.now) }
    ensures stops { (all : List (List ℕ)) → IsCut all lines.now sent → StopsAt all lines.now sent result.0 result.2 }
{
    let mut done = 0;
    let mut left = sent;
    let mut count = leading_digits(lines);
    while left >= RECORD_HEADER + count / 2 {
        left -= RECORD_HEADER + count / 2;
        done += count + 1;
        count = leading_digits(&lines[done..]);
    }
    (done, count, left)
}
