// Bytes that wait in a buffer.
ghost use Rattle.std.specs.Prelude.{◌≡◌, ◌≢◌, ◌↔◌, ◌<◌, ◌≤◌, ◌+◌, ◌*◌, ◌/◌, ◌%◌, ◌++◌, [], IfOk, OnErr, OnOk, Ok, true, length, min, take, drop, vec_len};
ghost use Rattle.port_base.specs.Bytes.{before, read_by, HasFailed};
ghost use Rattle.port_base.specs.Reads.{HasEnded};
ghost use Rattle.packet_text.specs.PacketText.{packet_line};
ghost use Rattle.pcap_packets.specs.Written.{all_lower, packet_of, record_of};
ghost use Rattle.pcap_packets.specs.Decoding.{header_of};
ghost use Rattle.pcap_packets.specs.Steps.Gathering.{OneMore};
ghost use Rattle.pcap_packets.specs.Steps.Writing.{Went};

use crate::front::RECORD_HEADER;
use crate::making::{put_at, put_header, put_record};
use otn_base::Memory;
use packet_text::{ByteDigits, decode_digits};
use port_base::{Failed, Sink, Source};
use std::alloc::Global;

/// Bytes of a buffer: the longest line, and the longest record twice.
pub(crate) const ROOM: usize = 131_072;

/// Bytes that wait: they come at the end and go from the front.
#[derive(Drop)]
pub(crate) struct Held {
    bytes: Vec<u8>,
    at: usize,
    end: usize,
    ghost room: { vec_len bytes ≡ 131072 },
    ghost order: { at ≤ end },
    ghost within: { end ≤ 131072 },
}

impl Held {
    ghost use Rattle.pcap_packets.specs.HeldBytes.{held};

    /// None yet. All memory is taken here.
    pub(crate) fn new(alloc: Global) -> Result<Held, Memory>
        ensures none { IfOk result (λ h. held h ≡ []) }
        ensures front { IfOk result (λ h. h.at ≡ 0) }
    {
        Ok(Held {
            bytes: buffer(alloc, ROOM)?,
            at: 0,
            end: 0,
        })
    }

    /// All of them.
    pub(crate) fn bytes(&self) -> &[u8]
        ensures { result.now ≡ held self.now }
    {
        &self.bytes[self.at..self.end]
    }

    /// Whether there is none.
    pub(crate) fn is_empty(&self) -> bool
        ensures { result ≡ true ↔ held self.now ≡ [] }
    {
        self.at == self.end
    }

    /// Passes over so many.
    pub(crate) fn pass(&mut self, count: usize)
        requires { count ≤ length (held self.old) }
        ensures { held self.new ≡ drop count (held self.old) }
    {
        self.at += count;
    }

    /// Moves bytes to the front of the slice, as many as there are and as it has room for, and says how many.
    pub(crate) fn give(&mut self, into: &mut [u8]) -> usize
        ensures size { result ≡ min (length (held self.old)) (length into.old) }
        ensures bytes { into.new ≡ take result (held self.old) ++ drop result into.old }
        ensures rest { held self.new ≡ drop result (held self.old) }
    {
        let count = (self.end - self.at).min(into.len());
        into[..count].copy_from_slice(&self.bytes[self.at..self.at + count]);
        self.at += count;
        count
    }

    /// Holds these in place of all.
    pub(crate) fn hold(&mut self, bytes: &[u8])
        requires { length bytes.now ≤ 131072 }
        ensures { held self.new ≡ bytes.now }
    {
        put_in_front(bytes, &mut self.bytes);
        self.at = 0;
        self.end = bytes.len();
    }

    /// Holds a packet's line in place of all.
    pub(crate) fn hold_line(&mut self, digits: &ByteDigits, packet: &[u8])
        requires { length packet.now ≤ 65527 }
        ensures { held self.new ≡ packet_line packet.now }
    {
        let count = digits.put_line(packet, &mut self.bytes);
        self.at = 0;
        self.end = count;
    }

    /// None of them any more.
    pub(crate) fn clear(&mut self)
        ensures none { held self.new ≡ [] }
        ensures front { self.new.at ≡ 0 }
    {
        self.at = 0;
        self.end = 0;
    }

    /// Puts bytes behind them, where none went since they were cleared.
    pub(crate) fn push(&mut self, bytes: &[u8])
        requires front { self.old.at ≡ 0 }
        requires room { length (held self.old) + length bytes.now ≤ 131072 }
        ensures bytes { held self.new ≡ held self.old ++ bytes.now }
        ensures front { self.new.at ≡ 0 }
    {
        put_at(bytes, &mut self.bytes, self.end);
        self.end += bytes.len();
    }

    /// Puts the bytes that digits say behind them, where none went since they were cleared.
    pub(crate) fn push_packet(&mut self, digits: &[u8])
        requires front { self.old.at ≡ 0 }
        requires room { length (held self.old) + length digits.now / 2 ≤ 131072 }
        requires even { length digits.now % 2 ≡ 0 }
        requires digits { all_lower digits.now ≡ true }
        ensures bytes { held self.new ≡ held self.old ++ packet_of digits.now }
        ensures front { self.new.at ≡ 0 }
    {
        let size = digits.len() / 2;
        decode_at(digits, self.end, &mut self.bytes);
        self.end += size;
    }

    /// Puts the record of the packet that digits say behind them, where none went since they were cleared.
    pub(crate) fn push_record(&mut self, digits: &[u8])
        requires front { self.old.at ≡ 0 }
        requires room { length (held self.old) + (16 + length digits.now / 2) ≤ 131072 }
        requires even { length digits.now % 2 ≡ 0 }
        requires digits { all_lower digits.now ≡ true }
        ensures bytes { held self.new ≡ held self.old ++ record_of (packet_of digits.now) }
        ensures front { self.new.at ≡ 0 }
    {
        self.push_header(digits.len());
        self.push_packet(digits);
    }

    // Puts the header of the record of a packet of so many digits behind them.
    fn push_header(&mut self, digits: usize)
        requires front { self.old.at ≡ 0 }
        requires room { length (held self.old) + 16 ≤ 131072 }
        requires few { digits ≤ 262144 }
        ensures bytes { held self.new ≡ held self.old ++ header_of (digits / 2) }
        ensures front { self.new.at ≡ 0 }
    {
        put_header(digits, &mut self.bytes, self.end);
        self.end += RECORD_HEADER;
    }

    /// Puts the record of the line in front of a text behind them, where none went since they were cleared, and says
    /// how many bytes the line has with its LF: none where it is not whole, or where there may be no room, and then
    /// they are as they were.
    pub(crate) fn push_line(&mut self, text: &[u8]) -> usize
        requires front { self.old.at ≡ 0 }
        ensures within { result ≤ length text.now }
        ensures none { result ≡ 0 → held self.new ≡ held self.old }
        ensures some { 0 < result → OneMore (take result text.now) (held self.old) (held self.new) }
        ensures front { self.new.at ≡ 0 }
    {
        if ROOM - self.end < RECORD_HEADER {
            return 0;
        }
        let digits = put_record(text, &mut self.bytes, self.end);
        if digits == 0 {
            return 0;
        }
        self.end += RECORD_HEADER + digits / 2;
        digits + 1
    }

    /// Writes them to a sink, from the front, until none is left or a call fails. Failed as the sink does, and then
    /// some are left.
    pub(crate) fn drain<S: Sink>(&mut self, sink: &mut S) -> Result<(), Failed>
        ensures sent { Went (held self.old) (S.got sink.old) (held self.new) (S.got sink.new) }
        ensures whole { OnOk result (held self.new ≡ []) }
        ensures part { OnErr result (held self.new ≢ []) }
        ensures later { S.faults sink.old ≤ S.faults sink.new }
        ensures cause { OnErr result (HasFailed (S.faults sink.old) (S.faults sink.new)) }
        ensures well { OnOk result (S.faults sink.new ≡ S.faults sink.old) }
    {
        while !self.is_empty() {
            let count = sink.write(self.bytes())?;
            self.pass(count);
        }
        Ok(())
    }

    /// Asks a source once for more, and says how many came. There are less than 65,543 before, so that there is room
    /// for some. Failed as the source does, and then they are as they were.
    pub(crate) fn ask<S: Source>(&mut self, source: &mut S) -> Result<usize, Failed>
        requires { length (held self.old) < 65543 }
        ensures bytes { S.left source.old ≡ before (drop (length (held self.old)) (held self.new)) (S.left source.new) }
        ensures more { held self.new ≡ held self.old ++ drop (length (held self.old)) (held self.new) }
        ensures size { IfOk result (λ n. length (held self.new) ≡ length (held self.old) + n) }
        ensures none { OnErr result (held self.new ≡ held self.old) }
        ensures end { result ≡ Ok 0 → HasEnded (S.left source.new) (S.ended source.new) }
        ensures later { S.faults source.old ≤ S.faults source.new }
        ensures cause { OnErr result (HasFailed (S.faults source.old) (S.faults source.new)) }
        ensures well { OnOk result (S.faults source.new ≡ S.faults source.old) }
    {
        self.to_front();
        match ask_behind(source, &mut self.bytes, self.end) {
            Ok(count) => {
                self.end += count;
                Ok(count)
            }
            Err(Failed) => Err(Failed),
        }
    }

    // Moves them to the buffer's front where behind them is little room.
    fn to_front(&mut self)
        requires { length (held self.old) < 65543 }
        ensures same { held self.new ≡ held self.old }
        ensures room { self.new.end < 131072 }
    {
        if self.end > ROOM / 2 {
            self.bytes.copy_within(self.at..self.end, 0);
            self.end -= self.at;
            self.at = 0;
        }
    }
}

// A buffer of so many bytes.
fn buffer(alloc: Global, room: usize) -> Result<Vec<u8>, Memory>
    ensures { IfOk result (λ bytes. vec_len bytes ≡ room) }
{
    Ok(vec![in alloc; 0u8; room]?)
}

// Puts bytes at the front of a buffer.
fn put_in_front(bytes: &[u8], buffer: &mut [u8])
    requires { length bytes.now ≤ length buffer.old }
    ensures { buffer.new ≡ bytes.now ++ drop (length bytes.now) buffer.old }
{
    buffer[..bytes.len()].copy_from_slice(bytes);
}

// Asks a source once for bytes behind the first `end` of a buffer, and says how many came.
fn ask_behind<S: Source>(source: &mut S, buffer: &mut [u8], end: usize) -> Result<usize, Failed>
    requires { end < length buffer.old }
    ensures front { take end buffer.new ≡ take end buffer.old }
    ensures bound { IfOk result (λ n. end + n ≤ length buffer.old) }
    ensures bytes { S.left source.old ≡ before (read_by result (drop end buffer.new)) (S.left source.new) }
    ensures end { result ≡ Ok 0 → HasEnded (S.left source.new) (S.ended source.new) }
    ensures later { S.faults source.old ≤ S.faults source.new }
    ensures cause { OnErr result (HasFailed (S.faults source.old) (S.faults source.new)) }
    ensures well { OnOk result (S.faults source.new ≡ S.faults source.old) }
{
    source.read(&mut buffer[end..])
}

// Puts the bytes that digits say into a buffer, from `at` on.
fn decode_at(digits: &[u8], at: usize, buffer: &mut [u8])
    requires room { at + length digits.now / 2 ≤ length buffer.old }
    requires even { length digits.now % 2 ≡ 0 }
    requires digits { all_lower digits.now ≡ true }
    ensures { take (at + length digits.now / 2) buffer.new ≡ take at buffer.old ++ packet_of digits.now }
{
    let size = digits.len() / 2;
    let _digits = decode_digits(digits, &mut buffer[at..at + size]);
}
