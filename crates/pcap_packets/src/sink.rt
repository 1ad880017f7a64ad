// A sink that writes lines of hex digits as the records of a capture.
ghost use Rattle.std.specs.Prelude.{false, ◌≡◌, ◌≢◌, ◌<◌, ◌≤◌, ◌-◌, ◌^◌, min, ℕ, List, [], ◌∷◌, Some, IfSome, IfOk, IsErr, OnOk, OnErr, length, take, drop, slice_index, ◌⊎◌};
ghost use Rattle.std.specs.Option.{option_map};
ghost use Rattle.std.proofs.Props.{props};
ghost use Rattle.port_base.specs.Bytes.{after, sent, HasFailed};
ghost use Rattle.port_base.specs.Writes.{IsWriting};
ghost use Rattle.port_base.specs.declared.drain.Written.TheVariants as written;
ghost use Rattle.pcap_packets.specs.HeldBytes.{held};
ghost use Rattle.pcap_packets.specs.Writing.{Stands};

use crate::record::LineRecord;
use otn_base::Memory;
use port_base::{Failed, Sink, Written};
use std::alloc::Global;

const LF: u8 = b'\n';

/// Writes each line of hex digits in lower case that it takes as a record of a capture to another sink: the header goes
/// with the first. A write of a digit takes the digits up to the first byte that is none, at most 131,062 in a line. A
/// write of LF behind digits of even count, two at least, writes the line's record and takes this one byte; where the
/// sink below fails in that, the line has no room for further digits, and the next LF goes on with the rest. Any other
/// write fails by itself.
#[derive(Drop)]
pub struct PcapSink<S: Sink> {
    inner: S,
    lines: LineRecord,
    // How many writes failed by themselves.
    own: u64,
    ghost stands: { (bytes : List ℕ) → S.got inner ≡ Some bytes → Stands lines.begun (held lines.line) (held lines.rest) bytes } by { Prim.hlevel props },
}

impl<S: Sink> PcapSink<S> {
    ghost use Rattle.pcap_packets.specs.Sinks.{written_got, written_faults, written_to, has_rest, takes};
    ghost use Rattle.pcap_packets.specs.Written.{capture_of, packets_written};
    ghost use Rattle.pcap_packets.specs.Laws.{ReadsBack};

    /// Writes a capture to this sink, which has got nothing. All memory, 256 KiB and a little, is taken
    /// here.
    pub fn new(alloc: Global, inner: S) -> Result<PcapSink<S>, Memory>
        requires { IfSome (S.got inner) (λ got. got ≡ []) }
        ensures got { IfOk result (λ sink. written_got S.got sink ≡ option_map (λ _. []) (S.got inner)) }
        ensures faults { IfOk result (λ sink. written_faults S.faults sink ≡ min (S.faults inner) (2 ^ 64 - 1)) }
    {
        Ok(PcapSink {
            inner,
            lines: LineRecord::new(alloc)?,
            own: 0,
        })
    }

    /// The sink that the capture went to. Where that tells its bytes, they read back as the packets of the lines that
    /// were taken, up to the first packet of more than 65,527 bytes, and where no write failed they are the capture of
    /// these packets; that of no packet has no byte, which is no capture.
    pub fn inner(&self) -> &S
        ensures same { result.now ≡ written_to self.now }
        ensures whole { (bytes : List ℕ) → S.got result.now ≡ Some bytes → has_rest self.now ≡ false
            → bytes ≡ capture_of (packets_written bytes) }
        ensures reads { (bytes : List ℕ) → S.got result.now ≡ Some bytes → ReadsBack bytes }
    {
        &self.inner
    }

    // A write that fails by itself.
    fn refuse(&mut self) -> Result<usize, Failed>
        ensures refused { IsErr result }
        ensures lines { self.new.lines ≡ self.old.lines }
        ensures got { written_got S.got self.new ≡ written_got S.got self.old }
        ensures later { written_faults S.faults self.old ≤ written_faults S.faults self.new }
        ensures cause { HasFailed (written_faults S.faults self.old) (written_faults S.faults self.new) }
    {
        self.own = self.own.saturating_add(1);
        Err(Failed)
    }

    // Ends the line, or goes on with its record: so the LF is taken.
    fn end_line(&mut self) -> Result<usize, Failed>
        ensures taken { (more : List ℕ) → IfOk result (λ n. n ≡ takes self.old (10 ∷ more)) }
        ensures fails { (more : List ℕ) → OnErr result
            ((takes self.old (10 ∷ more) ≡ 0)
            ⊎ HasFailed (S.faults (written_to self.old)) (S.faults (written_to self.new))) }
        ensures refused { (more : List ℕ)
            → OnErr result ((takes self.new (10 ∷ more) ≡ 0)
            ⊎ HasFailed (S.faults (written_to self.old)) (S.faults (written_to self.new))) }
        ensures still { OnOk result (S.faults (written_to self.new) ≡ S.faults (written_to self.old)) }
        ensures one { IfOk result (λ n. n ≡ 1) }
        ensures got { written_got S.got self.new ≡ after (written_got S.got self.old) (sent result (10 ∷ [])) }
        ensures later { written_faults S.faults self.old ≤ written_faults S.faults self.new }
        ensures cause { OnErr result (HasFailed (written_faults S.faults self.old) (written_faults S.faults self.new)) }
        ensures well { OnOk result (written_faults S.faults self.new ≡ written_faults S.faults self.old) }
    {
        if self.lines.is_writing() {
            return self.write_record();
        }
        if !self.lines.end_line() {
            return self.refuse();
        }
        self.write_record()
    }

    // Writes what is left of the record, and takes its LF.
    fn write_record(&mut self) -> Result<usize, Failed>
        requires { held self.old.lines.rest ≢ [] }
        ensures taken { IfOk result (λ n. n ≡ 1) }
        ensures fails { OnErr result (HasFailed (S.faults (written_to self.old)) (S.faults (written_to self.new))) }
        ensures still { OnOk result (S.faults (written_to self.new) ≡ S.faults (written_to self.old)) }
        ensures got { written_got S.got self.new ≡ after (written_got S.got self.old) (sent result (10 ∷ [])) }
        ensures later { written_faults S.faults self.old ≤ written_faults S.faults self.new }
        ensures cause { OnErr result (HasFailed (written_faults S.faults self.old) (written_faults S.faults self.new)) }
        ensures well { OnOk result (written_faults S.faults self.new ≡ written_faults S.faults self.old) }
    {
        match self.lines.write(&mut self.inner) {
            Ok(()) => Ok(1),
            Err(Failed) => Err(Failed),
        }
    }

    // Takes digits.
    fn take_digits(&mut self, bytes: &[u8]) -> Result<usize, Failed>
        requires { slice_index bytes.now 0 ≢ 10 }
        ensures taken { IfOk result (λ n. n ≡ takes self.old bytes.now) }
        ensures fails { OnErr result (takes self.old bytes.now ≡ 0) }
        ensures refused { OnErr result (takes self.new bytes.now ≡ 0) }
        ensures still { OnOk result (S.faults (written_to self.new) ≡ S.faults (written_to self.old)) }
        ensures bound { IfOk result (λ n. n ≤ length bytes.now) }
        ensures progress { IfOk result (λ n. 0 < n) }
        ensures got { written_got S.got self.new ≡ after (written_got S.got self.old) (sent result bytes.now) }
        ensures later { written_faults S.faults self.old ≤ written_faults S.faults self.new }
        ensures cause { OnErr result (HasFailed (written_faults S.faults self.old) (written_faults S.faults self.new)) }
        ensures well { OnOk result (written_faults S.faults self.new ≡ written_faults S.faults self.old) }
    {
        if self.lines.is_writing() {
            return self.refuse();
        }
        match self.lines.take_digits(bytes) {
            0 => self.refuse(),
            count => Ok(count),
        }
    }

    // Writes from the front: whole lines together, or else what one write takes.
    fn write_some(&mut self, lines: &[u8]) -> (Written, usize)
        requires { 0 < length lines.now }
        ensures within { result.1 ≤ length lines.now }
        ensures progress { result.0 ≢ Written.Lost → 0 < result.1 }
        ensures part { result.0 ≡ Written.Lost → result.1 < length lines.now }
        ensures got { written_got S.got self.new ≡ after (written_got S.got self.old) (take result.1 lines.now) }
        ensures fails { result.0 ≡ Written.Lost
            → (takes self.new (drop result.1 lines.now) ≡ 0)
            ⊎ HasFailed (S.faults (written_to self.old)) (S.faults (written_to self.new)) }
        ensures still { result.0 ≢ Written.Lost → S.faults (written_to self.new) ≡ S.faults (written_to self.old) }
        ensures later { written_faults S.faults self.old ≤ written_faults S.faults self.new }
        ensures cause { result.0 ≡ Written.Lost
            → HasFailed (written_faults S.faults self.old) (written_faults S.faults self.new) }
        ensures well { result.0 ≢ Written.Lost → written_faults S.faults self.new ≡ written_faults S.faults self.old }
    {
        let (answer, sent) = self.write_together(lines);
        if sent > 0 {
            return (answer, sent);
        }
        self.write_one(lines)
    }

    // Writes what one write takes.
    fn write_one(&mut self, lines: &[u8]) -> (Written, usize)
        requires { 0 < length lines.now }
        ensures within { result.1 ≤ length lines.now }
        ensures progress { result.0 ≢ Written.Lost → 0 < result.1 }
        ensures part { result.0 ≡ Written.Lost → result.1 ≡ 0 }
        ensures got { written_got S.got self.new ≡ after (written_got S.got self.old) (take result.1 lines.now) }
        ensures fails { result.0 ≡ Written.Lost
            → (takes self.new lines.now ≡ 0)
            ⊎ HasFailed (S.faults (written_to self.old)) (S.faults (written_to self.new)) }
        ensures still { result.0 ≢ Written.Lost → S.faults (written_to self.new) ≡ S.faults (written_to self.old) }
        ensures later { written_faults S.faults self.old ≤ written_faults S.faults self.new }
        ensures cause { result.0 ≡ Written.Lost
            → HasFailed (written_faults S.faults self.old) (written_faults S.faults self.new) }
        ensures well { result.0 ≢ Written.Lost → written_faults S.faults self.new ≡ written_faults S.faults self.old }
    {
        match self.write(lines) {
            Ok(n) => (Written::Whole, n),
            Err(Failed) => (Written::Lost, 0),
        }
    }

    // Writes the records of the whole lines at the front together, and says how many bytes of the lines went: none
    // where no record was made before, a line is in hand, or the first line is not whole.
    fn write_together(&mut self, lines: &[u8]) -> (Written, usize)
        ensures within { result.1 ≤ length lines.now }
        ensures part { result.0 ≡ Written.Lost → (0 < result.1) × (result.1 < length lines.now) }
        ensures got { written_got S.got self.new ≡ after (written_got S.got self.old) (take result.1 lines.now) }
        ensures fails { result.0 ≡ Written.Lost
            → HasFailed (S.faults (written_to self.old)) (S.faults (written_to self.new)) }
        ensures still { result.0 ≢ Written.Lost → S.faults (written_to self.new) ≡ S.faults (written_to self.old) }
        ensures later { written_faults S.faults self.old ≤ written_faults S.faults self.new }
        ensures cause { result.0 ≡ Written.Lost
            → HasFailed (written_faults S.faults self.old) (written_faults S.faults self.new) }
        ensures well { result.0 ≢ Written.Lost → written_faults S.faults self.new ≡ written_faults S.faults self.old }
    {
        if !self.lines.is_between() {
            return (Written::Whole, 0);
        }
        self.lines.write_lines(&mut self.inner, lines)
    }
}

impl<S: Sink> Sink for PcapSink<S> {
    ghost use Rattle.pcap_packets.specs.Sinks.{written_got, written_faults, written_to, takes};

    ghost got = { written_got S.got };

    ghost faults = { written_faults S.faults };

    ghost keeps = { λ _. false };

    /// Takes LF alone, or the digits in front. Failed where there is none of these to take, and then its own count rose
    /// or stands at its end, or where the sink below failed.
    fn write(&mut self, bytes: &[u8]) -> Result<usize, Failed>
        ensures taken { IfOk result (λ n. n ≡ takes self.old bytes.now) }
        ensures fails { OnErr result ((takes self.old bytes.now ≡ 0)
            ⊎ HasFailed (S.faults (written_to self.old)) (S.faults (written_to self.new))) }
        ensures refused { OnErr result ((takes self.new bytes.now ≡ 0)
            ⊎ HasFailed (S.faults (written_to self.old)) (S.faults (written_to self.new))) }
        ensures still { OnOk result (S.faults (written_to self.new) ≡ S.faults (written_to self.old)) }
        ensures bound { IfOk result (λ n. n ≤ length bytes.now) }
        ensures progress { IfOk result (λ n. 0 < length bytes.now → 0 < n) }
        ensures bytes { written_got S.got self.new ≡ after (written_got S.got self.old) (sent result bytes.now) }
        ensures later { written_faults S.faults self.old ≤ written_faults S.faults self.new }
        ensures cause { OnErr result (HasFailed (written_faults S.faults self.old) (written_faults S.faults self.new)) }
        ensures well { OnOk result (written_faults S.faults self.new ≡ written_faults S.faults self.old) }
    {
        let Some(first) = bytes.first() else {
            return Ok(0);
        };
        if *first == LF {
            self.end_line()
        } else {
            self.take_digits(bytes)
        }
    }

    /// Writes whole lines together, as many as the buffer has room for, so that many records leave in one write of the
    /// sink below; what is no whole line goes as `write` has it. Lost where what comes next is nothing to take, or
    /// where the sink below failed: then the line in which it stopped is in hand, and the lines behind it are not
    /// taken.
    fn write_lines(&mut self, lines: &[u8]) -> (Written, usize)
        ensures within { result.1 ≤ length lines.now }
        ensures bytes { written_got S.got self.new ≡ after (written_got S.got self.old) (take result.1 lines.now) }
        ensures writing { IsWriting result.0 result.1 (length lines.now) }
        ensures fails { result.0 ≡ Written.Lost
            → (takes self.new (drop result.1 lines.now) ≡ 0)
            ⊎ HasFailed (S.faults (written_to self.old)) (S.faults (written_to self.new)) }
        ensures later { written_faults S.faults self.old ≤ written_faults S.faults self.new }
        ensures cause { result.0 ≡ Written.Lost
            → HasFailed (written_faults S.faults self.old) (written_faults S.faults self.new) }
        ensures well { result.0 ≢ Written.Lost → written_faults S.faults self.new ≡ written_faults S.faults self.old }
    {
        let mut done = 0;
        while done < lines.len() {
            let (answer, sent) = self.write_some(&lines[done..]);
            done += sent;
            if answer == Written::Lost {
                return (Written::Lost, done);
            }
        }
        (Written::Whole, done)
    }

    fn kept(&self) -> Option<&[u8]> {
        None
    }
}
