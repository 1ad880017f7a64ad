// The lines of packets for a client's output, held until many of them leave at once.
ghost use Rattle.std.specs.Prelude.{◌≡◌, ◌+◌, ◌*◌, ◌≤◌, ◌∷◌, ◌++◌, ℕ, List, [], length, take, IfOk};
ghost use Rattle.otn_base.specs.declared.limits.TheConstants.{MOST_DELIVERED};
ghost use Rattle.port_base.specs.OutPlace.{out_view};
ghost use Rattle.port_base.specs.Views.{OutView};
ghost use Rattle.port_base.specs.declared.drain.Written.TheVariants.{Whole, Lost};
ghost use Rattle.device_model.specs.Numbers.{whole_lines};
ghost use Rattle.packet_text.specs.PacketText.{packet_line};
ghost use Rattle.cross_matrix.specs.declared.held_lines.TheConstants.{ROOM};

use otn_base::Memory;
use otn_base::limits::MOST_DELIVERED;
use packet_text::ByteDigits;
use port_base::{OutPlaceOf, Sink, Written, is_dead_out};
use std::alloc::Global;
use std::marker::Model;

const LF: u8 = b'\n';

// Bytes of a packet's line at most: two digits a byte, and a line feed.
const MOST_LINE: usize = 2 * MOST_DELIVERED + 1;

// Bytes that are held at most: the longest line, and many short ones.
const ROOM: usize = 65_536 + MOST_LINE;

/// Lines that were made and not yet written, how many they are, and how many packets count: those whose line was
/// written whole or, on an empty place, given up for writing.
#[derive(Drop)]
pub(crate) struct HeldLines {
    digits: ByteDigits,
    text: Vec<u8>,
    len: usize,
    count: u64,
    packets: u64,
}

impl Model for HeldLines {
    ghost use Rattle.std.specs.Prelude.{◌≡◌, ◌≤◌, take, vec_len};
    ghost use Rattle.cross_matrix.specs.declared.held_lines.TheConstants.{ROOM};
    ghost use Rattle.cross_matrix.specs.Receiving.{HeldView};

    ghost Value = { HeldView };

    ghost view = { λ h. record { text = take h.len h.text.items; count = h.count; packets = h.packets } };

    ghost invariant = { λ h. record { room : vec_len h.text ≡ ROOM; within : h.len ≤ ROOM; few : h.count ≤ h.len } };
}

impl HeldLines {
    ghost use Rattle.cross_matrix.specs.Receiving.{HeldView, NoneHeld};
    ghost use Rattle.cross_matrix.specs.Steps.Receiving.{IsNew, LinesHeld, LinesSent};

    /// No line, and no packet that counts. All memory is taken here.
    pub(crate) fn new(alloc: Global) -> Result<HeldLines, Memory>
        ensures { IfOk result IsNew }
    {
        Ok(HeldLines {
            digits: ByteDigits::new(),
            text: vec![in alloc; 0u8; ROOM]?,
            len: 0,
            count: 0,
            packets: 0,
        })
    }

    /// Begins anew.
    pub(crate) fn restart(&mut self)
        ensures { IsNew self.new }
    {
        self.len = 0;
        self.count = 0;
        self.packets = 0;
    }

    /// How many packets count.
    pub(crate) fn packets(&self) -> u64
        ensures { result ≡ self.now.packets }
    {
        self.packets
    }

    /// The line of a packet is due to the place. Those before it leave where it has no room behind them.
    pub(crate) fn take<K: Sink>(&mut self, packet: &[u8], place: &mut OutPlaceOf<K>)
        requires fits { length packet.now ≤ MOST_DELIVERED }
        ensures { (first : OutView) (packets : List (List ℕ))
            → LinesHeld first (out_view K.Sink place.old) packets self.old
            → LinesHeld first (out_view K.Sink place.new) (packets ++ packet.now ∷ []) self.new }
    {
        self.make_room(packet, place);
        self.add(packet, place);
    }

    /// All lines leave.
    pub(crate) fn flush<K: Sink>(&mut self, place: &mut OutPlaceOf<K>)
        ensures none { NoneHeld self.new }
        ensures sent { (first : OutView) (packets : List (List ℕ))
            → LinesHeld first (out_view K.Sink place.old) packets self.old
            → LinesSent first (out_view K.Sink place.new) packets self.new.packets }
    {
        let (answer, written) = place.write_lines(&self.text[..self.len]);
        let more = count_written(answer, &self.text[..written], self.count);
        self.packets = self.packets.saturating_add(more);
        self.len = 0;
        self.count = 0;
    }

    // The lines leave where this packet's line has no room.
    fn make_room<K: Sink>(&mut self, packet: &[u8], place: &mut OutPlaceOf<K>)
        requires fits { length packet.now ≤ MOST_DELIVERED }
        ensures room { length self.new.text + (2 * length packet.now + 1) ≤ ROOM }
        ensures held { (first : OutView) (packets : List (List ℕ))
            → LinesHeld first (out_view K.Sink place.old) packets self.old
            → LinesHeld first (out_view K.Sink place.new) packets self.new }
    {
        if self.len + (2 * packet.len() + 1) > ROOM {
            self.flush(place);
        }
    }

    // For a place that is dead no line is made, and no packet counts.
    fn add<K: Sink>(&mut self, packet: &[u8], place: &OutPlaceOf<K>)
        requires fits { length packet.now ≤ MOST_DELIVERED }
        requires room { length self.old.text + (2 * length packet.now + 1) ≤ ROOM }
        ensures { (first : OutView) (packets : List (List ℕ))
            → LinesHeld first (out_view K.Sink place.now) packets self.old
            → LinesHeld first (out_view K.Sink place.now) (packets ++ packet.now ∷ []) self.new }
    {
        if is_dead_out(place) {
            return;
        }
        self.hold(packet);
    }

    // Makes the line of a packet.
    fn hold(&mut self, packet: &[u8])
        requires fits { length packet.now ≤ MOST_DELIVERED }
        requires room { length self.old.text + (2 * length packet.now + 1) ≤ ROOM }
        ensures text { self.new.text ≡ self.old.text ++ packet_line packet.now }
        ensures count { self.new.count ≡ self.old.count + 1 }
        ensures packets { self.new.packets ≡ self.old.packets }
    {
        self.len += self.digits.put_line(packet, &mut self.text[self.len..]);
        self.count += 1;
    }
}

// How many packets count after a write of these many lines, of which these bytes were written.
fn count_written(answer: Written, written: &[u8], count: u64) -> u64
    ensures whole { answer ≡ Whole → result ≡ count }
    ensures lost { answer ≡ Lost → result ≡ whole_lines written.now }
{
    match answer {
        Written::Whole => count,
        Written::Lost => count_lines(written),
    }
}

// How many whole lines there are.
fn count_lines(bytes: &[u8]) -> u64
    ensures { result ≡ whole_lines bytes.now }
{
    bytes.iter().filter(|byte| **byte == LF).count() as u64
}
