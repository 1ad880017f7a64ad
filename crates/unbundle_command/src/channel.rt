// A channel: its packets as lines for its client output, held until many of them leave at once, and how many packets
// and losses arrived on it.
ghost use Rattle.std.specs.Prelude.{◌≡◌, ◌+◌, ◌*◌, ◌-◌, ◌^◌, ◌≤◌, ◌∷◌, ◌++◌, min, ℕ, List, [], length, take, IfOk};
ghost use Rattle.otn_base.specs.declared.limits.TheConstants.{MOST_DELIVERED};
ghost use Rattle.port_base.specs.OutPlace.{out_view};
ghost use Rattle.port_base.specs.Views.{OutView};
ghost use Rattle.packet_text.specs.PacketText.{packet_line};
ghost use Rattle.unbundle_command.specs.declared.channel.TheConstants.{ROOM};

use otn_base::Memory;
use otn_base::limits::MOST_DELIVERED;
use packet_text::ByteDigits;
use port_base::{OutPlaceOf, Sink};
use std::alloc::Global;
use std::marker::Model;

// Bytes of a packet's line at most: two digits a byte, and a line feed.
const MOST_LINE: usize = 2 * MOST_DELIVERED + 1;

// Bytes that are held at most: the longest line, and many short ones.
const ROOM: usize = 65_536 + MOST_LINE;

/// A channel's lines that were made and not yet written, and how many packets and losses arrived on it.
#[derive(Drop)]
pub(crate) struct Channel {
    text: Vec<u8>,
    len: usize,
    packets: u64,
    losses: u64,
}

impl Model for Channel {
    ghost use Rattle.std.specs.Prelude.{◌≡◌, ◌≤◌, take, vec_len};
    ghost use Rattle.unbundle_command.specs.declared.channel.TheConstants.{ROOM};
    ghost use Rattle.unbundle_command.specs.Receiving.{ChannelView};

    ghost Value = { ChannelView };

    ghost view = { λ h. record { text = take h.len h.text.items; packets = h.packets; losses = h.losses } };

    ghost invariant = { λ h. record { room : vec_len h.text ≡ ROOM; within : h.len ≤ ROOM } };
}

impl Channel {
    ghost use Rattle.unbundle_command.specs.Steps.Receiving.{no_channel, LinesHeld};

    /// No line, and nothing that arrived. All memory is taken here.
    pub(crate) fn new(alloc: Global) -> Result<Channel, Memory>
        ensures { IfOk result (λ channel. channel ≡ no_channel) }
    {
        Ok(Channel {
            text: vec![in alloc; 0u8; ROOM]?,
            len: 0,
            packets: 0,
            losses: 0,
        })
    }

    /// How many packets arrived.
    pub(crate) fn packets(&self) -> u64
        ensures { result ≡ self.now.packets }
    {
        self.packets
    }

    /// How many losses arrived.
    pub(crate) fn losses(&self) -> u64
        ensures { result ≡ self.now.losses }
    {
        self.losses
    }

    /// A packet arrived: its line is due to the place. The lines before it leave where it has no room behind them.
    pub(crate) fn take<K: Sink>(
        &mut self,
        packet: &[u8],
        digits: &ByteDigits,
        place: &mut OutPlaceOf<K>,
    )
        requires fits { length packet.now ≤ MOST_DELIVERED }
        ensures lines { (first : OutView) (packets : List (List ℕ))
            → LinesHeld first (out_view K.Sink place.old) packets self.old.text
            → LinesHeld first (out_view K.Sink place.new) (packets ++ packet.now ∷ []) self.new.text }
        ensures packets { self.new.packets ≡ min (self.old.packets + 1) (2 ^ 64 - 1) }
        ensures losses { self.new.losses ≡ self.old.losses }
    {
        self.make_room(packet, place);
        self.hold(packet, digits);
    }

    /// A loss arrived.
    pub(crate) fn lose(&mut self)
        ensures text { self.new.text ≡ self.old.text }
        ensures packets { self.new.packets ≡ self.old.packets }
        ensures losses { self.new.losses ≡ min (self.old.losses + 1) (2 ^ 64 - 1) }
    {
        self.losses = self.losses.saturating_add(1);
    }

    /// All lines leave.
    pub(crate) fn flush<K: Sink>(&mut self, place: &mut OutPlaceOf<K>)
        ensures none { self.new.text ≡ [] }
        ensures lines { (first : OutView) (packets : List (List ℕ))
            → LinesHeld first (out_view K.Sink place.old) packets self.old.text
            → LinesHeld first (out_view K.Sink place.new) packets self.new.text }
        ensures packets { self.new.packets ≡ self.old.packets }
        ensures losses { self.new.losses ≡ self.old.losses }
    {
        let _written = place.write_lines(&self.text[..self.len]);
        self.len = 0;
    }

    // The lines leave where this packet's line has no room.
    fn make_room<K: Sink>(&mut self, packet: &[u8], place: &mut OutPlaceOf<K>)
        requires fits { length packet.now ≤ MOST_DELIVERED }
        ensures room { length self.new.text + (2 * length packet.now + 1) ≤ ROOM }
        ensures lines { (first : OutView) (packets : List (List ℕ))
            → LinesHeld first (out_view K.Sink place.old) packets self.old.text
            → LinesHeld first (out_view K.Sink place.new) packets self.new.text }
        ensures packets { self.new.packets ≡ self.old.packets }
        ensures losses { self.new.losses ≡ self.old.losses }
    {
        if self.len + (2 * packet.len() + 1) > ROOM {
            self.flush(place);
        }
    }

    // Makes the line of a packet, and counts it.
    fn hold(&mut self, packet: &[u8], digits: &ByteDigits)
        requires fits { length packet.now ≤ MOST_DELIVERED }
        requires room { length self.old.text + (2 * length packet.now + 1) ≤ ROOM }
        ensures text { self.new.text ≡ self.old.text ++ packet_line packet.now }
        ensures packets { self.new.packets ≡ min (self.old.packets + 1) (2 ^ 64 - 1) }
        ensures losses { self.new.losses ≡ self.old.losses }
    {
        self.len += digits.put_line(packet, &mut self.text[self.len..]);
        self.packets = self.packets.saturating_add(1);
    }
}
