// The channels with a client output, by CID, and how much arrived on others.
ghost use Rattle.std.specs.Prelude.{◌≡◌, ◌+◌, ◌-◌, ◌^◌, ◌<◌, ◌≤◌, ◌∷◌, ◌++◌, min, nat_lt, ℕ, List, [], length, IfOk, replicate, vec_len};
ghost use Rattle.otn_base.specs.declared.limits.TheConstants.{CLIENTS, MOST_DELIVERED};
ghost use Rattle.port_base.specs.Racks.{bays_view};
ghost use Rattle.port_base.specs.Views.{BaysView};
ghost use Rattle.gfp_linear.specs.ChannelArrivals.{ChannelArrival, PacketOn, LossOn, IsSized, seen};
ghost use Rattle.unbundle_command.specs.Steps.Receiving.{no_channel, ChannelsStand, OnlyClientsOut};

use crate::channel::Channel;
use gfp_linear::Arrival;
use otn_base::Memory;
use otn_base::limits::CLIENTS;
use packet_text::ByteDigits;
use port_base::{Rack, Sink, Source};
use std::alloc::Global;
use std::marker::Model;

/// What arrived on channels: the packets of those with a client output are due to it.
#[derive(Drop)]
pub(crate) struct Outputs {
    digits: ByteDigits,
    channels: Vec<Channel>,
    other: u64,
}

impl Model for Outputs {
    ghost use Rattle.std.specs.Prelude.{◌≡◌, vec_len};
    ghost use Rattle.otn_base.specs.declared.limits.TheConstants.{CLIENTS};
    ghost use Rattle.unbundle_command.specs.Receiving.{OutputsView};

    ghost Value = { OutputsView };

    ghost view = { λ o. record { channels = o.channels.items; other = o.other } };

    ghost invariant = { λ o. vec_len o.channels ≡ CLIENTS };
}

impl Outputs {
    ghost use Rattle.unbundle_command.specs.Steps.Receiving.{channel_at, OutputsStand, NoneHeld};

    /// Nothing has arrived. All memory is taken here.
    pub(crate) fn new(alloc: Global) -> Result<Outputs, Memory>
        ensures { IfOk result (λ outputs. (first : BaysView) → OutputsStand first first [] outputs) }
    {
        Ok(Outputs {
            digits: ByteDigits::new(),
            channels: new_channels(alloc, CLIENTS)?,
            other: 0,
        })
    }

    /// The channel of a CID that has a client output.
    pub(crate) fn channel(&self, cid: u8) -> &Channel
        requires { cid < CLIENTS }
        ensures { result.now ≡ channel_at self.now.channels cid }
    {
        &self.channels[cid as usize]
    }

    /// How much arrived on other channels.
    pub(crate) fn other(&self) -> u64
        ensures { result ≡ self.now.other }
    {
        self.other
    }

    /// This arrived: the line of a packet is due to its channel's client output.
    pub(crate) fn take<I: Source, O: Sink>(&mut self, arrival: Arrival<'_>, bays: &mut Rack<I, O>)
        requires sized { IsSized (seen arrival) }
        ensures stands { (first : BaysView) (arrived : List ChannelArrival)
            → OutputsStand first (bays_view I.Source O.Sink bays.old) arrived self.old
            → OutputsStand first (bays_view I.Source O.Sink bays.new) (arrived ++ seen arrival.entry ∷ []) self.new }
        ensures alone { OnlyClientsOut (bays_view I.Source O.Sink bays.old) (bays_view I.Source O.Sink bays.new) }
    {
        match arrival {
            Arrival::Packet(cid, packet) => self.take_packet(cid, packet, bays),
            Arrival::Loss(cid) => self.take_loss(cid),
        }
    }

    fn take_packet<I: Source, O: Sink>(&mut self, cid: u8, packet: &[u8], bays: &mut Rack<I, O>)
        requires fits { length packet.now ≤ MOST_DELIVERED }
        ensures stands { (first : BaysView) (arrived : List ChannelArrival)
            → OutputsStand first (bays_view I.Source O.Sink bays.old) arrived self.old
            → OutputsStand first (bays_view I.Source O.Sink bays.new) (arrived ++ PacketOn cid packet.now ∷ [])
            self.new }
        ensures alone { OnlyClientsOut (bays_view I.Source O.Sink bays.old) (bays_view I.Source O.Sink bays.new) }
    {
        if !has_output(cid) {
            self.count_other();
            return;
        }
        put_packet(&mut self.channels, cid, packet, &self.digits, bays);
    }

    fn take_loss(&mut self, cid: u8)
        ensures { (first now : BaysView) (arrived : List ChannelArrival) → OutputsStand first now arrived self.old
            → OutputsStand first now (arrived ++ LossOn cid ∷ []) self.new }
    {
        if !has_output(cid) {
            self.count_other();
            return;
        }
        put_loss(&mut self.channels, cid);
    }

    // Something arrived on a channel without a client output.
    fn count_other(&mut self)
        ensures { self.new ≡ record self.old { other = min (self.old.other + 1) (2 ^ 64 - 1) } }
    {
        self.other = self.other.saturating_add(1);
    }

    /// All lines leave.
    pub(crate) fn flush<I: Source, O: Sink>(&mut self, bays: &mut Rack<I, O>)
        ensures stands { (first : BaysView) (arrived : List ChannelArrival)
            → OutputsStand first (bays_view I.Source O.Sink bays.old) arrived self.old
            → OutputsStand first (bays_view I.Source O.Sink bays.new) arrived self.new }
        ensures none { NoneHeld CLIENTS self.new.channels }
        ensures alone { OnlyClientsOut (bays_view I.Source O.Sink bays.old) (bays_view I.Source O.Sink bays.new) }
    {
        flush_all(&mut self.channels, bays);
    }
}

// Whether the channel of this CID has a client output.
fn has_output(cid: u8) -> bool
    ensures { result ≡ nat_lt cid CLIENTS }
{
    (cid as usize) < CLIENTS
}

// So many channels on which nothing arrived.
fn new_channels(alloc: Global, count: usize) -> Result<Vec<Channel>, Memory>
    ensures { IfOk result (λ channels. channels.items ≡ replicate count no_channel) }
{
    let mut channels = Vec::new(alloc);
    for _ in 0..count {
        channels.push(Channel::new(alloc)?)?;
    }
    Ok(channels)
}

// A packet arrived on the channel of this CID.
fn put_packet<I: Source, O: Sink>(
    channels: &mut Vec<Channel>,
    cid: u8,
    packet: &[u8],
    digits: &ByteDigits,
    bays: &mut Rack<I, O>,
)
    requires many { vec_len channels.old ≡ CLIENTS }
    requires low { cid < CLIENTS }
    requires fits { length packet.now ≤ MOST_DELIVERED }
    ensures many { vec_len channels.new ≡ CLIENTS }
    ensures stands { (first : BaysView) (arrived : List ChannelArrival)
        → ChannelsStand first (bays_view I.Source O.Sink bays.old) arrived channels.old.items
        → ChannelsStand first (bays_view I.Source O.Sink bays.new)
        (arrived ++ PacketOn cid packet.now ∷ []) channels.new.items }
    ensures alone { OnlyClientsOut (bays_view I.Source O.Sink bays.old) (bays_view I.Source O.Sink bays.new) }
{
    channels[cid as usize].take(packet, digits, bays.client_out_mut(cid));
}

// A loss arrived on it.
fn put_loss(channels: &mut Vec<Channel>, cid: u8)
    requires many { vec_len channels.old ≡ CLIENTS }
    requires low { cid < CLIENTS }
    ensures many { vec_len channels.new ≡ CLIENTS }
    ensures stands { (first now : BaysView) (arrived : List ChannelArrival)
        → ChannelsStand first now arrived channels.old.items
        → ChannelsStand first now (arrived ++ LossOn cid ∷ []) channels.new.items }
{
    channels[cid as usize].lose();
}

ghost use Rattle.unbundle_command.specs.Steps.Receiving.{NoneHeld};

// All lines of all channels leave.
fn flush_all<I: Source, O: Sink>(channels: &mut Vec<Channel>, bays: &mut Rack<I, O>)
    requires many { vec_len channels.old ≡ CLIENTS }
    ensures many { vec_len channels.new ≡ CLIENTS }
    ensures stands { (first : BaysView) (arrived : List ChannelArrival)
        → ChannelsStand first (bays_view I.Source O.Sink bays.old) arrived channels.old.items
        → ChannelsStand first (bays_view I.Source O.Sink bays.new) arrived channels.new.items }
    ensures none { NoneHeld CLIENTS channels.new.items }
    ensures alone { OnlyClientsOut (bays_view I.Source O.Sink bays.old) (bays_view I.Source O.Sink bays.new) }
{
    for cid in 0..CLIENTS as u8 {
        flush_one(channels, cid, bays);
    }
}

// Those of one.
fn flush_one<I: Source, O: Sink>(channels: &mut Vec<Channel>, cid: u8, bays: &mut Rack<I, O>)
    requires many { vec_len channels.old ≡ CLIENTS }
    requires low { cid < CLIENTS }
    ensures many { vec_len channels.new ≡ CLIENTS }
    ensures stands { (first : BaysView) (arrived : List ChannelArrival)
        → ChannelsStand first (bays_view I.Source O.Sink bays.old) arrived channels.old.items
        → ChannelsStand first (bays_view I.Source O.Sink bays.new) arrived channels.new.items }
    ensures none { NoneHeld cid channels.old.items → NoneHeld (cid + 1) channels.new.items }
    ensures alone { OnlyClientsOut (bays_view I.Source O.Sink bays.old) (bays_view I.Source O.Sink bays.new) }
{
    channels[cid as usize].flush(bays.client_out_mut(cid));
}
