// The stream of all channels: which one gives the next frame, and its bytes.
ghost use Rattle.std.specs.Prelude.{◌≡◌, ◌≢◌, ◌<◌, ◌≤◌, ◌+◌, ◌++◌, ℕ, List, [], true, IfOk, length, take, vec_len};
ghost use Rattle.otn_base.specs.declared.limits.TheConstants.{CLIENT_PAYLOAD_BYTES};
ghost use Rattle.port_base.specs.Racks.{bays_view};
ghost use Rattle.port_base.specs.Views.{BaysView};
ghost use Rattle.odu_client.specs.AlignedRuns.{payload_of};
ghost use Rattle.gfp_linear.specs.Weaver.{HasWoven, woven_first};
ghost use Rattle.packet_text.specs.LinesStand.{lines_view};
ghost use Rattle.client_list.specs.ClientLists.{IsClientList};
ghost use Rattle.bundle_command.specs.Steps.Channels.{AreFresh, AreOpen, AreOver, ChannelAsked, HasChannel, IsAsked, IsReady, IsTold, GoesRound, WeavingStands, WeavingReady, is_over};
ghost use Rattle.bundle_command.specs.Steps.Framed.{OnlyInputs};

use crate::channel::{Channel, Standing};
use frame_geometry::Frame;
use gfp_linear::ChannelMaker;
use otn_base::Memory;
use otn_base::limits::CLIENT_COLUMNS;
use port_base::{Rack, Sink, Source};
use std::alloc::Global;

/// Bytes of a channel's frame beside its packet: core header, payload header, extension header and FCS.
const FRAME_OVERHEAD: u64 = 16;

/// The channels, and the maker of their frames.
#[derive(Drop)]
pub(crate) struct Weaving {
    pub(crate) channels: Vec<Channel>,
    pub(crate) maker: ChannelMaker,
    // Bytes that were emitted, and those up to the end of the last packet's frame.
    pub(crate) emitted: u64,
    pub(crate) end: u64,
}

impl Weaving {
    /// The channels of these clients, before the first byte. All memory is taken here.
    pub(crate) fn new(alloc: Global, clients: &[u8]) -> Result<Weaving, Memory>
        requires { IsClientList clients.now }
        ensures { IfOk result (λ weaving. (first : BaysView) → WeavingStands clients.now first first [] weaving) }
    {
        let maker = new_maker(alloc, clients)?;
        let channels = new_channels(alloc, clients)?;
        Ok(Weaving {
            channels,
            maker,
            emitted: 0,
            end: 0,
        })
    }

    /// The next bytes of the stream, as the payload of a frame, row by row.
    pub(crate) fn fill_payload<I: Source, O: Sink>(
        &mut self,
        bays: &mut Rack<I, O>,
        frame: &mut Frame<CLIENT_COLUMNS>,
    )
        requires ready { IsReady (bays_view I.Source O.Sink bays.old) self.old }
        ensures size { length (payload_of frame.new) ≡ CLIENT_PAYLOAD_BYTES }
        ensures stands { (clients : List ℕ) (first : BaysView) (emitted : List ℕ)
            → WeavingStands clients first (bays_view I.Source O.Sink bays.old) emitted self.old
            → WeavingStands clients first (bays_view I.Source O.Sink bays.new)
            (emitted ++ payload_of frame.new) self.new }
        ensures alone { OnlyInputs (bays_view I.Source O.Sink bays.old) (bays_view I.Source O.Sink bays.new) }
    {
        self.fill(bays, frame.payload_row_mut(1));
        self.fill(bays, frame.payload_row_mut(2));
        self.fill(bays, frame.payload_row_mut(3));
        self.fill(bays, frame.payload_row_mut(4));
    }

    // The next bytes of the stream.
    fn fill<I: Source, O: Sink>(&mut self, bays: &mut Rack<I, O>, into: &mut [u8])
        requires ready { IsReady (bays_view I.Source O.Sink bays.old) self.old }
        ensures size { length into.new ≡ length into.old }
        ensures stands { (clients : List ℕ) (first : BaysView) (emitted : List ℕ)
            → WeavingStands clients first (bays_view I.Source O.Sink bays.old) emitted self.old
            → WeavingStands clients first (bays_view I.Source O.Sink bays.new) (emitted ++ into.new) self.new }
        ensures ready { IsReady (bays_view I.Source O.Sink bays.new) self.new }
        ensures alone { OnlyInputs (bays_view I.Source O.Sink bays.old) (bays_view I.Source O.Sink bays.new) }
    {
        let mut done = 0;
        while done < into.len() {
            done += self.step(bays, &mut into[done..]);
        }
    }

    // The next bytes of the stream: how many. Once no channel gives a frame any more, and none is in hand, all of them
    // are idle frames.
    fn step<I: Source, O: Sink>(&mut self, bays: &mut Rack<I, O>, into: &mut [u8]) -> usize
        requires ready { IsReady (bays_view I.Source O.Sink bays.old) self.old }
        requires room { 1 ≤ length into.old }
        ensures some { 1 ≤ result }
        ensures within { result ≤ length into.old }
        ensures size { length into.new ≡ length into.old }
        ensures stands { (clients : List ℕ) (first : BaysView) (emitted : List ℕ)
            → WeavingStands clients first (bays_view I.Source O.Sink bays.old) emitted self.old
            → WeavingStands clients first (bays_view I.Source O.Sink bays.new)
            (emitted ++ take result into.new) self.new }
        ensures ready { IsReady (bays_view I.Source O.Sink bays.new) self.new }
        ensures alone { OnlyInputs (bays_view I.Source O.Sink bays.old) (bays_view I.Source O.Sink bays.new) }
    {
        if self.is_idle() {
            return self.give_idle(into);
        }
        self.step_frame(bays, into)
    }

    // Whether no frame is in hand, and no channel gives one any more.
    fn is_idle(&self) -> bool
        ensures idle { result ≡ true → self.now.maker.maker.hand ≡ [] }
        ensures over { result ≡ true → AreOver self.now.channels.items }
    {
        if self.maker.next_asked().is_none() {
            return false;
        }
        are_over(&self.channels)
    }

    // Idle frames, as many bytes as there is room for: so many.
    fn give_idle(&mut self, into: &mut [u8]) -> usize
        requires idle { self.old.maker.maker.hand ≡ [] }
        requires over { AreOver self.old.channels.items }
        requires room { 1 ≤ length into.old }
        ensures count { result ≡ length into.old }
        ensures size { length into.new ≡ length into.old }
        ensures stands { (clients : List ℕ) (first now : BaysView) (emitted : List ℕ)
            → WeavingReady clients first now emitted self.old
            → WeavingStands clients first now (emitted ++ into.new) self.new }
    {
        self.maker.give_idle(into);
        self.emitted = self.emitted.saturating_add(into.len() as u64);
        into.len()
    }

    // The next bytes of one frame: how many.
    fn step_frame<I: Source, O: Sink>(&mut self, bays: &mut Rack<I, O>, into: &mut [u8]) -> usize
        requires ready { IsReady (bays_view I.Source O.Sink bays.old) self.old }
        requires room { 1 ≤ length into.old }
        ensures some { 1 ≤ result }
        ensures within { result ≤ length into.old }
        ensures size { length into.new ≡ length into.old }
        ensures stands { (clients : List ℕ) (first : BaysView) (emitted : List ℕ)
            → WeavingStands clients first (bays_view I.Source O.Sink bays.old) emitted self.old
            → WeavingStands clients first (bays_view I.Source O.Sink bays.new)
            (emitted ++ take result into.new) self.new }
        ensures ready { IsReady (bays_view I.Source O.Sink bays.new) self.new }
        ensures alone { OnlyInputs (bays_view I.Source O.Sink bays.old) (bays_view I.Source O.Sink bays.new) }
    {
        self.have_frame(bays);
        let count = self.maker.give_bytes(into);
        self.emitted = self.emitted.saturating_add(count as u64);
        count
    }

    // Asks the channels until a frame is in hand.
    fn have_frame<I: Source, O: Sink>(&mut self, bays: &mut Rack<I, O>)
        requires ready { IsReady (bays_view I.Source O.Sink bays.old) self.old }
        ensures some { self.new.maker.maker.hand ≢ [] }
        ensures stands { (clients : List ℕ) (first : BaysView) (emitted : List ℕ)
            → WeavingReady clients first (bays_view I.Source O.Sink bays.old) emitted self.old
            → WeavingReady clients first (bays_view I.Source O.Sink bays.new) emitted self.new }
        ensures alone { OnlyInputs (bays_view I.Source O.Sink bays.old) (bays_view I.Source O.Sink bays.new) }
    {
        loop {
            let Some(index) = self.maker.next_asked() else {
                return;
            };
            self.ask(index as usize, bays);
        }
    }

    // The channel that is asked answers.
    fn ask<I: Source, O: Sink>(&mut self, index: usize, bays: &mut Rack<I, O>)
        requires ready { IsReady (bays_view I.Source O.Sink bays.old) self.old }
        requires idle { self.old.maker.maker.hand ≡ [] }
        requires within { index < length self.old.maker.cids }
        requires asked { IsAsked index self.old.maker }
        ensures stands { (clients : List ℕ) (first : BaysView) (emitted : List ℕ)
            → WeavingReady clients first (bays_view I.Source O.Sink bays.old) emitted self.old
            → WeavingReady clients first (bays_view I.Source O.Sink bays.new) emitted self.new }
        ensures round { GoesRound self.old.maker self.new.maker }
        ensures alone { OnlyInputs (bays_view I.Source O.Sink bays.old) (bays_view I.Source O.Sink bays.new) }
    {
        let answer = ask_channel(&mut self.channels, index, bays);
        self.tell(index, answer);
    }

    // Tells the maker what the channel that is asked answered.
    fn tell(&mut self, index: usize, answer: Standing)
        requires idle { self.old.maker.maker.hand ≡ [] }
        requires within { index < vec_len self.old.channels }
        requires packet { (channel : Channel) → answer ≡ Standing.Going
            → HasChannel self.old.channels.items index channel
            → (1 ≤ length (lines_view channel.lines).packet) × (length (lines_view channel.lines).packet ≤ 65523) }
        ensures told { (channel : Channel) → HasChannel self.old.channels.items index channel
            → IsTold answer (lines_view channel.lines).packet self.old self.new }
        ensures round { GoesRound self.old.maker self.new.maker }
    {
        match answer {
            Standing::Going => self.put_packet(index),
            Standing::Lost => self.maker.lost(),
            _ => self.maker.nothing(),
        }
    }

    // The channel gave a packet.
    fn put_packet(&mut self, index: usize)
        requires idle { self.old.maker.maker.hand ≡ [] }
        requires within { index < vec_len self.old.channels }
        requires packet { (channel : Channel) → HasChannel self.old.channels.items index channel
            → (1 ≤ length (lines_view channel.lines).packet) × (length (lines_view channel.lines).packet ≤ 65523) }
        ensures told { (channel : Channel) → HasChannel self.old.channels.items index channel
            → IsTold Standing.Going (lines_view channel.lines).packet self.old self.new }
        ensures hand { self.new.maker.maker.hand ≢ [] }
    {
        let packet = self.channels[index].packet();
        self.maker.give(packet);
        self.end = self
            .emitted
            .saturating_add(packet.len() as u64 + FRAME_OVERHEAD);
    }
}

// Whether the text of each channel is over, and none of its clients is lost.
fn are_over(channels: &[Channel]) -> bool
    ensures { result ≡ true → AreOver channels.now }
{
    for channel in channels {
        if !is_over(channel.standing) {
            return false;
        }
    }
    true
}

fn is_over(standing: Standing) -> bool
    ensures { result ≡ is_over standing }
{
    match standing {
        Standing::Ended => true,
        Standing::Bad => true,
        Standing::Fresh => false,
        Standing::Going => false,
        Standing::Lost => false,
        Standing::More => false,
    }
}

// Asks the channel at this index.
fn ask_channel<I: Source, O: Sink>(
    channels: &mut Vec<Channel>,
    index: usize,
    bays: &mut Rack<I, O>,
) -> Standing
    requires within { index < vec_len channels.old }
    requires place { (channel : Channel) → HasChannel channels.old.items index channel → channel.client < 16 }
    requires open { AreOpen channels.old.items }
    ensures asked { ChannelAsked index (bays_view I.Source O.Sink bays.old) channels.old.items
        (bays_view I.Source O.Sink bays.new) channels.new.items result }
    ensures alone { OnlyInputs (bays_view I.Source O.Sink bays.old) (bays_view I.Source O.Sink bays.new) }
{
    let client = channels[index].client;
    channels[index].next(bays.client_in_mut(client))
}

// The maker for the channels of these clients.
fn new_maker(alloc: Global, clients: &[u8]) -> Result<ChannelMaker, Memory>
    requires { IsClientList clients.now }
    ensures { IfOk result (λ maker. HasWoven clients.now woven_first [] maker) }
{
    match ChannelMaker::new(alloc, clients)? {
        Some(maker) => Ok(maker),
        None => unreachable!(),
    }
}

// The channels of these clients.
fn new_channels(alloc: Global, clients: &[u8]) -> Result<Vec<Channel>, Memory>
    requires { IsClientList clients.now }
    ensures { IfOk result (λ channels. AreFresh clients.now channels.items) }
{
    let mut channels = Vec::new(alloc);
    for client in clients {
        channels.push(Channel::new(alloc, *client)?)?;
    }
    Ok(channels)
}
