// The frames of several channels in one stream.
ghost use Rattle.std.specs.Prelude.{◌≡◌, ◌≢◌, ℕ, ◌+◌, ◌-◌, ◌/◌, ◌%◌, ◌<◌, ◌≤◌, min, List, [], ◌∷◌, ◌++◌, IsNone, IfNone, IfSome, IfOk, Some, None, length, take, drop, map, replicate, true, false, slice_index, vec_len};
ghost use Rattle.gfp_linear.specs.ChannelFrames.{IsCidList};
ghost use Rattle.gfp_linear.specs.Weave.{WovenFrame, PacketFrame, loss_due};
ghost use Rattle.gfp_linear.specs.Weaver.{WeaverState, Woven, woven_first, woven_on, channel_at, idles_on, HasWoven};
ghost use Rattle.gfp_linear.specs.Steps.Weaver.{idle_put, given_on, packet_put, loss_put};

use crate::area::{append_loss_area, append_packet_area};
use gfp_frames::GfpMaker;
use otn_base::{Memory, append};
use std::alloc::Global;
use std::marker::Model;

/// Bytes of a payload area at most.
const MOST_AREA: usize = 65_535;

/// Bytes of an idle frame.
const IDLE_BYTES: usize = 4;

/// How many frames pass between two loss frames of a channel at least.
const LOSS_PAUSE: u32 = 1_000;

/// Makes the bytes of a stream of linear GFP frames (G.7041 clause 6.1.2.1.3.2) that carries several channels. Channels
/// count from 0, in the order of their channel identifiers. Where no frame is in hand, the channels are asked in turn
/// for the next one, beginning after the channel that gave the last; each answer is told by `give`, `nothing` or
/// `lost`.
#[derive(Drop)]
pub struct ChannelMaker {
    cids: Vec<u8>,
    // For each channel, how many frames have to pass before its next loss frame.
    waits: Vec<u32>,
    maker: GfpMaker,
    // Where the plain area of a frame is made.
    area: Vec<u8>,
    // The channel that is asked first for the next frame, and how many others gave nothing for it.
    first: usize,
    asked: usize,
}

impl Model for ChannelMaker {
    ghost use Rattle.std.specs.Prelude.{◌≡◌, ◌<◌, ◌≤◌, vec_len};
    ghost use Rattle.std.specs.Vec.{vec_capacity};
    ghost use Rattle.gfp_linear.specs.Weaver.{WeaverState};

    ghost Value = { WeaverState };

    ghost view = { λ m. record { cids = m.cids.items; waits = m.waits.items; maker = m.maker; first = m.first; asked = m.asked } };

    ghost invariant = { λ m. (vec_len m.waits ≡ vec_len m.cids) × (vec_len m.cids ≤ 256) × (m.first < vec_len m.cids) × (m.asked < vec_len m.cids) × (65535 ≤ vec_capacity m.area) };
}

impl ChannelMaker {
    /// A maker for the channels of these identifiers, with the first idle frame in hand; None where the list is empty
    /// or does not rise strictly. All memory is taken here.
    pub fn new(alloc: Global, cids: &[u8]) -> Result<Option<ChannelMaker>, Memory>
        ensures none { IfOk result (λ made. IfNone made (IsCidList cids.now → ⊥)) }
        ensures some { IfOk result (λ made. IfSome made
            (λ maker. IsCidList cids.now × HasWoven cids.now woven_first [] maker)) }
    {
        if !are_cids(cids) {
            return Ok(None);
        }
        let mut list = Vec::with_capacity(alloc, cids.len())?;
        append(&mut list, cids);
        Ok(Some(ChannelMaker {
            cids: list,
            waits: no_waits(alloc, cids.len())?,
            maker: GfpMaker::new(alloc)?,
            area: Vec::with_capacity(alloc, MOST_AREA)?,
            first: 0,
            asked: 0,
        }))
    }

    /// The channel that is to be asked for the next frame; None where a frame is in hand.
    pub fn next_asked(&self) -> Option<u32>
        ensures none { IsNone result → self.now.maker.hand ≢ [] }
        ensures some { IfSome result (λ channel. (self.now.maker.hand ≡ []) × (channel < length self.now.cids)) }
        ensures asked { (cids : List ℕ) (at : Woven) (emitted : List ℕ) → HasWoven cids at emitted self.now →
            IfSome result (λ channel. channel ≡ channel_at (length cids) at) }
    {
        if self.maker.idle() {
            Some(self.channel() as u32)
        } else {
            None
        }
    }

    /// The channel that is asked gives this packet of 1 to 65,523 bytes, and its frame is in hand.
    pub fn give(&mut self, packet: &[u8])
        requires asked { self.old.maker.hand ≡ [] }
        requires packet { (1 ≤ length packet.now) × (length packet.now ≤ 65523) }
        ensures woven { (cids : List ℕ) (at : Woven) (emitted : List ℕ) → HasWoven cids at emitted self.old →
            HasWoven cids (woven_on (length cids) at (Some (PacketFrame (channel_at (length cids) at) packet.now))) emitted self.new }
        ensures hand { self.new.maker.hand ≢ [] }
    {
        let channel = self.channel();
        self.put_packet(channel, packet);
    }

    /// The channel that is asked gives nothing: the next one is asked, and behind the last an idle frame is in hand.
    pub fn nothing(&mut self)
        requires { self.old.maker.hand ≡ [] }
        ensures woven { (cids : List ℕ) (at : Woven) (emitted : List ℕ) → HasWoven cids at emitted self.old →
            HasWoven cids (woven_on (length cids) at None) emitted self.new }
        // The channels are asked once round: while none gives a frame, one more was asked each time.
        ensures round { self.new.maker.hand ≡ []
            → (self.new.asked ≡ self.old.asked + 1) × (self.new.asked < length self.new.cids)
            × (self.new.cids ≡ self.old.cids) }
    {
        if self.asked + 1 < self.cids.len() {
            self.asked += 1;
        } else {
            self.put_idle();
        }
    }

    /// The client of the channel that is asked is lost: its loss frame is in hand, where none of the last 1,000 frames
    /// is one; else it gives nothing.
    pub fn lost(&mut self)
        requires { self.old.maker.hand ≡ [] }
        ensures woven { (cids : List ℕ) (at : Woven) (emitted : List ℕ) → HasWoven cids at emitted self.old →
            HasWoven cids (woven_on (length cids) at (loss_due (channel_at (length cids) at) at.frames)) emitted self.new }
        ensures round { self.new.maker.hand ≡ []
            → (self.new.asked ≡ self.old.asked + 1) × (self.new.asked < length self.new.cids)
            × (self.new.cids ≡ self.old.cids) }
    {
        let channel = self.channel();
        if self.wait_of(channel) > 0 {
            self.nothing();
        } else {
            self.put_loss(channel);
        }
    }

    /// The next byte of the frame in hand.
    pub fn next_byte(&mut self) -> u8
        requires { self.old.maker.hand ≢ [] }
        ensures woven { (cids : List ℕ) (at : Woven) (emitted : List ℕ) → HasWoven cids at emitted self.old →
            HasWoven cids at (emitted ++ result ∷ []) self.new }
        ensures byte { self.old.maker.hand ≡ result ∷ self.new.maker.hand }
    {
        self.maker.next_byte()
    }

    /// The next bytes of the frame in hand, as many as there is room for: how many. Where no frame is in hand it gives
    /// none, and a channel is to be asked.
    pub fn give_bytes(&mut self, into: &mut [u8]) -> usize
        ensures woven { (cids : List ℕ) (at : Woven) (emitted : List ℕ) → HasWoven cids at emitted self.old →
            HasWoven cids at (emitted ++ take result into.new) self.new }
        ensures count { result ≡ min (length self.old.maker.hand) (length into.old) }
        ensures bytes { take result into.new ++ self.new.maker.hand ≡ self.old.maker.hand }
        ensures others { drop result into.new ≡ drop result into.old }
    {
        self.maker.give(into)
    }

    /// No channel gives anything for these bytes: idle frames, of which the last may stay in hand in part. No channel
    /// is asked for them.
    pub fn give_idle(&mut self, into: &mut [u8])
        requires { self.old.maker.hand ≡ [] }
        ensures woven { (cids : List ℕ) (at : Woven) (emitted : List ℕ) → HasWoven cids at emitted self.old →
            HasWoven cids (idles_on ((length into.old + 3) / 4) at) (emitted ++ into.new) self.new }
        ensures size { length into.new ≡ length into.old }
    {
        let idles = idles_for(into.len());
        self.maker.fill(into);
        self.pass_idles(idles);
    }
}

impl ChannelMaker {
    // How many frames have to pass before the next loss frame of a channel.
    fn wait_of(&self, channel: usize) -> u32
        requires { channel < length self.now.cids }
        ensures { result ≡ slice_index self.now.waits channel }
    {
        self.waits[channel]
    }

    // An idle frame is in hand: all channels were asked for it.
    fn put_idle(&mut self)
        requires { self.old.maker.hand ≡ [] }
        ensures { self.new ≡ idle_put self.old }
    {
        self.maker.offer_idle();
        self.asked = 0;
        pass_frame(&mut self.waits);
    }

    // So many idle frames began: no channel was asked since.
    fn pass_idles(&mut self, idles: usize)
        ensures { self.new ≡ record self.old { waits = map (λ wait. wait - idles) self.old.waits; asked = 0 } }
    {
        self.asked = 0;
        pass_frames(&mut self.waits, idles);
    }

    // The frame of a channel's packet is in hand.
    fn put_packet(&mut self, channel: usize, packet: &[u8])
        requires asked { self.old.maker.hand ≡ [] }
        requires channel { channel < length self.old.cids }
        requires packet { (1 ≤ length packet.now) × (length packet.now ≤ 65523) }
        ensures { self.new ≡ packet_put self.old channel packet.now }
    {
        self.area.clear();
        append_packet_area(&mut self.area, self.cids[channel], packet);
        self.maker.offer_area(self.area.as_slice());
        self.given_by(channel);
    }

    // The loss frame of a channel is in hand.
    fn put_loss(&mut self, channel: usize)
        requires asked { self.old.maker.hand ≡ [] }
        requires channel { channel < length self.old.cids }
        ensures { self.new ≡ loss_put self.old channel }
    {
        self.area.clear();
        append_loss_area(&mut self.area, self.cids[channel]);
        self.maker.offer_area(self.area.as_slice());
        self.given_by(channel);
        self.waits[channel] = LOSS_PAUSE;
    }

    // A channel gave a frame: the one after it is asked first for the next.
    fn given_by(&mut self, channel: usize)
        requires { channel < length self.old.cids }
        ensures { self.new ≡ given_on self.old channel }
    {
        let count = self.cids.len();
        self.first = if channel + 1 < count { channel + 1 } else { 0 };
        self.asked = 0;
        pass_frame(&mut self.waits);
    }

    // The channel that is asked for the next frame.
    fn channel(&self) -> usize
        ensures channel { result ≡ (self.now.first + self.now.asked) % length self.now.cids }
        ensures within { result < length self.now.cids }
        ensures few { length self.now.cids ≤ 256 }
    {
        let at = self.first + self.asked;
        if at < self.cids.len() {
            at
        } else {
            at - self.cids.len()
        }
    }
}

// Whether the list is not empty and rises strictly.
fn are_cids(cids: &[u8]) -> bool
    ensures yes { result ≡ true → IsCidList cids.now }
    ensures no { result ≡ false → IsCidList cids.now → ⊥ }
{
    !cids.is_empty() && cids.windows(2).all(|pair| pair[0] < pair[1])
}

// How many idle frames begin in so many bytes.
fn idles_for(bytes: usize) -> usize
    ensures { result ≡ (bytes + 3) / 4 }
{
    bytes.div_ceil(IDLE_BYTES)
}

// So many frames pass.
fn pass_frames(waits: &mut [u32], count: usize)
    ensures { waits.new ≡ map (λ wait. wait - count) waits.old }
{
    for wait in waits.iter_mut() {
        *wait = after_frames(*wait, count);
    }
}

// What is left to wait for once so many frames have passed.
fn after_frames(wait: u32, count: usize) -> u32
    ensures { result ≡ wait - count }
{
    if (wait as usize) < count {
        0
    } else {
        wait - count as u32
    }
}

// One frame passes.
fn pass_frame(waits: &mut [u32])
    ensures { waits.new ≡ map (λ wait. wait - 1) waits.old }
{
    for wait in waits.iter_mut() {
        *wait = wait.saturating_sub(1);
    }
}

// Nothing is waited for.
fn no_waits(alloc: Global, n: usize) -> Result<Vec<u32>, Memory>
    ensures items { IfOk result (λ waits. waits.items ≡ replicate n 0) }
    ensures len { IfOk result (λ waits. vec_len waits ≡ n) }
{
    Ok(vec![in alloc; 0u32; n]?)
}
