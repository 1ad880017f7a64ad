// Packets into frames.
ghost use Rattle.std.specs.Prelude.{◌≡◌, ◌≢◌, ℕ, ◌+◌, ◌/◌, ◌%◌, ◌≤◌, min, List, [], ◌∷◌, ◌++◌, ◌↔◌, IsTrue, IfOk, length, take, drop, replicate, vec_len};
ghost use Rattle.std.specs.Vec.{vec_capacity};
ghost use Rattle.gfp_scrambler.specs.Register.{last_bits, scrambled};
ghost use Rattle.gfp_frames.specs.CoreHeader.{core_header};
ghost use Rattle.gfp_frames.specs.Area.{client_area};
ghost use Rattle.gfp_frames.specs.GfpText.{Frame, Idle, Client, WithArea};
ghost use Rattle.gfp_frames.specs.Maker.{MakerState, HasMade, begun, made_frame, in_hand, idles_begun, idle_bytes, fresh};

use crate::area::append_client_area;
use crate::core_header::{IDLE_FRAME, header_bytes};
use gfp_scrambler::Scrambler;
use otn_base::{Memory, append, copy_front};
use std::alloc::Global;
use std::marker::Model;

/// Bytes of a frame at most: a core header and an area of 65,535 bytes.
const MOST_FRAME: usize = 65_539;

/// So many bytes of idle frames are put one by one, as many at least as the payload of a row has: sixteen at a time,
/// they are stored without a load.
const FEW_IDLES: usize = 4_096;

/// Bytes of a core header, and of an idle frame.
const HEADER: usize = 4;

/// Makes the bytes of a stream of GFP frames, one after another. Contracts see what is left of the
/// frame in hand, and the scrambler's register.
#[derive(Drop)]
pub struct GfpMaker {
    scrambler: Scrambler,
    // The frame in hand, and how many of its bytes were emitted.
    frame: Vec<u8>,
    emitted: usize,
}

impl Model for GfpMaker {
    ghost use Rattle.std.specs.Prelude.{◌≤◌, drop, vec_len};
    ghost use Rattle.std.specs.Vec.{vec_capacity};
    ghost use Rattle.gfp_frames.specs.Maker.{MakerState};

    ghost Value = { MakerState };

    ghost view = { λ m. record { hand = drop m.emitted m.frame.items; register = m.scrambler } };

    ghost invariant = { λ m. (m.emitted ≤ vec_len m.frame) × (65539 ≤ vec_capacity m.frame) };
}

impl GfpMaker {
    /// A maker with the first idle frame in hand. All memory is taken here.
    pub fn new(alloc: Global) -> Result<GfpMaker, Memory>
        ensures made { IfOk result (HasMade (Idle ∷ []) []) }
        ensures fresh { IfOk result (λ maker. maker ≡ fresh) }
    {
        let mut maker = GfpMaker {
            scrambler: Scrambler::new(),
            frame: Vec::with_capacity(alloc, MOST_FRAME)?,
            emitted: 0,
        };
        maker.put_idle();
        Ok(maker)
    }

    /// Begins anew, with the first idle frame in hand.
    pub fn restart(&mut self)
        ensures made { HasMade (Idle ∷ []) [] self.new }
        ensures fresh { self.new ≡ fresh }
    {
        self.scrambler = Scrambler::new();
        self.put_idle();
    }

    /// Whether no frame is in hand.
    pub fn idle(&self) -> bool
        ensures { IsTrue result ↔ (self.now.hand ≡ []) }
    {
        self.emitted >= self.frame.len()
    }

    /// What is left of the frame in hand.
    pub fn hand(&self) -> &[u8]
        ensures { result.now ≡ self.now.hand }
    {
        &self.frame[self.emitted..]
    }

    /// Takes the frame of a packet of 1 to 65,527 bytes in hand, with or without FCS.
    pub fn offer(&mut self, packet: &[u8], fcs: bool)
        requires idle { self.old.hand ≡ [] }
        requires packet { (1 ≤ length packet.now) × (length packet.now ≤ 65527) }
        ensures made { (frames : List Frame) (emitted : List ℕ) → HasMade frames emitted self.old →
            HasMade (frames ++ Client packet.now fcs ∷ []) emitted self.new }
        ensures frame { self.new ≡ made_frame (client_area packet.now fcs) self.old.register }
    {
        self.put_frame(packet, fcs);
    }

    /// Takes the frame of this plain payload area of 4 to 65,535 bytes in hand (G.7041 clause 6.1.2).
    pub fn offer_area(&mut self, area: &[u8])
        requires idle { self.old.hand ≡ [] }
        requires area { (4 ≤ length area.now) × (length area.now ≤ 65535) }
        ensures made { (frames : List Frame) (emitted : List ℕ) → HasMade frames emitted self.old →
            HasMade (frames ++ WithArea area.now ∷ []) emitted self.new }
        ensures frame { self.new ≡ made_frame area.now self.old.register }
    {
        self.put_area(area);
    }

    /// Takes an idle frame in hand (G.7041 clause 6.2.1).
    pub fn offer_idle(&mut self)
        requires { self.old.hand ≡ [] }
        ensures made { (frames : List Frame) (emitted : List ℕ) → HasMade frames emitted self.old →
            HasMade (frames ++ Idle ∷ []) emitted self.new }
        ensures frame { self.new ≡ record self.old { hand = core_header 0 } }
    {
        self.put_idle();
    }

    /// The next byte of the stream. Where no frame is in hand an idle frame begins.
    pub fn next_byte(&mut self) -> u8
        ensures made { (frames : List Frame) (emitted : List ℕ) → HasMade frames emitted self.old →
            HasMade (frames ++ begun self.old.hand) (emitted ++ result ∷ []) self.new }
        ensures byte { result ∷ self.new.hand ≡ in_hand self.old.hand }
        ensures register { self.new.register ≡ self.old.register }
    {
        self.take_up();
        self.give_byte()
    }

    /// The next bytes of the frame in hand, as many as there is room for: how many. Where no frame is in hand it
    /// gives none, and a packet may be offered.
    pub fn give(&mut self, into: &mut [u8]) -> usize
        ensures made { (frames : List Frame) (emitted : List ℕ) → HasMade frames emitted self.old →
            HasMade frames (emitted ++ take result into.new) self.new }
        ensures count { result ≡ min (length self.old.hand) (length into.old) }
        ensures bytes { take result into.new ++ self.new.hand ≡ self.old.hand }
        ensures register { self.new.register ≡ self.old.register }
        ensures others { drop result into.new ≡ drop result into.old }
    {
        let count = into.len().min(self.frame.len() - self.emitted);
        copy_front(into, &self.frame[self.emitted..self.emitted + count]);
        self.emitted += count;
        count
    }

    /// The next bytes of the stream, as many as the slice has: the frame in hand, and then idle frames.
    pub fn fill(&mut self, into: &mut [u8])
        ensures made { (frames : List Frame) (emitted : List ℕ) → HasMade frames emitted self.old →
            HasMade (frames ++ replicate (idles_begun self.old.hand (length into.old)) Idle) (emitted ++ into.new) self.new }
        ensures bytes { into.new ++ self.new.hand ≡ self.old.hand
            ++ idle_bytes (idles_begun self.old.hand (length into.old)) }
        ensures register { self.new.register ≡ self.old.register }
    {
        let count = self.give(into);
        if count < into.len() {
            self.idle_on(&mut into[count..]);
        }
    }
}

impl GfpMaker {
    // Where no frame is in hand an idle frame is.
    fn take_up(&mut self)
        ensures hand { self.new.hand ≡ in_hand self.old.hand }
        ensures register { self.new.register ≡ self.old.register }
    {
        if self.idle() {
            self.put_idle();
        }
    }

    // The frame in hand becomes an idle frame.
    fn put_idle(&mut self)
        ensures { self.new ≡ record self.old { hand = core_header 0 } }
    {
        self.emitted = 0;
        self.frame.clear();
        append(&mut self.frame, &header_bytes(0));
    }

    // The frame in hand becomes that of a packet.
    fn put_frame(&mut self, packet: &[u8], fcs: bool)
        requires { (1 ≤ length packet.now) × (length packet.now ≤ 65527) }
        ensures { self.new ≡ made_frame (client_area packet.now fcs) self.old.register }
    {
        let rest = if fcs { 8 } else { 4 };
        self.emitted = 0;
        self.frame.clear();
        append(&mut self.frame, &header_bytes((packet.len() + rest) as u16));
        append_client_area(&mut self.frame, packet, fcs);
        scramble_area(&mut self.scrambler, &mut self.frame);
    }

    // The frame in hand becomes that of a plain area.
    fn put_area(&mut self, area: &[u8])
        requires { (4 ≤ length area.now) × (length area.now ≤ 65535) }
        ensures { self.new ≡ made_frame area.now self.old.register }
    {
        self.emitted = 0;
        self.frame.clear();
        append(&mut self.frame, &header_bytes(area.len() as u16));
        append(&mut self.frame, area);
        scramble_area(&mut self.scrambler, &mut self.frame);
    }

    fn give_byte(&mut self) -> u8
        requires { self.old.hand ≢ [] }
        ensures byte { self.old.hand ≡ result ∷ self.new.hand }
        ensures register { self.new.register ≡ self.old.register }
    {
        let byte = self.frame[self.emitted];
        self.emitted += 1;
        byte
    }

    // Idle frames, where no frame is in hand; the last of them may stay in hand in part.
    fn idle_on(&mut self, into: &mut [u8])
        requires { self.old.hand ≡ [] }
        ensures bytes { into.new ++ self.new.hand ≡ idle_bytes ((length into.old + 3) / 4) }
        ensures register { self.new.register ≡ self.old.register }
    {
        let whole = into.len() / HEADER * HEADER;
        put_idles(&mut into[..whole]);
        if whole < into.len() {
            self.put_idle();
            self.give(&mut into[whole..]);
        }
    }
}

// Sixteen idle frames, which are put at once.
fn sixteen_idles() -> [u8; 64]
    ensures { result ≡ idle_bytes 16 }
{
    let [a, b, c, d] = IDLE_FRAME;
    [
        a, b, c, d, a, b, c, d, a, b, c, d, a, b, c, d, a, b, c, d, a, b, c, d, a, b, c, d, a, b,
        c, d, a, b, c, d, a, b, c, d, a, b, c, d, a, b, c, d, a, b, c, d, a, b, c, d, a, b, c, d,
        a, b, c, d,
    ]
}

// Whole idle frames: some first, and then as many again as stand there.
fn put_idles(into: &mut [u8])
    requires { length into.old % 4 ≡ 0 }
    ensures { into.new ≡ idle_bytes (length into.old / 4) }
{
    let few = into.len().min(FEW_IDLES);
    put_few_idles(&mut into[..few]);
    let mut at = few;
    while at < into.len() {
        let count = at.min(into.len() - at);
        put_again(into, at, count);
        at += count;
    }
}

// The first bytes of those up to `at`, which are idle frames, once more behind them.
fn put_again(into: &mut [u8], at: usize, count: usize)
    requires count { count ≤ at }
    requires room { at + count ≤ length into.old }
    requires whole { at % 4 ≡ 0 }
    requires frames { count % 4 ≡ 0 }
    requires idle { take at into.old ≡ idle_bytes (at / 4) }
    ensures size { length into.new ≡ length into.old }
    ensures idle { take (at + count) into.new ≡ idle_bytes ((at + count) / 4) }
{
    into.copy_within(..count, at);
}

// The same, one after the other.
fn put_few_idles(into: &mut [u8])
    requires { length into.old % 4 ≡ 0 }
    ensures { into.new ≡ idle_bytes (length into.old / 4) }
{
    let sixteen = sixteen_idles();
    let mut at = 0;
    while into.len() - at >= 64 {
        into[at..at + 64].copy_from_slice(&sixteen);
        at += 64;
    }
    while at < into.len() {
        into[at..at + HEADER].copy_from_slice(&IDLE_FRAME);
        at += HEADER;
    }
}

// The bytes after the core header are scrambled.
fn scramble_area(scrambler: &mut Scrambler, frame: &mut Vec<u8>)
    requires { 4 ≤ vec_len frame.old }
    ensures bytes { frame.new.items ≡ take 4 frame.old.items ++ scrambled scrambler.old (drop 4 frame.old.items) }
    ensures register { scrambler.new ≡ last_bits scrambler.old (scrambled scrambler.old (drop 4 frame.old.items)) }
    ensures capacity { vec_capacity frame.new ≡ vec_capacity frame.old }
{
    scrambler.scramble(&mut frame[4..]);
}
