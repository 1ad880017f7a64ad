// Packets out of any list of bytes.
ghost use Rattle.std.specs.Prelude.{◌≡◌, ℕ, ◌+◌, ◌-◌, ◌/◌, ◌%◌, ◌^◌, ◌≤◌, ◌<◌, min, true, false, IsNone, List, [], ◌∷◌, ◌++◌, IfOk, IfSome, IsTrue, length, take, drop, slice_index, vec_len, option_copied, option_map, option_to_list};
ghost use Rattle.std.specs.Option.{option_map_or};
ghost use Rattle.otn_base.specs.declared.limits.TheConstants.{MOST_DELIVERED};
ghost use Rattle.gfp_scrambler.specs.Register.{last_bits, descrambled};
ghost use Rattle.gfp_frames.specs.CoreHeader.{four_bytes, header_in, right_pli, near_pli};
ghost use Rattle.gfp_frames.specs.Area.{packet_in};
ghost use Rattle.gfp_frames.specs.Delivered.{areas_in, delivered};
ghost use Rattle.gfp_frames.specs.Reader.{ReaderState, may_want, HasRead, news};
ghost use Rattle.gfp_frames.specs.Steps.Reader.{kept, kept_some, three_bytes, hunts_after, slid, after_header, presync_after, sync_after, area_after, whole_area_after, Goes, GoesOver, GoesTo, NoneBefore};
ghost use Rattle.gfp_frames.specs.Maker.{idle_bytes};

use crate::area::packet_size;
use crate::core_header::{PATTERN, checked_pli, corrected_pli};
use crate::phase::Phase;
use gfp_scrambler::Descrambler;
use otn_base::Memory;
use std::alloc::Global;
use std::marker::Model;

/// Bytes of a payload area at most.
const MOST_AREA: usize = 65_535;

/// Bytes of a core header.
const HEADER: usize = 4;

/// Finds the frames of a stream of bytes, and gives their payload areas, or the packets in them. Contracts see how far
/// it is in the frame at hand.
#[derive(Drop)]
pub struct GfpReader {
    phase: Phase,
    // Bytes of the header or area that is awaited, and how many of them came; these begin the buffer.
    wanted: usize,
    held: usize,
    buffer: Vec<u8>,
    descrambler: Descrambler,
    // Bytes of the plain area in sync that ended with the last byte, or 0. It begins the buffer.
    area: usize,
}

impl Model for GfpReader {
    ghost use Rattle.std.specs.Prelude.{◌≡◌, ◌+◌, ◌<◌, ◌≤◌, IsTrue, take, drop, vec_len};
    ghost use Rattle.gfp_frames.specs.Reader.{ReaderState, may_want};

    ghost Value = { ReaderState };

    ghost view = { λ r. record {
      phase = r.phase;
      wanted = r.wanted;
      held = take r.held r.buffer.items;
      register = r.descrambler;
      area = take r.area r.buffer.items;
    } };

    ghost invariant = { λ r. (vec_len r.buffer ≡ 65535) × (r.held < r.wanted) × (r.area ≤ 65535) × IsTrue (may_want r.phase r.wanted) };
}

impl GfpReader {
    ghost use Rattle.std.specs.Borrow.{sem};
    ghost use Rattle.gfp_frames.specs.Lending.{EndsHavingRead, EndsHavingReadAll};

    /// A reader that hunts. All memory is taken here.
    pub fn new(alloc: Global) -> Result<GfpReader, Memory>
        ensures read { IfOk result (HasRead []) }
    {
        Ok(GfpReader {
            phase: Phase::Hunt,
            wanted: HEADER,
            held: 0,
            buffer: zeros(alloc, MOST_AREA)?,
            descrambler: Descrambler::new(),
            area: 0,
        })
    }

    /// Begins anew: hunts, with a new descrambler.
    pub fn restart(&mut self)
        ensures read { HasRead [] self.new }
    {
        self.descrambler = Descrambler::new();
        self.await_next(Phase::Hunt);
    }

    /// Takes the next byte, and gives the packet that is delivered with it.
    pub fn take(&mut self, byte: u8) -> Option<&[u8]>
        // Of every list of bytes since the start the packets are those that the list delivers.
        ensures* read { sem 𝓛 (EndsHavingRead self.entry byte) }
        ensures packets { (read : List ℕ) → HasRead read self.old →
            delivered (read ++ byte ∷ []) ≡ delivered read ++ option_to_list (option_copied result) }
        ensures size { IfSome result (λ packet. (1 ≤ length packet.now) × (length packet.now ≤ MOST_DELIVERED)) }
    {
        match self.find_packet_at(byte) {
            Some(size) => Some(&self.area()[HEADER..HEADER + size]),
            None => None,
        }
    }

    /// Takes bytes up to and with the one that delivers a packet, or all where none does: how many, and the packet.
    pub fn take_some(&mut self, bytes: &[u8]) -> (usize, Option<&[u8]>)
        // Of every list of bytes since the start the packets are those that the list delivers, each with its last byte.
        ensures* read { sem 𝓛 (EndsHavingReadAll self.entry (take result.0 bytes.now)) }
        ensures packets { (read : List ℕ) → HasRead read self.old →
            delivered (read ++ take result.0 bytes.now) ≡ delivered read ++ option_to_list (option_copied result.1) }
        ensures none_before { (read : List ℕ) (k : ℕ) → HasRead read self.old → k < result.0 →
            delivered (read ++ take k bytes.now) ≡ delivered read }
        ensures within { result.0 ≤ length bytes.now }
        ensures all { IsNone result.1 → result.0 ≡ length bytes.now }
        ensures some { 1 ≤ length bytes.now → 1 ≤ result.0 }
        ensures size { IfSome result.1 (λ packet. (1 ≤ length packet.now) × (length packet.now ≤ MOST_DELIVERED)) }
    {
        let (count, found) = self.find_packet(bytes);
        match found {
            Some(size) => (count, Some(&self.area()[HEADER..HEADER + size])),
            None => (count, None),
        }
    }

    /// Takes the next byte, and gives the plain payload area of the frame in sync that ends with it, if it has one.
    pub fn take_area(&mut self, byte: u8) -> Option<&[u8]>
        // Of every list of bytes since the start the areas are those of the list.
        ensures* read { sem 𝓛 (EndsHavingRead self.entry byte) }
        ensures areas { (read : List ℕ) → HasRead read self.old →
            areas_in (read ++ byte ∷ []) ≡ areas_in read ++ option_to_list (option_copied result) }
        ensures size { IfSome result (λ area. (4 ≤ length area.now) × (length area.now ≤ 65535)) }
    {
        if self.advance(byte) {
            Some(&self.buffer[..self.area])
        } else {
            None
        }
    }

    /// Takes bytes up to and with the one that ends a payload area in sync, or all where none does: how many, and the
    /// plain area.
    pub fn take_some_area(&mut self, bytes: &[u8]) -> (usize, Option<&[u8]>)
        // Of every list of bytes since the start the areas are those of the list, each with its last byte.
        ensures* read { sem 𝓛 (EndsHavingReadAll self.entry (take result.0 bytes.now)) }
        ensures areas { (read : List ℕ) → HasRead read self.old →
            areas_in (read ++ take result.0 bytes.now) ≡ areas_in read ++ option_to_list (option_copied result.1) }
        ensures none_before { (read : List ℕ) (k : ℕ) → HasRead read self.old → k < result.0 →
            areas_in (read ++ take k bytes.now) ≡ areas_in read }
        ensures within { result.0 ≤ length bytes.now }
        ensures all { IsNone result.1 → result.0 ≡ length bytes.now }
        ensures some { 1 ≤ length bytes.now → 1 ≤ result.0 }
        ensures size { IfSome result.1 (λ area. (4 ≤ length area.now) × (length area.now ≤ 65535)) }
    {
        let (count, found) = self.advance_over(bytes);
        let area = if found {
            Some(&self.buffer[..self.area])
        } else {
            None
        };
        (count, area)
    }

    /// As `take_some_area`, but for the area itself, which `area` gives: how many bytes, and whether an area ends with
    /// the last of them.
    pub fn find_area(&mut self, bytes: &[u8]) -> (usize, bool)
        ensures read { (read : List ℕ) → HasRead read self.old → HasRead (read ++ take result.0 bytes.now) self.new }
        ensures areas { (read : List ℕ) → HasRead read self.old →
            areas_in (read ++ take result.0 bytes.now) ≡ areas_in read ++ news result.1 self.new }
        ensures none_before { (read : List ℕ) (k : ℕ) → HasRead read self.old → k < result.0 →
            areas_in (read ++ take k bytes.now) ≡ areas_in read }
        ensures within { result.0 ≤ length bytes.now }
        ensures all { result.1 ≡ false → result.0 ≡ length bytes.now }
        ensures some { 1 ≤ length bytes.now → 1 ≤ result.0 }
        ensures size { result.1 ≡ true → (4 ≤ length self.new.area) × (length self.new.area ≤ 65535) }
    {
        self.advance_over(bytes)
    }

    /// The plain payload area in sync that ended with the last byte; it has no byte where none did.
    pub fn area(&self) -> &[u8]
        ensures { result.now ≡ self.now.area }
    {
        &self.buffer[..self.area]
    }
}

impl GfpReader {
    // Whether a packet is delivered with this byte: its size.
    fn find_packet_at(&mut self, byte: u8) -> Option<usize>
        ensures goes { GoesTo self.old (byte ∷ []) (option_map (λ n. take n (drop 4 self.new.area)) result) self.new }
        ensures size { IfSome result (λ n. (1 ≤ n) × (n ≤ MOST_DELIVERED) × (n + 4 ≤ length self.new.area)) }
    {
        if self.advance(byte) {
            self.packet_found()
        } else {
            None
        }
    }

    // The size of the packet in the area that ended with the last byte.
    fn packet_found(&self) -> Option<usize>
        requires { 4 ≤ length self.now.area }
        ensures packet { packet_in self.now.area ≡ option_map (λ n. take n (drop 4 self.now.area)) result }
        ensures size { IfSome result (λ n. (1 ≤ n) × (n ≤ MOST_DELIVERED) × (n + 4 ≤ length self.now.area)) }
    {
        packet_size(&self.buffer[..self.area])
    }

    // Goes on over bytes up to and with the one that delivers a packet, or over all: how many, and the packet's size.
    fn find_packet(&mut self, bytes: &[u8]) -> (usize, Option<usize>)
        ensures goes { GoesTo self.old (take result.0 bytes.now)
            (option_map (λ n. take n (drop 4 self.new.area)) result.1) self.new }
        ensures before { NoneBefore self.old bytes.now result.0 }
        ensures within { result.0 ≤ length bytes.now }
        ensures all { IsNone result.1 → result.0 ≡ length bytes.now }
        ensures some { 1 ≤ length bytes.now → 1 ≤ result.0 }
        ensures size { IfSome result.1 (λ n. (1 ≤ n) × (n ≤ MOST_DELIVERED) × (n + 4 ≤ length self.new.area)) }
    {
        let mut at = 0;
        while at < bytes.len() {
            let (count, found) = self.advance_over(&bytes[at..]);
            at += count;
            if found {
                let size = self.packet_found();
                if size.is_some() {
                    return (at, size);
                }
            }
        }
        (at, None)
    }
}

impl GfpReader {
    // Goes on over bytes up to and with the one that ends an area in sync, or over all: how many, and whether one does.
    fn advance_over(&mut self, bytes: &[u8]) -> (usize, bool)
        ensures goes { GoesOver self.old (take result.0 bytes.now) result.1 self.new }
        ensures within { result.0 ≤ length bytes.now }
        ensures all { result.1 ≡ false → result.0 ≡ length bytes.now }
        ensures some { 1 ≤ length bytes.now → 1 ≤ result.0 }
        ensures size { result.1 ≡ true → (4 ≤ length self.new.area) × (length self.new.area ≤ 65535) }
    {
        let mut at = self.pass_over(bytes);
        while at < bytes.len() {
            let whole = self.take_whole_area(&bytes[at..]);
            if whole > 0 {
                return (at + whole, true);
            }
            at += self.keep_some(&bytes[at..]);
            if at < bytes.len() {
                let found = self.advance(bytes[at]);
                at += 1;
                if found {
                    return (at, true);
                }
                at += self.pass_over(&bytes[at..]);
            }
        }
        (at, false)
    }

    // Takes the area in sync that stands whole at the front, where none of it came yet: how many bytes. It is
    // descrambled from where it stands.
    fn take_whole_area(&mut self, bytes: &[u8]) -> usize
        ensures none { result ≡ 0 → self.new ≡ self.old }
        ensures goes { 0 < result → GoesOver self.old (take result bytes.now) true self.new }
        ensures within { result ≤ length bytes.now }
        ensures size { 0 < result → (4 ≤ length self.new.area) × (length self.new.area ≤ 65535) }
    {
        let awaited = matches!(self.phase, Phase::SyncArea);
        if awaited && self.held == 0 && self.wanted <= bytes.len() {
            let size = self.wanted;
            self.end_whole_area(&bytes[..size]);
            size
        } else {
            0
        }
    }

    // Passes what has no area at the front, as far as it is seen at once: how many bytes.
    fn pass_over(&mut self, bytes: &[u8]) -> usize
        ensures goes { GoesOver self.old (take result bytes.now) false self.new }
        ensures within { result ≤ length bytes.now }
    {
        let idle = self.skip_idles(bytes);
        idle + self.pass_header(&bytes[idle..])
    }

    // The same behind the idle frames: a header, and what a hunt goes over.
    fn pass_header(&mut self, bytes: &[u8]) -> usize
        ensures goes { GoesOver self.old (take result bytes.now) false self.new }
        ensures within { result ≤ length bytes.now }
    {
        let header = self.take_header(bytes);
        header + self.hunt_on(&bytes[header..])
    }

    // Takes a header that stands whole at the front, where one is awaited in sync: how many bytes.
    fn take_header(&mut self, bytes: &[u8]) -> usize
        ensures goes { GoesOver self.old (take result bytes.now) false self.new }
        ensures within { result ≤ length bytes.now }
    {
        let sync = matches!(self.phase, Phase::Sync);
        if sync && self.held == 0 && bytes.len() >= HEADER {
            self.end_whole_header(bytes);
            HEADER
        } else {
            0
        }
    }

    // A header in SYNC came at once, where one wrong bit is corrected: it ends as if its last byte came behind the
    // others.
    fn end_whole_header(&mut self, bytes: &[u8])
        requires none { length self.old.held ≡ 0 }
        requires wanted { self.old.wanted ≡ 4 }
        requires some { 4 ≤ length bytes.now }
        ensures { let mid = kept_some self.old (take 3 bytes.now) in let last = slice_index bytes.now 3 in
            self.new ≡ option_map_or (sync_after mid) (near_pli (header_in (mid.held ++ last ∷ []))) (slid mid last) }
    {
        match corrected_pli(header_at(bytes, 0) ^ PATTERN) {
            Some(pli) => self.await_frame(pli as usize, Phase::Sync, Phase::SyncArea),
            None => {
                self.keep_some(bytes);
                self.slide(bytes[3]);
            }
        }
    }

    // Passes the idle frames at the front, where a header is awaited in sync: how many bytes.
    fn skip_idles(&mut self, bytes: &[u8]) -> usize
        ensures goes { GoesOver self.old (take result bytes.now) false self.new }
        ensures within { result ≤ length bytes.now }
    {
        let sync = matches!(self.phase, Phase::Sync);
        if sync && self.held == 0 {
            self.area = 0;
            idles_before(bytes)
        } else {
            0
        }
    }

    // Hunts where three bytes came, up to the byte that ends a right header: how many bytes are before it.
    fn hunt_on(&mut self, bytes: &[u8]) -> usize
        ensures goes { GoesOver self.old (take result bytes.now) false self.new }
        ensures within { result ≤ length bytes.now }
    {
        let hunts = matches!(self.phase, Phase::Hunt);
        if hunts && self.held == HEADER - 1 {
            let (count, last) = hunted(self.last_three(), bytes);
            self.put_three(last);
            count
        } else {
            0
        }
    }

    // The three bytes that came, as one number.
    fn last_three(&self) -> u32
        requires { length self.now.held ≡ 3 }
        ensures bytes { three_bytes result ≡ self.now.held }
        ensures small { result < 2 ^ 24 }
    {
        self.buffer[0] as u32 * 0x1_0000 + self.buffer[1] as u32 * 0x100 + self.buffer[2] as u32
    }

    // Puts three others in their place.
    fn put_three(&mut self, three: u32)
        requires held { length self.old.held ≡ 3 }
        requires small { three < 2 ^ 24 }
        ensures { self.new ≡ record self.old { held = three_bytes three; area = [] } }
    {
        self.buffer[0] = (three >> 16) as u8;
        self.buffer[1] = (three >> 8 & 0xFF) as u8;
        self.buffer[2] = (three & 0xFF) as u8;
        self.area = 0;
    }

    // Keeps bytes as long as they do not end the header or area that is awaited: how many.
    fn keep_some(&mut self, bytes: &[u8]) -> usize
        ensures state { self.new ≡ kept_some self.old (take result bytes.now) }
        ensures count { result ≡ min (self.old.wanted - length self.old.held - 1) (length bytes.now) }
        ensures wants { IsTrue (may_want self.old.phase self.old.wanted) }
        ensures waits { length self.old.held < self.old.wanted }
    {
        let count = bytes.len().min(self.wanted - self.held - 1);
        put_at(&mut self.buffer, self.held, &bytes[..count]);
        self.held += count;
        self.area = 0;
        count
    }

    // Whether an area in sync ends with this byte.
    fn advance(&mut self, byte: u8) -> bool
        ensures goes { Goes self.old byte result self.new }
        ensures size { result ≡ true → (4 ≤ length self.new.area) × (length self.new.area ≤ 65535) }
    {
        if self.held + 1 < self.wanted {
            self.keep(byte);
            return false;
        }
        match self.phase {
            Phase::Hunt => {
                self.end_hunt_header(byte);
                false
            }
            Phase::PresyncArea => {
                self.await_next(Phase::Presync);
                false
            }
            Phase::Presync => {
                self.end_presync_header(byte);
                false
            }
            Phase::SyncArea => {
                self.end_area(byte);
                true
            }
            Phase::Sync => {
                self.end_sync_header(byte);
                false
            }
        }
    }

    fn keep(&mut self, byte: u8)
        requires { length self.old.held + 1 < self.old.wanted }
        ensures { self.new ≡ kept self.old byte }
    {
        self.area = 0;
        self.buffer[self.held] = byte;
        self.held += 1;
    }
}

impl GfpReader {
    // A header ends in HUNT: any right one is the PRESYNC frame's.
    fn end_hunt_header(&mut self, byte: u8)
        requires wanted { self.old.wanted ≡ 4 }
        requires last { length self.old.held ≡ 3 }
        ensures { self.new ≡ option_map_or (presync_after self.old) (right_pli (header_in (self.old.held ++ byte ∷ [])))
            (slid self.old byte) }
    {
        let header = self.header(byte);
        match checked_pli(header) {
            Some(pli) => self.await_frame(pli as usize, Phase::Presync, Phase::PresyncArea),
            None => self.slide(byte),
        }
    }

    // A header ends after a PRESYNC frame.
    fn end_presync_header(&mut self, byte: u8)
        requires wanted { self.old.wanted ≡ 4 }
        requires last { length self.old.held ≡ 3 }
        ensures { self.new ≡ option_map_or (sync_after self.old) (right_pli (header_in (self.old.held ++ byte ∷ [])))
            (slid self.old byte) }
    {
        let confirming = self.header(byte);
        match checked_pli(confirming) {
            Some(pli) => self.await_frame(pli as usize, Phase::Sync, Phase::SyncArea),
            None => self.slide(byte),
        }
    }

    // A header ends in SYNC, where one wrong bit is corrected.
    fn end_sync_header(&mut self, byte: u8)
        requires wanted { self.old.wanted ≡ 4 }
        requires last { length self.old.held ≡ 3 }
        ensures { self.new ≡ option_map_or (sync_after self.old) (near_pli (header_in (self.old.held ++ byte ∷ [])))
            (slid self.old byte) }
    {
        match corrected_pli(self.header(byte)) {
            Some(pli) => self.await_frame(pli as usize, Phase::Sync, Phase::SyncArea),
            None => self.slide(byte),
        }
    }

    // The header that this byte ends, without the pattern.
    fn header(&self, byte: u8) -> u32
        requires { length self.now.held ≡ 3 }
        ensures { result ≡ header_in (self.now.held ++ byte ∷ []) }
    {
        let sent = u32::from_be_bytes([self.buffer[0], self.buffer[1], self.buffer[2], byte]);
        sent ^ PATTERN
    }

    // No header stands here: the hunt goes on one byte further.
    fn slide(&mut self, byte: u8)
        requires { length self.old.held ≡ 3 }
        ensures { self.new ≡ slid self.old byte }
    {
        self.buffer[0] = self.buffer[1];
        self.buffer[1] = self.buffer[2];
        self.buffer[2] = byte;
        self.phase = Phase::Hunt;
        self.wanted = HEADER;
        self.area = 0;
    }

    // A header was found: its area comes, or where it has none the next header.
    fn await_frame(&mut self, pli: usize, next: Phase, area: Phase)
        requires pli { pli < 65536 }
        requires next { IsTrue (may_want next 4) }
        requires area { 4 ≤ pli → IsTrue (may_want area pli) }
        ensures { self.new ≡ after_header self.old pli next area }
    {
        if pli < HEADER {
            self.await_next(next);
        } else {
            self.await_area(area, pli);
        }
    }

    // A header is to come.
    fn await_next(&mut self, phase: Phase)
        requires { IsTrue (may_want phase 4) }
        ensures { self.new ≡ record { phase = phase; wanted = 4; held = []; register = self.old.register; area = [] } }
    {
        self.phase = phase;
        self.wanted = HEADER;
        self.held = 0;
        self.area = 0;
    }

    // An area of this many bytes is to come.
    fn await_area(&mut self, phase: Phase, pli: usize)
        requires { IsTrue (may_want phase pli) }
        ensures { self.new ≡ record {
          phase = phase;
          wanted = pli;
          held = [];
          register = self.old.register;
          area = [];
        } }
    {
        self.phase = phase;
        self.wanted = pli;
        self.held = 0;
        self.area = 0;
    }

    // An area in sync ends with this byte, and stands plain at the front of the buffer.
    fn end_area(&mut self, byte: u8)
        requires phase { self.old.phase ≡ Phase.SyncArea }
        requires last { length self.old.held + 1 ≡ self.old.wanted }
        ensures { self.new ≡ area_after self.old byte }
    {
        let size = self.wanted;
        self.buffer[self.held] = byte;
        self.phase = Phase::Sync;
        self.wanted = HEADER;
        self.held = 0;
        self.area = size;
        descramble_front(&mut self.descrambler, &mut self.buffer, size);
    }

    // An area in sync came at once, and stands plain at the front of the buffer.
    fn end_whole_area(&mut self, area: &[u8])
        requires size { length area.now ≡ self.old.wanted }
        requires most { self.old.wanted ≤ 65535 }
        ensures { self.new ≡ whole_area_after self.old area.now }
    {
        descramble_to_front(&mut self.descrambler, area, &mut self.buffer);
        self.phase = Phase::Sync;
        self.wanted = HEADER;
        self.held = 0;
        self.area = area.len();
    }
}

// Descrambles an area into the front of the buffer.
fn descramble_to_front(descrambler: &mut Descrambler, area: &[u8], buffer: &mut [u8])
    requires { length area.now ≤ length buffer.old }
    ensures bytes { buffer.new ≡ descrambled descrambler.old area.now ++ drop (length area.now) buffer.old }
    ensures register { descrambler.new ≡ last_bits descrambler.old area.now }
{
    let (front, _) = buffer.split_at_mut(area.len());
    descrambler.descramble_into(area, front);
}

// Descrambles the area at the front of the buffer.
fn descramble_front(descrambler: &mut Descrambler, buffer: &mut [u8], size: usize)
    requires { size ≤ length buffer.old }
    ensures bytes { buffer.new ≡ descrambled descrambler.old (take size buffer.old) ++ drop size buffer.old }
    ensures register { descrambler.new ≡ last_bits descrambler.old (take size buffer.old) }
{
    let (area, _) = buffer.split_at_mut(size);
    descrambler.descramble(area);
}

// Bytes of the idle frames at the front.
fn idles_before(bytes: &[u8]) -> usize
    ensures idle { take result bytes.now ≡ idle_bytes (result / 4) }
    ensures frames { result % 4 ≡ 0 }
    ensures within { result ≤ length bytes.now }
{
    let mut at = 0;
    while bytes.len() - at >= HEADER && header_at(bytes, at) == PATTERN {
        at += HEADER;
    }
    at
}

// Goes over bytes that follow these three, up to the one that ends a right header, or over all: how many, and the
// last three bytes then.
fn hunted(three: u32, bytes: &[u8]) -> (usize, u32)
    requires { three < 2 ^ 24 }
    ensures goes { (register : ℕ) → GoesOver (hunts_after three register) (take result.0 bytes.now) false
        (hunts_after result.1 register) }
    ensures within { result.0 ≤ length bytes.now }
    ensures small { result.1 < 2 ^ 24 }
{
    let mut last = three;
    for (i, byte) in bytes.iter().enumerate() {
        let header = last * 256 + *byte as u32;
        if checked_pli(header ^ PATTERN).is_some() {
            return (i, last);
        }
        last = header % 0x100_0000;
    }
    (bytes.len(), last)
}

// The header that begins at this place, with the pattern.
fn header_at(bytes: &[u8], at: usize) -> u32
    requires { at + 4 ≤ length bytes.now }
    ensures { four_bytes result ≡ take 4 (drop at bytes.now) }
{
    u32::from_be_bytes([bytes[at], bytes[at + 1], bytes[at + 2], bytes[at + 3]])
}

// Puts bytes into the buffer.
fn put_at(buffer: &mut [u8], at: usize, bytes: &[u8])
    requires { at + length bytes.now ≤ length buffer.old }
    ensures { buffer.new ≡ take at buffer.old ++ (bytes.now ++ drop (at + length bytes.now) buffer.old) }
{
    buffer[at..at + bytes.len()].copy_from_slice(bytes);
}

fn zeros(alloc: Global, n: usize) -> Result<Vec<u8>, Memory>
    ensures { IfOk result (λ v. vec_len v ≡ n) }
{
    Ok(vec![in alloc; 0u8; n]?)
}
