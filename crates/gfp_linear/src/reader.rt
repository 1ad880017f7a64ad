// What arrives on channels, out of any list of bytes.
ghost use Rattle.std.specs.Prelude.{◌≡◌, ℕ, ◌+◌, ◌-◌, ◌≤◌, ◌<◌, true, false, IsNone, IfSome, List, [], ◌∷◌, ◌++◌, IfOk, length, take, drop, option_map, option_to_list};
ghost use Rattle.gfp_frames.specs.Reader.{ReaderState, HasRead};
ghost use Rattle.gfp_linear.specs.ChannelArrivals.{arrival_in, channel_arrivals, seen, IsSized};
ghost use Rattle.gfp_linear.specs.Steps.ChannelArrivals.{found_in};
ghost use Rattle.std.specs.Option.{is_some};

use crate::Arrival;
use crate::area::{arrival_of, arrives};
use gfp_frames::GfpReader;
use otn_base::Memory;
use std::alloc::Global;
use std::marker::Model;

/// Finds the linear GFP frames of a stream of bytes, and gives what arrives on its channels. Contracts see how far it
/// is in the frame at hand.
#[derive(Drop)]
pub struct ChannelReader {
    reader: GfpReader,
}

impl Model for ChannelReader {
    ghost use Rattle.gfp_frames.specs.Reader.{ReaderState};

    ghost Value = { ReaderState };

    ghost view = { λ r. r.reader };
}

impl ChannelReader {
    ghost use Rattle.std.specs.Borrow.{sem};
    ghost use Rattle.gfp_linear.specs.Lending.{EndsHavingRead, EndsHavingReadAll};

    /// A reader that hunts for a frame. All memory is taken here.
    pub fn new(alloc: Global) -> Result<ChannelReader, Memory>
        ensures read { IfOk result (HasRead []) }
    {
        Ok(ChannelReader {
            reader: GfpReader::new(alloc)?,
        })
    }

    /// Begins anew: hunts, with a new descrambler.
    pub fn restart(&mut self)
        ensures read { HasRead [] self.new }
    {
        self.reader.restart();
    }

    /// Takes the next byte, and gives what arrives with it.
    pub fn take(&mut self, byte: u8) -> Option<Arrival<'_>>
        // Of every list of bytes since the start what arrives is what arrives in the list.
        ensures* read { sem 𝓛 (EndsHavingRead self.entry byte) }
        ensures arrivals { (read : List ℕ) → HasRead read self.old →
            channel_arrivals (read ++ byte ∷ []) ≡ channel_arrivals read ++ option_to_list (option_map seen result) }
        ensures size { IfSome result (λ arrival. IsSized (seen arrival)) }
    {
        if self.reader.find_area(&[byte]).1 {
            arrival_of(self.reader.area())
        } else {
            None
        }
    }

    /// Takes bytes up to and with the one with which something arrives, or all where nothing does: how many, and what
    /// arrives.
    pub fn take_some(&mut self, bytes: &[u8]) -> (usize, Option<Arrival<'_>>)
        // Of every list of bytes since the start what arrives is what arrives in the list, each with its last byte.
        ensures* read { sem 𝓛 (EndsHavingReadAll self.entry (take result.0 bytes.now)) }
        ensures arrivals { (read : List ℕ) → HasRead read self.old →
            channel_arrivals (read ++ take result.0 bytes.now) ≡ channel_arrivals read ++ option_to_list (option_map seen result.1) }
        ensures none_before { (read : List ℕ) (k : ℕ) → HasRead read self.old → k < result.0 →
            channel_arrivals (read ++ take k bytes.now) ≡ channel_arrivals read }
        ensures within { result.0 ≤ length bytes.now }
        ensures all { IsNone result.1 → result.0 ≡ length bytes.now }
        ensures some { 1 ≤ length bytes.now → 1 ≤ result.0 }
        ensures size { IfSome result.1 (λ arrival. IsSized (seen arrival)) }
    {
        let (count, found) = self.find_arrival(bytes);
        if found {
            (count, arrival_of(self.reader.area()))
        } else {
            (count, None)
        }
    }

    // Goes on over bytes up to and with the one with which something arrives, or over all: how many, and whether
    // something does.
    fn find_arrival(&mut self, bytes: &[u8]) -> (usize, bool)
        ensures read { (read : List ℕ) → HasRead read self.old → HasRead (read ++ take result.0 bytes.now) self.new }
        ensures arrivals { (read : List ℕ) → HasRead read self.old →
            channel_arrivals (read ++ take result.0 bytes.now) ≡ channel_arrivals read ++ found_in result.1 self.new.area }
        ensures found { result.1 ≡ true → is_some (arrival_in self.new.area) ≡ true }
        ensures size { result.1 ≡ true → length self.new.area ≤ 65535 }
        ensures none_before { (read : List ℕ) (k : ℕ) → HasRead read self.old → k < result.0 →
            channel_arrivals (read ++ take k bytes.now) ≡ channel_arrivals read }
        ensures within { result.0 ≤ length bytes.now }
        ensures all { result.1 ≡ false → result.0 ≡ length bytes.now }
        ensures some { 1 ≤ length bytes.now → 1 ≤ result.0 }
    {
        let mut at = 0;
        while at < bytes.len() {
            let (count, found) = self.reader.find_area(&bytes[at..]);
            at += count;
            if found && arrives(self.reader.area()) {
                return (at, true);
            }
        }
        (at, false)
    }
}
