// Packets of a client: how many, and how many client frames they need.
ghost use Rattle.std.specs.Prelude.{◌≡◌, ◌<◌, ◌^◌, if◌then◌else◌};
ghost use Rattle.port_base.specs.Bytes.{raised};
ghost use Rattle.input_reasons.specs.HandedOn.{FewestFrames, payload_of};

use otn_base::limits::{CLIENT_FRAME_BYTES, CLIENT_PAYLOAD_BYTES};

/// Bytes of a GFP frame before its packet: the core header, the type and its check.
const BEFORE_PACKET: u64 = 8;

/// Bytes of the frame check sequence of a GFP frame.
const FCS: u64 = 4;

/// Bytes of the idle GFP frame, with which a client begins.
const IDLE: u64 = 4;

/// How many packets there are, and how many bytes they have together.
#[derive(Clone, Copy, Debug, PartialEq, Eq)]
pub struct Packets {
    pub count: u64,
    pub bytes: u64,
}

impl Packets {
    /// No packet.
    pub fn none() -> Packets
        ensures count { result.count ≡ 0 }
        ensures bytes { result.bytes ≡ 0 }
    {
        Packets { count: 0, bytes: 0 }
    }

    /// Adds a packet of so many bytes. Both numbers stop at 2^64-1.
    pub(crate) fn add(&mut self, bytes: u64)
        ensures count { self.new.count ≡ raised self.old.count 1 }
        ensures bytes { self.new.bytes ≡ raised self.old.bytes bytes }
    {
        self.count = self.count.saturating_add(1);
        self.bytes = self.bytes.saturating_add(bytes);
    }

    /// How many bytes a client has to hand on until it is spent, with these packets in GFP frames with or without a
    /// frame check sequence: whole client frames, up to the one in which the end of its text is seen.
    pub fn bytes_to_hand_on(&self, fcs: bool) -> u64
        ensures { payload_of self.now.count self.now.bytes fcs < 2 ^ 63
            → FewestFrames (payload_of self.now.count self.now.bytes fcs) result }
    {
        (self.payload(fcs) / CLIENT_PAYLOAD_BYTES as u64)
            .saturating_add(1)
            .saturating_mul(CLIENT_FRAME_BYTES as u64)
    }

    // The payload that they take, behind an idle frame.
    fn payload(&self, fcs: bool) -> u64
        ensures { payload_of self.now.count self.now.bytes fcs < 2 ^ 63
            → result ≡ payload_of self.now.count self.now.bytes fcs }
    {
        self.count
            .saturating_mul(bytes_around(fcs))
            .saturating_add(self.bytes)
            .saturating_add(IDLE)
    }
}

// Bytes of a GFP frame beside its packet.
fn bytes_around(fcs: bool) -> u64
    ensures { result ≡ (if fcs then 12 else 8) }
{
    if fcs {
        BEFORE_PACKET + FCS
    } else {
        BEFORE_PACKET
    }
}
