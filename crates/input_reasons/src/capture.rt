// What stands in a capture.
use crate::Packets;
use otn_base::Memory;
use port_base::{Reading, Source, read_whole};
use std::alloc::Global;

/// The most bytes of a packet.
const MOST_PACKET: u32 = 65_527;

/// Bytes that are passed over at a time, and how often at most for a packet.
const BLOCK: usize = 4096;

const BLOCKS: u32 = 16;

/// What stands in a capture.
#[derive(Drop)]
pub struct CaptureLook {
    /// The packets that are read of it.
    pub packets: Packets,
    /// How many of them are shorter than they were on the line, cut by the snap length.
    pub cut: u64,
    /// Why the text ends before the file does. None where it does not.
    pub fault: Option<String>,
}

/// The two byte orders of a capture's numbers.
#[derive(Clone, Copy)]
enum Order {
    HighFirst,
    LowFirst,
}

impl Order {
    fn number(self, bytes: [u8; 4]) -> u32 {
        match self {
            Order::HighFirst => u32::from_be_bytes(bytes),
            Order::LowFirst => u32::from_le_bytes(bytes),
        }
    }
}

/// Reads the records of a capture, and says what they are.
pub fn look_at_capture<S: Source>(alloc: Global, source: &mut S) -> Result<CaptureLook, Memory> {
    let mut look = CaptureLook {
        packets: Packets::none(),
        cut: 0,
        fault: None,
    };
    match header(alloc, source)? {
        Ok(order) => records(alloc, source, order, &mut look)?,
        Err(fault) => look.fault = Some(fault),
    }
    Ok(look)
}

// The byte order that the header says, or why it is none.
fn header<S: Source>(alloc: Global, source: &mut S) -> Result<Result<Order, String>, Memory> {
    let mut bytes = [0; 24];
    let (reading, count) = read_whole(source, &mut bytes);
    let magic = [bytes[0], bytes[1], bytes[2], bytes[3]];
    let Some(order) = order_of(magic) else {
        return Ok(Err(strange(alloc, magic, count)?));
    };
    if reading != Reading::Full {
        return Ok(Err(format!(in alloc; "it ends in its header, after {count} of 24 bytes")?));
    }
    let version = order.number([bytes[4], bytes[5], bytes[6], bytes[7]]);
    let link = order.number([bytes[20], bytes[21], bytes[22], bytes[23]]) & 0xFFFF;
    match order {
        Order::HighFirst if version != 0x0002_0004 => Ok(Err(other_version(alloc)?)),
        Order::LowFirst if version != 0x0004_0002 => Ok(Err(other_version(alloc)?)),
        _ if link != 1 => Ok(Err(other_link(alloc, link)?)),
        _ => Ok(Ok(order)),
    }
}

fn other_version(alloc: Global) -> Result<String, Memory> {
    Ok(String::from_str(
        alloc,
        "its version is not 2.4; editcap -F pcap makes a capture that is read",
    )?)
}

// The byte order of a classic capture that begins with these bytes.
fn order_of(magic: [u8; 4]) -> Option<Order> {
    match magic {
        [0xA1, 0xB2, 0xC3, 0xD4] | [0xA1, 0xB2, 0x3C, 0x4D] => Some(Order::HighFirst),
        [0xD4, 0xC3, 0xB2, 0xA1] | [0x4D, 0x3C, 0xB2, 0xA1] => Some(Order::LowFirst),
        _ => None,
    }
}

// What a file that begins with these bytes, of so many, is.
fn strange(alloc: Global, magic: [u8; 4], count: usize) -> Result<String, Memory> {
    let [a, b, c, d] = magic;
    let known = match magic {
        _ if count == 0 => "it is empty; a capture of no packet has 24 bytes",
        [0x0A, 0x0D, 0x0D, 0x0A] => {
            "it is pcapng; editcap -F pcap makes a classic capture of Ethernet packets of it"
        }
        [0xA1, 0xB2, 0xCD, 0x34] | [0x34, 0xCD, 0xB2, 0xA1] => {
            "it is modified pcap; editcap -F pcap makes a classic capture of it"
        }
        [0x1F, 0x8B, _, _] => "it is compressed by gzip; gunzip it",
        [0x28, 0xB5, 0x2F, 0xFD] => "it is compressed by zstd; unzstd it",
        [0xFD, b'7', b'z', b'X'] => "it is compressed by xz; unxz it",
        _ => "",
    };
    if !known.is_empty() {
        return Ok(String::from_str(alloc, known)?);
    }
    Ok(format!(in alloc; "it is no capture: it begins {a:02x} {b:02x} {c:02x} {d:02x}")?)
}

fn other_link(alloc: Global, link: u32) -> Result<String, Memory> {
    let name = match link {
        0 | 108 => "loopback",
        12 | 101 | 228 | 229 => "raw IP",
        113 | 276 => "Linux cooked, as of tcpdump -i any",
        105 | 127 => "IEEE 802.11",
        9 => "PPP",
        _ => "not Ethernet",
    };
    Ok(format!(in alloc;
        "its link type is {link} ({name}), and Ethernet is 1: packets of an Ethernet card are read"
    )?)
}

// Reads records to the end, or to the first that is none.
fn records<S: Source>(
    alloc: Global,
    source: &mut S,
    order: Order,
    look: &mut CaptureLook,
) -> Result<(), Memory> {
    for _ in 0..u64::MAX {
        match take_record(source, order, look) {
            Record::Whole => {}
            Record::End => return Ok(()),
            fault => {
                let number = look.packets.count.saturating_add(1);
                let words = record_fault(fault);
                look.fault = Some(format!(in alloc; "record {number} {words}")?);
                return Ok(());
            }
        }
    }
    Ok(())
}

/// What a record is.
#[derive(Clone, Copy, PartialEq, Eq)]
enum Record {
    Whole,
    /// There is none more.
    End,
    Short,
    Long,
    Failed,
}

fn record_fault(fault: Record) -> &'static str {
    match fault {
        Record::Long => "has more than 65527 bytes",
        Record::Failed => "could not be read",
        _ => "is not whole: the file ends in it",
    }
}

// Reads a record, and counts it where it is whole.
fn take_record<S: Source>(source: &mut S, order: Order, look: &mut CaptureLook) -> Record {
    let mut head = [0; 16];
    match read_whole(source, &mut head) {
        (Reading::Full, _) => {}
        (Reading::End(0), _) => return Record::End,
        (Reading::End(_), _) => return Record::Short,
        (Reading::Lost, _) => return Record::Failed,
    }
    let size = order.number([head[8], head[9], head[10], head[11]]);
    let whole = order.number([head[12], head[13], head[14], head[15]]);
    if size > MOST_PACKET {
        return Record::Long;
    }
    let rest = skip(source, size);
    if rest == Record::Whole && size > 0 {
        look.packets.add(u64::from(size));
        look.cut = look.cut.saturating_add(u64::from(size < whole));
    }
    rest
}

// Passes over so many bytes.
fn skip<S: Source>(source: &mut S, size: u32) -> Record {
    let mut block = [0; BLOCK];
    let mut left = size as usize;
    for _ in 0..BLOCKS {
        let room = left.min(BLOCK);
        match read_whole(source, &mut block[..room]) {
            (Reading::Full, _) => left -= room,
            (Reading::End(_), _) => return Record::Short,
            (Reading::Lost, _) => return Record::Failed,
        }
    }
    Record::Whole
}
