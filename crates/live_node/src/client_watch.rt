// How much of a client's packets the next turn takes. It says when a turn may be done, and nothing of what the turn
// does.
use otn_base::limits::{CLIENT_FRAME_BYTES, CLIENT_PAYLOAD_BYTES, MOST_PACKET};

// Bytes of a text that are read at a time.
const BLOCK: u64 = 4096;

// Bytes of a GFP frame beside its packet: core header, type with tHEC, and where it has one its FCS.
const WITH_FCS: u64 = 12;

const WITHOUT_FCS: u64 = 8;

// The idle frame at the beginning of a stream.
const FIRST_IDLE: u64 = 4;

// How many bytes of a text are counted at a time: less than 256, so that each count fits a byte.
const COUNTED: usize = 128;

const LF: u8 = b'\n';

const CR: u8 = b'\r';

/// What a client's next turn lacks: a packet of so many bytes, if not 0; and then so many empty lines, up to the end of
/// a block of 4,096 bytes of text.
#[derive(Clone, Copy, Debug, PartialEq, Eq)]
pub struct Lack {
    pub packet: usize,
    pub lines: usize,
}

/// How far a client's stream has come with the next turn, and for how much of it packets were handed in.
#[derive(Drop)]
pub(crate) struct ClientWatch {
    around: u64,
    emitted: u64,
    supplied: u64,
    text: u64,
    closed: bool,
}

// How many bytes of a text are LF, are CR, and are an LF that ends an empty line.
#[derive(Clone, Copy)]
struct Counts {
    ends: u64,
    returns: u64,
    empty: u64,
}

impl ClientWatch {
    /// A client before its first turn, whose packets get an FCS or none.
    pub(crate) fn new(fcs: bool) -> ClientWatch {
        ClientWatch {
            around: if fcs { WITH_FCS } else { WITHOUT_FCS },
            emitted: 0,
            supplied: FIRST_IDLE,
            text: 0,
            closed: false,
        }
    }

    /// Lines of packets come.
    pub(crate) fn note(&mut self, text: &[u8]) {
        let counts = counted(text);
        let length = text.len() as u64;
        let digits = length
            .saturating_sub(counts.ends)
            .saturating_sub(counts.returns);
        let packets = counts.ends.saturating_sub(counts.empty);
        self.supplied = self
            .supplied
            .saturating_add(digits / 2)
            .saturating_add(packets.saturating_mul(self.around));
        self.text = self.text.saturating_add(length);
    }

    /// No more packets come.
    pub(crate) fn close(&mut self) {
        self.closed = true;
    }

    /// Whether more may come.
    pub(crate) fn is_open(&self) -> bool {
        !self.closed
    }

    /// The next turn has this pace.
    pub(crate) fn begin_turn(&mut self, pace: u64) {
        self.emitted = self.emitted.saturating_add(pace);
    }

    /// Whether the next turn asks for no packet that was not handed in, or no more come.
    pub(crate) fn covers_turn(&self) -> bool {
        let lack = self.lack();
        lack.packet == 0 && lack.lines == 0
    }

    /// What the next turn lacks.
    pub(crate) fn lack(&self) -> Lack {
        if self.closed {
            return Lack {
                packet: 0,
                lines: 0,
            };
        }
        Lack {
            packet: self.missing(),
            lines: ((BLOCK - self.text % BLOCK) % BLOCK) as usize,
        }
    }

    // How many bytes a packet is to have so that there are enough, or that is as long as packets may be.
    fn missing(&self) -> usize {
        let frames = self.emitted.div_ceil(CLIENT_FRAME_BYTES as u64);
        let wanted = frames.saturating_mul(CLIENT_PAYLOAD_BYTES as u64);
        if wanted <= self.supplied {
            return 0;
        }
        (wanted - self.supplied)
            .saturating_sub(self.around)
            .max(1)
            .min(MOST_PACKET as u64) as usize
    }
}

/// Whether these bytes are whole lines.
pub(crate) fn are_lines(text: &[u8]) -> bool {
    match text.last() {
        Some(byte) => *byte == LF,
        None => true,
    }
}

// Of a text that begins with a line.
fn counted(text: &[u8]) -> Counts {
    let mut counts = match text.first() {
        Some(byte) => first_counted(*byte),
        None => Counts {
            ends: 0,
            returns: 0,
            empty: 0,
        },
    };
    if text.len() < 2 {
        return counts;
    }
    for (block, before) in text[1..].chunks(COUNTED).zip(text.chunks(COUNTED)) {
        let more = block_counted(block, before);
        counts.ends = counts.ends.saturating_add(more.ends);
        counts.returns = counts.returns.saturating_add(more.returns);
        counts.empty = counts.empty.saturating_add(more.empty);
    }
    counts
}

fn first_counted(byte: u8) -> Counts {
    Counts {
        ends: (byte == LF) as u64,
        returns: (byte == CR) as u64,
        empty: (byte == LF) as u64,
    }
}

// Of a block, and the bytes that stand one place before it. A line of a CR alone counts as one of a packet.
fn block_counted(block: &[u8], before: &[u8]) -> Counts {
    let mut ends = 0u8;
    let mut returns = 0u8;
    let mut empty = 0u8;
    for i in 0..block.len().min(before.len()) {
        let is_end = (block[i] == LF) as u8;
        ends = ends.wrapping_add(is_end);
        returns = returns.wrapping_add((block[i] == CR) as u8);
        empty = empty.wrapping_add(is_end & (before[i] == LF) as u8);
    }
    Counts {
        ends: ends as u64,
        returns: returns as u64,
        empty: empty as u64,
    }
}
