// Why a line of a packet text is no packet.
use otn_base::Memory;
use port_base::Source;
use std::alloc::Global;

/// The most digits of a line.
const MOST_DIGITS: u64 = 131_054;

/// Bytes that are read at a time.
const BLOCK: usize = 4096;

/// What is seen of a line while its bytes go by.
#[derive(Clone, Copy)]
struct Scan {
    // line feeds that are still to go by before it begins
    before: u64,
    // its bytes so far, the first and the last of them
    length: u64,
    first: u8,
    last: u8,
    // the first byte that is no hex digit, and its column, from 1
    other: u8,
    column: u64,
    is_over: bool,
}

/// Why line `line`, from 1, of the text that the source gives is no packet.
pub fn reason_of_line<S: Source>(
    alloc: Global,
    source: &mut S,
    line: u64,
) -> Result<String, Memory> {
    let mut scan = Scan::of(line);
    let mut block = [0; BLOCK];
    for _ in 0..u64::MAX {
        let Ok(count) = source.read(&mut block) else {
            break;
        };
        if count == 0 || scan.is_over {
            break;
        }
        scan.take_all(&block[..count]);
    }
    scan.reason(alloc)
}

impl Scan {
    fn of(line: u64) -> Scan {
        Scan {
            before: line.saturating_sub(1),
            length: 0,
            first: 0,
            last: 0,
            other: 0,
            column: 0,
            is_over: false,
        }
    }

    fn take_all(&mut self, bytes: &[u8]) {
        for &byte in bytes {
            if self.before > 0 {
                self.before -= u64::from(byte == b'\n');
            } else if !self.is_over {
                self.take(byte);
            }
        }
    }

    // Takes the next byte of the line.
    fn take(&mut self, byte: u8) {
        if byte == b'\n' || self.length > MOST_DIGITS + 1 {
            self.is_over = true;
            return;
        }
        self.length += 1;
        self.last = byte;
        if self.length == 1 {
            self.first = byte;
        }
        if self.column == 0 && !byte.is_ascii_hexdigit() {
            self.column = self.length;
            self.other = byte;
        }
    }

    // Whether all that is no digit is one CR at the end, which is no part of the line.
    fn ends_in_cr(&self) -> bool {
        self.last == b'\r' && self.column == self.length
    }

    fn reason(&self, alloc: Global) -> Result<String, Memory> {
        let digits = if self.ends_in_cr() {
            self.length.saturating_sub(1)
        } else {
            self.length
        };
        if digits == 0 {
            return Ok(String::from_str(alloc, "it is the 65537th empty line in a row")?);
        }
        if self.column > 0 && !self.ends_in_cr() {
            return self.other_reason(alloc);
        }
        if digits > MOST_DIGITS {
            return Ok(format!(in alloc;
                "it has more than {MOST_DIGITS} digits, a packet of more than 65527 bytes"
            )?);
        }
        Ok(format!(in alloc; "it has {digits} digits, an odd number, and a byte has two")?)
    }

    // Why a line that has such a byte is no packet.
    fn other_reason(&self, alloc: Global) -> Result<String, Memory> {
        let column = self.column;
        let other = self.other;
        let hint = self.hint();
        if other.is_ascii_graphic() {
            let letter = char::from(other);
            return Ok(format!(in alloc;
                "column {column} has {letter}, which is no hex digit{hint}"
            )?);
        }
        Ok(format!(in alloc;
            "column {column} has the byte {other:02x}, which is no hex digit{hint}"
        )?)
    }

    fn hint(&self) -> &'static str {
        match (self.first, self.column, self.other) {
            (b'0', 2, b'x' | b'X') => ": a packet has no 0x",
            (b'#', 1, _) => ": a packet text has no comments",
            (_, _, b' ' | b'\t') => ": it is a blank, and digits stand without blanks",
            (_, 9, b':') => ": it is as xxd writes; write it by xxd -p",
            (_, _, b':') => ": digits stand without colons",
            _ => "",
        }
    }
}
