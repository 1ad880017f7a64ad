// The words of a line of a view.
ghost use Rattle.std.specs.Prelude.{◌≡◌, ◌≤◌, ◌<◌, ◌^◌, ℕ, length};
ghost use Rattle.std.specs.Fmt.{decimal};
ghost use Rattle.std.specs.List.{after_first, before_first, position_or_len};
ghost use Rattle.view_events.specs.EventText.{hex_digit};
ghost use Rattle.view_events.specs.Steps.Words.{nth_word};
ghost use Rattle.view_events.specs.ViewLines.{ends_word, hex_text};

const BLANK: u8 = b' ';

const LF: u8 = b'\n';

/// Word n of a line, from 0: what stands between two of its blanks, or between the last one and its LF. It is empty
/// where the line has fewer.
pub(crate) fn word_of(line: &[u8], n: usize) -> &[u8]
    ensures { result.now ≡ nth_word n line.now }
{
    let mut rest = line;
    for _ in 0..n {
        rest = after_word(rest);
    }
    first_word(rest)
}

// What stands before the first blank or LF.
fn first_word(line: &[u8]) -> &[u8]
    ensures { result.now ≡ before_first ends_word line.now }
{
    &line[..end_of_word(line)]
}

// What stands after the first blank or LF.
fn after_word(line: &[u8]) -> &[u8]
    ensures { result.now ≡ after_first ends_word line.now }
{
    let end = end_of_word(line);
    if end >= line.len() {
        return &[];
    }
    &line[end + 1..]
}

// Where the first blank or LF stands, or where the line ends.
fn end_of_word(line: &[u8]) -> usize
    ensures end { result ≡ position_or_len ends_word line.now }
    ensures within { result ≤ length line.now }
{
    for n in 0..line.len() {
        if is_end(line[n]) {
            return n;
        }
    }
    line.len()
}

// Whether a word ends with this byte.
fn is_end(byte: u8) -> bool
    ensures { result ≡ ends_word byte }
{
    byte == BLANK || byte == LF
}

/// The number of this text in decimal, of 64 bits; 0 where it is the text of none.
pub(crate) fn number_of(text: &[u8]) -> u64
    ensures { (n : ℕ) → n < 2 ^ 64 → text.now ≡ decimal n → result ≡ n }
{
    match str::from_utf8(text) {
        Ok(text) => text.parse::<u64>().unwrap_or(0),
        Err(_) => 0,
    }
}

/// The byte of this text in two hex digits of lower case; 0 where it has another form.
pub(crate) fn byte_of(text: &[u8]) -> u8
    ensures { (byte : ℕ) → byte < 256 → text.now ≡ hex_text byte → result ≡ byte }
{
    match text {
        [high, low] => digit_of(*high) * 16 + digit_of(*low),
        _ => 0,
    }
}

// The number of a hex digit.
fn digit_of(digit: u8) -> u8
    ensures number { (n : ℕ) → n < 16 → digit ≡ hex_digit n → result ≡ n }
    ensures below { result < 16 }
{
    if digit >= b'0' && digit <= b'9' {
        return digit - b'0';
    }
    if digit >= b'a' && digit <= b'f' {
        return digit - b'a' + 10;
    }
    0
}
