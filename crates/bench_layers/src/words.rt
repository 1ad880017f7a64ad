// The words after the program's name.
use std::rt::Env;
use std::str;

/// Bytes of the longest word that is looked at.
pub const LONGEST: usize = 64;

/// Word number `i`, if it is there and text.
pub fn word<'a>(rt: &HostRuntime, i: usize, buffer: &'a mut [u8]) -> Option<&'a str> {
    let length = rt.arg(i, buffer).ok()?;
    str::from_utf8(&buffer[..length]).ok()
}

/// Word number `i` as a number.
pub fn number(rt: &HostRuntime, i: usize, buffer: &mut [u8]) -> Option<u32> {
    word(rt, i, buffer)?.parse().ok()
}
