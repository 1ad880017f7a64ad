// The lines of the trial's report.
ghost use Rattle.std.specs.Prelude.{◌≡◌, ◌≤◌, IfOk, length, string_bytes};
ghost use Rattle.gfp_frames.specs.CoreHeader.{four_bytes};
ghost use Rattle.trial_command.specs.TrialReport.{check_digits, check_line, client_line};
ghost use Rattle.trial_command.specs.Steps.TrialReport.{feed, lines_in, text_line};

use crc_small::crc32;
use hex::encode;
use std::alloc::{AllocError, Global};

/// The line with the check of a line's file.
#[tactic(auto, unfolding(crate::specs::TrialReport::check_line))]
pub(crate) fn line_of_check(alloc: Global, line: u8, file: &[u8]) -> Result<String, AllocError>
    ensures { IfOk result (λ text. string_bytes text ≡ check_line line file.now) }
{
    let digits = digits_of_check(alloc, file)?;
    format!(in alloc; "line {line} check {digits}\n")
}

// The CRC-32 of a file, in eight hex digits.
fn digits_of_check(alloc: Global, file: &[u8]) -> Result<String, AllocError>
    ensures { IfOk result (λ digits. string_bytes digits ≡ check_digits file.now) }
{
    let check = crc32(file);
    encode(alloc, bytes_of(check))
}

// A number as four bytes, the most significant first.
fn bytes_of(n: u32) -> [u8; 4]
    ensures { result ≡ four_bytes n }
{
    [
        (n >> 24) as u8,
        ((n >> 16) % 256) as u8,
        ((n >> 8) % 256) as u8,
        (n % 256) as u8,
    ]
}

/// The line of a client that got this text: how many packets came, and how many bytes they have, are counted in the
/// text.
pub(crate) fn line_of_client(alloc: Global, client: u8, text: &[u8]) -> Result<String, AllocError>
    ensures { IfOk result (λ line. string_bytes line ≡ text_line client text.now) }
{
    let packets = count_lines(text);
    let bytes = (text.len() - packets) / 2;
    told(alloc, client, packets, bytes)
}

#[tactic(auto, unfolding(crate::specs::TrialReport::client_line))]
fn told(alloc: Global, client: u8, packets: usize, bytes: usize) -> Result<String, AllocError>
    ensures { IfOk result (λ line. string_bytes line ≡ client_line client packets bytes) }
{
    format!(in alloc; "client {client} sent 16 got {packets} bytes {bytes}\n")
}

// How many line feeds a text has.
fn count_lines(text: &[u8]) -> usize
    ensures count { result ≡ lines_in text.now }
    ensures few { result ≤ length text.now }
{
    let mut count = 0;
    for i in 0..text.len() {
        count += one_if_feed(text[i]);
    }
    count
}

fn one_if_feed(byte: u8) -> usize
    ensures { result ≡ feed byte }
{
    if byte == b'\n' { 1 } else { 0 }
}
