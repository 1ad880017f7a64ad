//! `bench_layers` drives one layer over bytes in memory as often as its words say, and prints a
//! checksum. What it takes is measured outside the gate, by `bench/run`.
#![tactic(auto)]

mod bits;
mod client;
mod gfp;
mod lanes;
mod line;
mod sink;
mod source;
mod words;

use otn_base::{LineKind, Memory};
use std::alloc::Global;
use std::process::ExitCode;

const USAGE: &str = "\
usage: bench_layers gfp make|read|make-bytes|read-bytes|idle-make|idle-read|hunt BYTES TIMES
       bench_layers client frame|align BYTES TIMES
       bench_layers bits crc32|scramble|descramble|parity|mask BYTES TIMES
       bench_layers rows split|join|take|put 8|32 TIMES
       bench_layers several take|put SLOTS TIMES, or take-32|put-32 4 TIMES
       bench_layers tributary sink|source SLOTS TURNS
       bench_layers line plain|scrambled 8|32 FRAMES";

fn main(rt: HostRuntime) -> ExitCode {
    match serve(&rt) {
        Ok(Some(checksum)) => {
            let _ = println!(rt; "checksum {checksum:08x}");
            ExitCode::SUCCESS
        }
        Ok(None) => {
            let _ = eprintln!(rt; "{USAGE}");
            ExitCode::from(2)
        }
        Err(_) => ExitCode::from(7),
    }
}

// The checksum of what the words say, or None where they say nothing.
fn serve(rt: &HostRuntime) -> Result<Option<u32>, Memory> {
    let mut buffer = [0; words::LONGEST];
    let (Some(size), Some(times)) = (
        words::number(rt, 3, &mut buffer),
        words::number(rt, 4, &mut buffer),
    ) else {
        return Ok(None);
    };
    match words::word(rt, 1, &mut buffer) {
        Some("gfp") => gfp_layer(rt, size, times),
        Some("client") => client_layer(rt, size, times),
        Some("bits") => bits_layer(rt, size, times),
        Some("rows") => rows_layer(rt, size, times),
        Some("several") => several_layer(rt, size, times),
        Some("tributary") => tributary_layer(rt, size, times),
        Some("line") => line_layer(rt, size, times),
        _ => Ok(None),
    }
}

// GFP frames.
fn gfp_layer(rt: &HostRuntime, size: u32, times: u32) -> Result<Option<u32>, Memory> {
    let alloc = rt.alloc();
    let mut buffer = [0; words::LONGEST];
    match words::word(rt, 2, &mut buffer) {
        Some("make") => Ok(Some(gfp::make(alloc, size, times)?)),
        Some("read") => Ok(Some(gfp::read(alloc, size, times)?)),
        Some("make-bytes") => Ok(Some(gfp::make_bytes(alloc, size, times)?)),
        Some("read-bytes") => Ok(Some(gfp::read_bytes(alloc, size, times)?)),
        Some("idle-make") => Ok(Some(gfp::make_idle(alloc, size, times)?)),
        Some("idle-read") => Ok(Some(gfp::read_idle(alloc, size, times)?)),
        Some("hunt") => Ok(Some(gfp::hunt(alloc, size, times)?)),
        _ => Ok(None),
    }
}

// Client frames.
fn client_layer(rt: &HostRuntime, size: u32, times: u32) -> Result<Option<u32>, Memory> {
    let alloc = rt.alloc();
    let mut buffer = [0; words::LONGEST];
    match words::word(rt, 2, &mut buffer) {
        Some("frame") => Ok(Some(client::frame(alloc, size, times)?)),
        Some("align") => Ok(Some(client::align(alloc, times)?)),
        _ => Ok(None),
    }
}

// Checks, scramblers, parities and masks.
fn bits_layer(rt: &HostRuntime, size: u32, times: u32) -> Result<Option<u32>, Memory> {
    let alloc = rt.alloc();
    let mut buffer = [0; words::LONGEST];
    match words::word(rt, 2, &mut buffer) {
        Some("crc32") => Ok(Some(bits::check(alloc, size, times)?)),
        Some("scramble") => Ok(Some(bits::scramble(alloc, size, times)?)),
        Some("descramble") => Ok(Some(bits::descramble(alloc, size, times)?)),
        Some("parity") => Ok(Some(lanes::parities(alloc, size, times)?)),
        Some("mask") => Ok(Some(lanes::masked(alloc, size, times)?)),
        _ => Ok(None),
    }
}

// Rows of a line of 8 slots, or of 32.
fn rows_layer(rt: &HostRuntime, slots: u32, times: u32) -> Result<Option<u32>, Memory> {
    let alloc = rt.alloc();
    let mut buffer = [0; words::LONGEST];
    let Some(word) = words::word(rt, 2, &mut buffer) else {
        return Ok(None);
    };
    if slots == 8 {
        rows_of::<8>(alloc, word, times)
    } else {
        rows_of::<32>(alloc, word, times)
    }
}

ghost use Rattle.lane_kernels.specs.SlotPlaces.{IsSlotCount};

fn rows_of<const SLOTS: usize>(alloc: Global, word: &str, times: u32) -> Result<Option<u32>, Memory>
    requires { IsSlotCount SLOTS }
{
    match word {
        "split" => Ok(Some(lanes::split_rows::<SLOTS>(alloc, times)?)),
        "join" => Ok(Some(lanes::join_rows::<SLOTS>(alloc, times)?)),
        "take" => Ok(Some(lanes::take_rows::<SLOTS>(alloc, times)?)),
        "put" => Ok(Some(lanes::put_rows::<SLOTS>(alloc, times)?)),
        _ => Ok(None),
    }
}

// Several slots of a row: so many of the first slots of 8, or every eighth of 32.
fn several_layer(rt: &HostRuntime, count: u32, times: u32) -> Result<Option<u32>, Memory> {
    let alloc = rt.alloc();
    let mut buffer = [0; words::LONGEST];
    let Some(slots) = sink::first_slots(count as usize) else {
        return Ok(None);
    };
    match words::word(rt, 2, &mut buffer) {
        Some("take") => Ok(Some(lanes::take_several(alloc, &slots, times)?)),
        Some("put") => Ok(Some(lanes::put_several(alloc, &slots, times)?)),
        Some("take-32") => Ok(Some(lanes::take_of_thirty_two(alloc, times)?)),
        Some("put-32") => Ok(Some(lanes::put_of_thirty_two(alloc, times)?)),
        _ => Ok(None),
    }
}

// A tributary of so many of the first slots of an OTU2.
fn tributary_layer(rt: &HostRuntime, count: u32, turns: u32) -> Result<Option<u32>, Memory> {
    let alloc = rt.alloc();
    let mut buffer = [0; words::LONGEST];
    match words::word(rt, 2, &mut buffer) {
        Some("sink") => Ok(Some(sink::take(alloc, count as usize, turns)?)),
        Some("source") => Ok(Some(source::put(alloc, count as usize, turns)?)),
        _ => Ok(None),
    }
}

// The frames of an output line.
fn line_layer(rt: &HostRuntime, slots: u32, frames: u32) -> Result<Option<u32>, Memory> {
    let alloc = rt.alloc();
    let mut buffer = [0; words::LONGEST];
    let kind = if slots == 8 {
        LineKind::Otu2
    } else {
        LineKind::Otu3
    };
    match words::word(rt, 2, &mut buffer) {
        Some("plain") => Ok(Some(line::finish(alloc, kind, false, frames)?)),
        Some("scrambled") => Ok(Some(line::finish(alloc, kind, true, frames)?)),
        _ => Ok(None),
    }
}
