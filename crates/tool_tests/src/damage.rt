// Damage to a line of which `pull` is told: listed bytes of it are spoiled.
ghost use Rattle.std.specs.Prelude.{◌≡◌, true};
ghost use Rattle.otn_ports.specs.Spoiling.{rises_from};

use crate::line_runs::ran;
use crate::pull::{DATA_GROUPS, ais_byte, line};
use line_tool::Status;
use otn_base::Memory;
use otn_ports::{MemSource, SpoiledSource};
use std::alloc::Global;
use std::test::Fail;

// A part of what a sink emits, 15,168 bytes a turn: the payload of the turns from one to another, or so many turns of
// AIS from its first byte on.
#[derive(Clone, Copy)]
enum Part {
    Payload(u8, u8),
    Ais(u8),
}

fn push_part(bytes: &mut Vec<u8>, part: Part) -> Result<(), Memory> {
    match part {
        Part::Payload(first, last) => {
            for turn in first..=last {
                for _ in 0..DATA_GROUPS {
                    bytes.push(turn)?;
                }
            }
        }
        Part::Ais(turns) => {
            for place in 0..DATA_GROUPS * turns as usize {
                bytes.push(ais_byte(place))?;
            }
        }
    }
    Ok(())
}

fn emitted(alloc: Global, parts: &[Part]) -> Result<Vec<u8>, Memory> {
    let mut bytes = Vec::new(alloc);
    for part in parts {
        push_part(&mut bytes, *part)?;
    }
    Ok(bytes)
}

// These bytes, of which those at the listed places are spoiled.
fn spoiled(
    alloc: Global,
    bytes: Vec<u8>,
    places: &[(u64, u8)],
) -> Result<SpoiledSource<MemSource>, Memory>
    requires { rises_from 0 places.now ≡ true }
{
    Ok(SpoiledSource::new(MemSource::new(bytes), places.to_vec(alloc)?))
}

// Whether `pull` of so many frames of the line of `pull`'s tests, with bytes spoiled at these places, writes exactly
// these parts.
fn pulls(alloc: Global, frames: u32, places: &[(u64, u8)], parts: &[Part]) -> Result<bool, Memory>
    requires { rises_from 0 places.now ≡ true }
{
    let source = spoiled(alloc, line(alloc, None, &[], frames, 0)?, places)?;
    let outcome = ran(alloc, &["pull", "1", "3"], source, 1_000_000)?;
    let wanted = emitted(alloc, parts)?;
    Ok(outcome.status == Status::Done && outcome.written.as_slice() == wanted.as_slice())
}

// The MSI byte of slot 3, in row 4, column 15 of the fifth frame of turn 1: it comes every 32 turns.
const MSI: u64 = 77_534;

// JC3 of slot 3, in row 3, column 16 of the third frame of turn 1.
const JC3: u64 = 40_815;

// The MFAS byte of a frame.
const MFAS: u64 = 6;

// Bytes of a frame, and of a turn.
const FRAME: u64 = 16_320;

const TURN: u64 = 130_560;

#[test]
fn a_marked_slot_is_down_until_its_msi_byte_is_right(rt: HostRuntime) -> Result<(), Fail> {
    let alloc = rt.alloc();
    let wrong = [(MSI, 1), (MSI + 32 * TURN, 1)];
    let parts = [Part::Payload(2, 32), Part::Ais(31), Part::Payload(66, 67)];
    assert!(rt; pulls(alloc, 8 * 67, &wrong, &parts)?);
    Ok(())
}

#[test]
fn three_damaged_messages_are_one_too_many(rt: HostRuntime) -> Result<(), Fail> {
    let alloc = rt.alloc();
    let turn_10 = JC3 + 9 * TURN;
    let one = pulls(alloc, 8 * 18, &[(turn_10, 1)], &[Part::Payload(2, 18)])?;
    let six = [
        (turn_10, 1),
        (turn_10 + TURN, 1),
        (turn_10 + 2 * TURN, 1),
        (turn_10 + 3 * TURN, 1),
        (turn_10 + 4 * TURN, 1),
        (turn_10 + 5 * TURN, 1),
    ];
    let parts = [Part::Payload(2, 11), Part::Ais(3), Part::Payload(17, 18)];
    assert_eq!(rt; (one, pulls(alloc, 8 * 18, &six, &parts)?), (true, true));
    Ok(())
}

#[test]
fn five_wrong_mfas_bytes_are_one_too_many(rt: HostRuntime) -> Result<(), Fail> {
    let alloc = rt.alloc();
    let first = MFAS + 9 * TURN;
    let four = [
        (first, 0x80),
        (first + FRAME, 0x80),
        (first + 2 * FRAME, 0x80),
        (first + 3 * FRAME, 0x80),
    ];
    let by_four = pulls(alloc, 8 * 18, &four, &[Part::Payload(2, 18)])?;
    let five = [
        (first, 0x80),
        (first + FRAME, 0x80),
        (first + 2 * FRAME, 0x80),
        (first + 3 * FRAME, 0x80),
        (first + 4 * FRAME, 0x80),
    ];
    let parts = [Part::Payload(2, 9), Part::Payload(12, 18)];
    let by_five = pulls(alloc, 8 * 18, &five, &parts)?;
    assert_eq!(rt; (by_four, by_five), (true, true));
    Ok(())
}
