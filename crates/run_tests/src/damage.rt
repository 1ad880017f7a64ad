// Damage to a line of a run: listed bytes of it are spoiled.
ghost use Rattle.std.specs.Prelude.{◌≡◌, true};
ghost use Rattle.otn_ports.specs.Spoiling.{rises_from};

use crate::plan_runs::{
    FROM_LINE, LINE_ROOM, REPORT_ROOM, TO_LINE, carried, input, kept, output, packets, plan_of,
    text_of, to_line,
};
use otn_base::Memory;
use otn_ports::{InPlaceOf, ListedSink, MemSource, Rack, SpoiledSource};
use std::alloc::Global;
use std::test::Fail;

// These bytes, of which those at the listed places are spoiled.
fn spoiled(
    alloc: Global,
    bytes: Vec<u8>,
    places: &[(u64, u8)],
) -> Result<SpoiledSource<MemSource>, Memory>
    requires { rises_from 0 places.now ≡ true }
{
    Ok(SpoiledSource::new(MemSource::new(bytes), places.to_vec(alloc)?))
}

// JC3 of slot 3, in row 3, column 16 of the third frame of turn 1.
const JC3: u64 = 40_815;

// The MFAS byte of a frame.
const MFAS: u64 = 6;

// Bytes of a frame, and of a turn.
const FRAME: u64 = 16_320;

const TURN: u64 = 130_560;

// Reports of a run from slot 3 of a line to a client, after `run` wrote one packet there: two parities are wrong; one
// is; none is; and a multiframe was lost, behind which the sink began anew.
const TWO_WRONG: &str =
    "turns 8\nline-in 0 frames 64 lead-in 0 lost 0 rest 0 fas 0 sm 2 pm 2 live\nclient-out 0 frames 3 packets 1 live\nconnection b up\nstatus done\n";

const ONE_WRONG: &str =
    "turns 8\nline-in 0 frames 64 lead-in 0 lost 0 rest 0 fas 0 sm 1 pm 1 live\nclient-out 0 frames 3 packets 1 live\nconnection b up\nstatus done\n";

const NONE_LOST: &str =
    "turns 8\nline-in 0 frames 64 lead-in 0 lost 0 rest 0 fas 0 sm 0 pm 0 live\nclient-out 0 frames 3 packets 1 live\nconnection b up\nstatus done\n";

const ONE_LOST: &str =
    "turns 8\nline-in 0 frames 64 lead-in 0 lost 1 rest 0 fas 0 sm 0 pm 0 live\nclient-out 0 frames 1 packets 1 live\nconnection b up\nstatus done\n";

// Whether the client gets its packet of this line with bytes spoiled at these places, and the run reports this.
fn hears(alloc: Global, file: &[u8], places: &[(u64, u8)], reported: &str) -> Result<bool, Memory>
    requires { rises_from 0 places.now ≡ true }
{
    let line = spoiled(alloc, Vec::from_slice(alloc, file)?, places)?;
    let mut bays: Rack<SpoiledSource<MemSource>, ListedSink> = Rack::new(alloc)?;
    bays.set_line_in(0, InPlaceOf::Live(line, 0));
    bays.set_client_out(0, output(alloc, 1000, 0)?);
    let plan = plan_of(alloc, FROM_LINE)?;
    let ran = carried(alloc, plan, &mut bays, REPORT_ROOM, false)?;
    let text = kept(alloc, bays.client_out(0))?;
    let sent = packets(alloc, 1, 60)?;
    Ok(text_of(&ran.report) == reported && text.as_slice() == sent.as_slice())
}

// The line to which a client sent one packet, in 8 turns.
fn one_packet(alloc: Global) -> Result<Vec<u8>, Memory> {
    let client = input(alloc, packets(alloc, 1, 60)?, 4096, 0)?;
    let line = output(alloc, LINE_ROOM, 0)?;
    let (_, file) = to_line(alloc, TO_LINE, client, line, REPORT_ROOM, false)?;
    Ok(file)
}

#[test]
fn a_client_hears_its_own_slot_alone(rt: HostRuntime) -> Result<(), Fail> {
    let alloc = rt.alloc();
    let file = one_packet(alloc)?;
    // Payload and JC1 of slot 4; or its MSI byte, and JC6 of slot 8.
    let some = [(19, 0xFF), (3 * FRAME + 15, 0x0F)];
    let others = [(5 * FRAME + 12_254, 0x40), (7 * FRAME + 8_174, 0xFF)];
    // JC3 of its own, in turn 5 alone.
    let own = [(JC3 + 4 * TURN, 1)];
    let heard = [
        hears(alloc, &file, &some, TWO_WRONG)?,
        hears(alloc, &file, &others, TWO_WRONG)?,
        hears(alloc, &file, &own, ONE_WRONG)?,
    ];
    assert_eq!(rt; heard, [true; 3]);
    Ok(())
}

#[test]
fn a_lost_multiframe_is_reported(rt: HostRuntime) -> Result<(), Fail> {
    let alloc = rt.alloc();
    let file = one_packet(alloc)?;
    let first = MFAS + 4 * TURN;
    let four = [
        (first, 0x80),
        (first + FRAME, 0x80),
        (first + 2 * FRAME, 0x80),
        (first + 3 * FRAME, 0x80),
    ];
    let five = [
        (first, 0x80),
        (first + FRAME, 0x80),
        (first + 2 * FRAME, 0x80),
        (first + 3 * FRAME, 0x80),
        (first + 4 * FRAME, 0x80),
    ];
    let heard = [
        hears(alloc, &file, &four, NONE_LOST)?,
        hears(alloc, &file, &five, ONE_LOST)?,
    ];
    assert_eq!(rt; heard, [true; 2]);
    Ok(())
}
