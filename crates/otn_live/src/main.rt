//! `otn_live`: a node that is driven turn by turn over standard input and output.
//!
//! All numbers are four bytes, the least first. It is sent the length of a plan and the plan, and answers as to a turn.
//! Then for each turn it is sent 1, and for each of 20 inputs (lines 0 to 3, clients 0 to 15) how many bytes come, and
//! these; the number 2^32 - 1 says that the input ends. It answers with a word and a number, and for each of 20 outputs
//! how many bytes leave in the next turn, and these. The number 0 ends it.
//!
//! Words: 0 done; 1 an input lacks something (the number says which); 2 all turns are done: its length and the report
//! follow; 3 the plan is refused (the number is the rule); 4 no memory; 5 the bytes of an input are no
//! whole frames or lines, or it has ended (the number says which).
//!
//! A client that has not ended, and has too few packets for a turn, is filled up with packets of bytes 0.
#![tactic(auto)]

ghost use Rattle.std.specs.Prelude.{◌≤◌, IfOk, vec_len};

use arrayvec::ArrayString;
use live_node::{HandedIn, Lack, LiveNode, Turned};
use otn_base::limits::{CLIENTS, LINES, MOST_SLOTS};
use otn_base::{Memory, PortName};
use plan_file::{NoPlan, Plan};
use program_words::take_standard;
use std::alloc::Global;
use std::io;
use std::io::{BufReader, Read, Write};

const PORTS: usize = LINES + CLIENTS;

const ENDS: u32 = u32::MAX;

// Why no turn is done, nor any later one.
#[derive(Clone, Copy)]
enum Stop {
    // There is no memory.
    Memory,
    // The bytes of this input are not taken.
    Bytes(u8),
}

fn main(rt: HostRuntime) -> io::Result<()> {
    let _standard = take_standard(&rt);
    let alloc = rt.alloc();
    let mut from = BufReader::with_capacity(alloc, 1 << 20, rt.reader())?;
    let mut to = io::writer(&rt);
    let mut room = Vec::new(alloc);
    let length = number(&mut from)? as usize;
    receive(&mut from, &mut room, length)?;
    let mut node = match opened(alloc, &room[..length]) {
        Ok(node) => node,
        Err(NoPlan::Refused(error, _)) => return answer(&mut to, 3, error.code() as u32),
        Err(NoPlan::Memory) => return answer(&mut to, 4, 0),
    };
    tell(&node, &mut to)?;
    for _ in 0..u64::MAX {
        if number(&mut from)? == 0 {
            return Ok(());
        }
        match turn(&mut node, &mut from, &mut room)? {
            Ok(Turned::Done) => tell(&node, &mut to)?,
            Ok(Turned::Waits(port)) => answer(&mut to, 1, input_number(port))?,
            Ok(Turned::Over) => tell_report(&mut node, &mut to)?,
            Err(Stop::Memory) => return answer(&mut to, 4, 0),
            Err(Stop::Bytes(input)) => return answer(&mut to, 5, input as u32),
        }
    }
    Ok(())
}

fn opened(alloc: Global, text: &[u8]) -> Result<LiveNode, NoPlan> {
    let plan = Plan::read(alloc, text)?;
    match LiveNode::new(alloc, plan) {
        Ok(node) => Ok(node),
        Err(Memory) => Err(NoPlan::Memory),
    }
}

// Takes the inputs of a turn, and does it.
fn turn<R: Read>(
    node: &mut LiveNode,
    from: &mut R,
    room: &mut Vec<u8>,
) -> io::Result<Result<Turned, Stop>> {
    for n in 0..PORTS as u8 {
        let length = number(from)?;
        if length == ENDS {
            end(node, n);
            continue;
        }
        if length == 0 {
            continue;
        }
        receive(from, room, length as usize)?;
        match hand_in(node, n, &room[..length as usize]) {
            Ok(HandedIn::Taken) => {}
            Ok(_) => return Ok(Err(Stop::Bytes(n))),
            Err(Memory) => return Ok(Err(Stop::Memory)),
        }
    }
    match filled_turn(node, room) {
        Ok(turned) => Ok(Ok(turned)),
        Err(Memory) => Ok(Err(Stop::Memory)),
    }
}

fn end(node: &mut LiveNode, n: u8) {
    if n < LINES as u8 {
        node.end_line(n);
    } else {
        node.end_client(n - LINES as u8);
    }
}

fn hand_in(node: &mut LiveNode, n: u8, bytes: &[u8]) -> Result<HandedIn, Memory> {
    if n < LINES as u8 {
        node.hand_in_line(n, bytes)
    } else {
        node.hand_in_client(n - LINES as u8, bytes)
    }
}

fn filled_turn(node: &mut LiveNode, room: &mut Vec<u8>) -> Result<Turned, Memory> {
    for n in 0..CLIENTS as u8 {
        fill(node, n, room)?;
    }
    node.do_turn()
}

// Fills up what a client lacks for the turn: packets of bytes 0, then empty lines.
fn fill(node: &mut LiveNode, n: u8, room: &mut Vec<u8>) -> Result<(), Memory> {
    for _ in 0..MOST_SLOTS {
        let lack = node.client_lack(n);
        if lack.packet == 0 && lack.lines == 0 {
            break;
        }
        put_lack(lack, room)?;
        let _ = node.hand_in_client(n, room)?;
    }
    Ok(())
}

fn put_lack(lack: Lack, room: &mut Vec<u8>) -> Result<(), Memory> {
    room.clear();
    if lack.packet == 0 {
        room.resize(lack.lines, b'\n')?;
        return Ok(());
    }
    room.resize(lack.packet.saturating_mul(2), b'0')?;
    room.push(b'\n')?;
    Ok(())
}

// ---- what is told

fn tell<W: Write>(node: &LiveNode, to: &mut W) -> io::Result<()> {
    answer(to, 0, 0)?;
    for b in 0..LINES as u8 {
        put(to, node.line_out(b))?;
    }
    for n in 0..CLIENTS as u8 {
        put(to, node.client_out(n))?;
    }
    to.flush()
}

fn tell_report<W: Write>(node: &mut LiveNode, to: &mut W) -> io::Result<()> {
    let Some(numbers) = node.finish() else {
        return answer(to, 2, 0);
    };
    let mut text = ArrayString::new();
    node.put_report(&numbers, &mut text);
    answer(to, 2, 0)?;
    put(to, text.as_bytes())?;
    to.flush()
}

fn answer<W: Write>(to: &mut W, word: u32, told: u32) -> io::Result<()> {
    to.write_all(&word.to_le_bytes())?;
    to.write_all(&told.to_le_bytes())?;
    to.flush()
}

fn put<W: Write>(to: &mut W, given: &[u8]) -> io::Result<()> {
    match u32::try_from(given.len()) {
        Ok(length) => {
            to.write_all(&length.to_le_bytes())?;
            to.write_all(given)
        }
        Err(_) => to.write_all(&0u32.to_le_bytes()),
    }
}

// The number of an input among all.
fn input_number(port: PortName) -> u32 {
    match port {
        PortName::LineIn(a) => a as u32,
        PortName::ClientIn(n) => LINES as u32 + n as u32,
        PortName::LineOut(_) => 0,
        PortName::ClientOut(_) => 0,
    }
}

// ---- what comes

fn number<R: Read>(from: &mut R) -> io::Result<u32> {
    let mut four = [0; 4];
    from.read_exact(&mut four)?;
    Ok(u32::from_le_bytes(four))
}

// Puts so many bytes that come at the front of the room.
fn receive<R: Read>(from: &mut R, room: &mut Vec<u8>, length: usize) -> io::Result<()>
    ensures { IfOk result (λ _. length ≤ vec_len room.new) }
{
    widen(room, length)?;
    from.read_exact(&mut room[..length])
}

// Sees to it that there is room for so many bytes.
fn widen(room: &mut Vec<u8>, length: usize) -> io::Result<()>
    ensures { IfOk result (λ _. length ≤ vec_len room.new) }
{
    if length <= room.len() {
        return Ok(());
    }
    room.resize(length, 0)?;
    Ok(())
}
