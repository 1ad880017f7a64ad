// The calls of a node that a handle owns.
ghost use Rattle.std.specs.Prelude.{◌≡◌, ◌≢◌, ◌≤◌, ◌<◌, ◌⊎◌, None, Some, length, take};
ghost use Rattle.live_calls.specs.Held.{GoesFrom, IsUntouched, Opened, Takes, TurnsOn};
ghost use Rattle.node_handle.specs.Calls.{IsNew, IsOver, IsRefused, Leaves, Moves, NeedsRoom, Owns, PutsReport};
ghost use Rattle.node_handle.specs.Codes.{done, no_call, no_memory, no_port, no_room, over, refused};

use crate::codes::{
    DONE, NO_CALL, NO_MEMORY, NO_PORT, NO_ROOM, REFUSED, handed_code, turned_code, waited_input,
};
use crate::handle::NodeHandle;
use crate::told::{Told, nothing_told};
use arrayvec::ArrayString;
use live_calls::HeldNode;
use plan_file::NoPlan;
use run_report::REPORT_BYTES;
use std::alloc::Global;

/// Opens a node of the plan that the text says, in an empty handle. What leaves in turn 1 is there then.
pub fn open(node: &mut NodeHandle, alloc: Global, text: &[u8], told: &mut Told) -> u32
    ensures opened { result ≡ done → IsNew (Opened text.now) node.old.value node.new.value }
    ensures refused { result ≡ refused → IsRefused text.now told.new.rule told.new.place }
    ensures still { result ≢ done → node.new.value ≡ node.old.value }
    ensures none { result ≡ no_call → node.old.value ≢ None }
    ensures full { node.old.value ≢ None → result ≡ no_call }
{
    if let Some(held) = node.take(alloc) {
        *node = NodeHandle::of(held);
        return NO_CALL;
    }
    *told = nothing_told();
    match HeldNode::open(alloc, text) {
        Ok(held) => put_node(node, alloc, held),
        Err(NoPlan::Refused(error, place)) => {
            told.rule = error.code() as u32;
            told.place = place;
            REFUSED
        }
        Err(NoPlan::Memory) => NO_MEMORY,
    }
}

// Puts a node into an empty handle.
fn put_node(node: &mut NodeHandle, alloc: Global, held: HeldNode) -> u32
    requires empty { node.old.value ≡ None }
    ensures put { result ≡ done → node.new.value ≡ Some held }
    ensures none { result ≢ done → node.new.value ≡ None }
    ensures code { (result ≡ done) ⊎ (result ≡ no_memory) }
{
    match Box::new(alloc, held) {
        Ok(held) => {
            *node = NodeHandle::of(held);
            DONE
        }
        Err(_) => NO_MEMORY,
    }
}

/// Hands in bytes at input `input`, behind all others of it.
pub fn hand_in(node: &mut NodeHandle, alloc: Global, input: u32, bytes: &[u8]) -> u32
    ensures taken { result ≡ done → Moves (Takes input bytes.now) node.old.value node.new.value }
    ensures still { result ≢ done → result ≢ no_call → Moves IsUntouched node.old.value node.new.value }
    ensures same { result ≡ no_call → node.new.value ≡ node.old.value }
    ensures none { result ≡ no_call → node.old.value ≡ None }
    ensures empty { node.old.value ≡ None → result ≡ no_call }
{
    match node.take(alloc) {
        Some(mut held) => {
            let answer = held.hand_in(input, bytes);
            *node = NodeHandle::of(held);
            handed_code(answer)
        }
        None => NO_CALL,
    }
}

/// Ends input `input`: no more comes.
pub fn end_input(node: &mut NodeHandle, alloc: Global, input: u32) -> u32
    ensures still { result ≢ no_call → Moves IsUntouched node.old.value node.new.value }
    ensures same { result ≡ no_call → node.new.value ≡ node.old.value }
    ensures port { result ≡ done → input < 20 }
    ensures no_port { result ≡ no_port → 20 ≤ input }
    ensures none { result ≡ no_call → node.old.value ≡ None }
    ensures empty { node.old.value ≡ None → result ≡ no_call }
{
    match node.take(alloc) {
        Some(mut held) => {
            let there = held.end_input(input);
            *node = NodeHandle::of(held);
            if there { DONE } else { NO_PORT }
        }
        None => NO_CALL,
    }
}

/// Tells what client input `input` lacks for the next turn: the bytes of a packet, and then so many empty lines.
pub fn lack(node: &mut NodeHandle, alloc: Global, input: u32, told: &mut Told) -> u32
    ensures same { node.new.value ≡ node.old.value }
    ensures none { result ≡ no_call → node.old.value ≡ None }
    ensures empty { node.old.value ≡ None → result ≡ no_call }
{
    match node.take(alloc) {
        Some(held) => {
            let lack = held.lack(input);
            *node = NodeHandle::of(held);
            *told = nothing_told();
            told.length = lack.packet;
            told.place = lack.lines as u64;
            DONE
        }
        None => NO_CALL,
    }
}

/// Does a turn over what was handed in, and makes what leaves in the next one.
pub fn turn(node: &mut NodeHandle, alloc: Global, told: &mut Told) -> u32
    ensures done { result ≡ done → Moves TurnsOn node.old.value node.new.value }
    ensures goes { result ≢ no_call → Moves GoesFrom node.old.value node.new.value }
    ensures still { result ≢ done → result ≢ no_memory → result ≢ no_call
        → Moves IsUntouched node.old.value node.new.value }
    ensures same { result ≡ no_call → node.new.value ≡ node.old.value }
    ensures over { result ≡ over → Moves IsOver node.old.value node.new.value }
    ensures none { result ≡ no_call → node.old.value ≡ None }
    ensures empty { node.old.value ≡ None → result ≡ no_call }
{
    match node.take(alloc) {
        Some(mut held) => {
            let answer = held.do_turn();
            *node = NodeHandle::of(held);
            *told = nothing_told();
            told.place = waited_input(answer);
            turned_code(answer)
        }
        None => NO_CALL,
    }
}

/// Puts what leaves at output `output` in the next turn to the front of the room, and tells how many bytes it has.
pub fn left(
    node: &mut NodeHandle,
    alloc: Global,
    output: u32,
    room: &mut [u8],
    told: &mut Told,
) -> u32
    ensures left { result ≡ done → Owns (Leaves output room.new told.new.length) node.old.value }
    ensures little { result ≡ no_room → Owns (NeedsRoom output room.old told.new.length) node.old.value }
    ensures no_port { result ≡ no_port → 20 ≤ output }
    ensures same { node.new.value ≡ node.old.value }
    ensures none { result ≡ no_call → node.old.value ≡ None }
    ensures empty { node.old.value ≡ None → result ≡ no_call }
{
    match node.take(alloc) {
        Some(held) => {
            let code = put_output(&held, output, room, told);
            *node = NodeHandle::of(held);
            code
        }
        None => NO_CALL,
    }
}

fn put_output(held: &HeldNode, output: u32, room: &mut [u8], told: &mut Told) -> u32
    ensures left { result ≡ done → Leaves output room.new told.new.length held.now }
    ensures little { result ≡ no_room → NeedsRoom output room.old told.new.length held.now }
    ensures no_port { result ≡ no_port → 20 ≤ output }
    ensures called { result ≢ no_call }
{
    *told = nothing_told();
    let Some(bytes) = held.output(output) else {
        return NO_PORT;
    };
    told.length = bytes.len();
    if room.len() < bytes.len() {
        return NO_ROOM;
    }
    put_front(room, bytes);
    DONE
}

/// Puts the report to the front of the room, and tells how many bytes it has.
pub fn report(node: &mut NodeHandle, alloc: Global, room: &mut [u8], told: &mut Told) -> u32
    ensures report { (result ≡ done) ⊎ (result ≡ no_room)
        → PutsReport result node.old.value node.new.value room.old room.new told.new.length }
    ensures none { result ≡ no_call → node.old.value ≡ None }
    ensures empty { node.old.value ≡ None → result ≡ no_call }
{
    match node.take(alloc) {
        Some(mut held) => {
            let mut text = ArrayString::new();
            held.report(&mut text);
            *node = NodeHandle::of(held);
            put_text(text.as_bytes(), room, told)
        }
        None => NO_CALL,
    }
}

// Puts a text to the front of the room.
fn put_text(text: &[u8], room: &mut [u8], told: &mut Told) -> u32
    ensures told { told.new.length ≡ length text.now }
    ensures put { result ≡ done → (told.new.length ≤ length room.new) × (take told.new.length room.new ≡ text.now) }
    ensures little { result ≡ no_room → length room.old < told.new.length }
    ensures code { (result ≡ done) ⊎ (result ≡ no_room) }
{
    *told = nothing_told();
    told.length = text.len();
    if room.len() < text.len() {
        return NO_ROOM;
    }
    put_front(room, text);
    DONE
}

// Puts bytes to the front of the room, which has as many.
fn put_front(room: &mut [u8], bytes: &[u8])
    requires { length bytes.now ≤ length room.old }
    ensures length { length room.new ≡ length room.old }
    ensures put { take (length bytes.now) room.new ≡ bytes.now }
{
    room[..bytes.len()].copy_from_slice(bytes);
}

/// Closes a node: all its memory is given back, and the handle is empty.
pub fn close(node: &mut NodeHandle, alloc: Global) -> u32
    ensures closed { node.new.value ≡ None }
    ensures done { result ≡ done → node.old.value ≢ None }
    ensures none { result ≡ no_call → node.old.value ≡ None }
{
    match node.take(alloc) {
        Some(_) => DONE,
        None => NO_CALL,
    }
}
