// The calls of a live node. Each is one of the crate `node_handle`, which says the same.
ghost use Rattle.std.specs.Prelude.{◌≡◌, ◌≢◌, ◌≤◌, ◌<◌, ◌⊎◌, None};
ghost use Rattle.live_calls.specs.Held.{GoesFrom, IsUntouched, Opened, Takes, TurnsOn};
ghost use Rattle.node_handle.specs.Calls.{IsNew, IsOver, IsRefused, Leaves, Moves, NeedsRoom, Owns, PutsReport};
ghost use Rattle.node_handle.specs.Codes.{done, no_call, no_memory, no_port, no_room, over, refused};

use node_handle::{NodeHandle, Told};
use std::alloc::Global;

/// Opens a node of the plan of these bytes (TOML), in an empty handle. What leaves in turn 1 is there then. The answer
/// is 0, or 3 where the plan is refused (`told` says by which rule, and where), 7 where there was no memory, or 9 where
/// the handle owns a node.
#[unsafe(no_mangle)]
pub extern "C" fn otn_open(
    alloc: Global,
    plan: &[u8],
    node: &mut NodeHandle,
    told: &mut Told,
) -> u32
    ensures opened { result ≡ done → IsNew (Opened plan.now) node.old.value node.new.value }
    ensures refused { result ≡ refused → IsRefused plan.now told.new.rule told.new.place }
    ensures still { result ≢ done → node.new.value ≡ node.old.value }
    ensures none { result ≡ no_call → node.old.value ≢ None }
    ensures full { node.old.value ≢ None → result ≡ no_call }
{
    node_handle::open(node, alloc, plan, told)
}

/// Hands in bytes at input `input`, lines 0 to 3 and then clients 0 to 15: whole frames of 16,320 bytes, or whole lines
/// of packets. They stand behind all others of it. The answer is 0, or 12 where there is no such input or it has ended,
/// 13 where they are not whole, 7 where there was no memory, or 9 where the handle is empty.
#[unsafe(no_mangle)]
pub extern "C" fn otn_hand_in(alloc: Global, node: &mut NodeHandle, input: u32, bytes: &[u8]) -> u32
    ensures taken { result ≡ done → Moves (Takes input bytes.now) node.old.value node.new.value }
    ensures still { result ≢ done → result ≢ no_call → Moves IsUntouched node.old.value node.new.value }
    ensures same { result ≡ no_call → node.new.value ≡ node.old.value }
    ensures none { result ≡ no_call → node.old.value ≡ None }
    ensures empty { node.old.value ≡ None → result ≡ no_call }
{
    node_handle::hand_in(node, alloc, input, bytes)
}

/// Ends an input: no more comes of it. The answer is 0, or 12 where there is no such input, or 9 where the handle is
/// empty.
#[unsafe(no_mangle)]
pub extern "C" fn otn_end(alloc: Global, node: &mut NodeHandle, input: u32) -> u32
    ensures still { result ≢ no_call → Moves IsUntouched node.old.value node.new.value }
    ensures same { result ≡ no_call → node.new.value ≡ node.old.value }
    ensures port { result ≡ done → input < 20 }
    ensures no_port { result ≡ no_port → 20 ≤ input }
    ensures none { result ≡ no_call → node.old.value ≡ None }
    ensures empty { node.old.value ≡ None → result ≡ no_call }
{
    node_handle::end_input(node, alloc, input)
}

/// Tells what a client input lacks for the next turn: the bytes of a packet, and so many empty lines. The answer is 0,
/// or 9 where the handle is empty.
#[unsafe(no_mangle)]
pub extern "C" fn otn_lack(alloc: Global, node: &mut NodeHandle, input: u32, told: &mut Told) -> u32
    ensures same { node.new.value ≡ node.old.value }
    ensures none { result ≡ no_call → node.old.value ≡ None }
    ensures empty { node.old.value ≡ None → result ≡ no_call }
{
    node_handle::lack(node, alloc, input, told)
}

/// Does a turn over what was handed in. What left in this one is let go of, and what leaves in the next one is there.
/// The answer is 0, or 10 where an input lacks something (`told` says which) and 11 where all turns were done, at which
/// nothing was done, 7 where there was no memory for what leaves, or 9 where the handle is empty.
#[unsafe(no_mangle)]
pub extern "C" fn otn_turn(alloc: Global, node: &mut NodeHandle, told: &mut Told) -> u32
    ensures done { result ≡ done → Moves TurnsOn node.old.value node.new.value }
    ensures goes { result ≢ no_call → Moves GoesFrom node.old.value node.new.value }
    ensures still { result ≢ done → result ≢ no_memory → result ≢ no_call
        → Moves IsUntouched node.old.value node.new.value }
    ensures same { result ≡ no_call → node.new.value ≡ node.old.value }
    ensures over { result ≡ over → Moves IsOver node.old.value node.new.value }
    ensures none { result ≡ no_call → node.old.value ≡ None }
    ensures empty { node.old.value ≡ None → result ≡ no_call }
{
    node_handle::turn(node, alloc, told)
}

/// Puts what leaves at an output in the next turn to the front of `room`, and tells how many bytes it has. The answer
/// is 0, or 8 where there is too little room, 12 where there is no such output, or 9 where the handle is empty.
#[unsafe(no_mangle)]
pub extern "C" fn otn_left(
    alloc: Global,
    node: &mut NodeHandle,
    output: u32,
    room: &mut [u8],
    told: &mut Told,
) -> u32
    ensures left { result ≡ done → Owns (Leaves output room.new told.new.length) node.old.value }
    ensures little { result ≡ no_room → Owns (NeedsRoom output room.old told.new.length) node.old.value }
    ensures no_port { result ≡ no_port → 20 ≤ output }
    ensures same { node.new.value ≡ node.old.value }
    ensures none { result ≡ no_call → node.old.value ≡ None }
    ensures empty { node.old.value ≡ None → result ≡ no_call }
{
    node_handle::left(node, alloc, output, room, told)
}

/// Puts the report to the front of `room`, and tells how many bytes it has: while turns are to come the numbers as they
/// stand, and after the last turn those of the run. The answer is 0, or 8 where there is too little room, or 9 where
/// the handle is empty.
#[unsafe(no_mangle)]
pub extern "C" fn otn_report(
    alloc: Global,
    node: &mut NodeHandle,
    room: &mut [u8],
    told: &mut Told,
) -> u32
    ensures report { (result ≡ done) ⊎ (result ≡ no_room)
        → PutsReport result node.old.value node.new.value room.old room.new told.new.length }
    ensures none { result ≡ no_call → node.old.value ≡ None }
    ensures empty { node.old.value ≡ None → result ≡ no_call }
{
    node_handle::report(node, alloc, room, told)
}

/// Closes a node: all its memory is given back, and the handle is empty. The answer is 0, or 9 where the handle is
/// empty.
#[unsafe(no_mangle)]
pub extern "C" fn otn_close(alloc: Global, node: &mut NodeHandle) -> u32
    ensures closed { node.new.value ≡ None }
    ensures done { result ≡ done → node.old.value ≢ None }
    ensures none { result ≡ no_call → node.old.value ≡ None }
{
    node_handle::close(node, alloc)
}
