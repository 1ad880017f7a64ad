// The bytes of the data groups of a row, out of its payload columns, and those of a frame where each is one byte and
// all stand together.
ghost use Rattle.std.specs.Prelude.{◌≡◌, ◌+◌, ◌*◌, ◌<◌, ◌≤◌, ◌++◌, [], ◌∷◌, if◌then◌else◌, length, take};
ghost use Rattle.frame_geometry.specs.Places.{payload_row_of};
ghost use Rattle.gmp_rule.specs.DataRule.{is_data_at};
ghost use Rattle.odtu_columns.specs.Payload.{payload_group, run_groups};
ghost use Rattle.otn_base.specs.LineSlots.{slots_of};
ghost use Rattle.otn_base.specs.declared.limits.TheConstants.{GROUPS, LINE_COLUMNS, PAYLOAD_COLUMNS};
ghost use Rattle.trib_sink.specs.Rows.{row_cycles};
ghost use Rattle.trib_sink.specs.Steps.Rows.{row_data, own_data};

use gmp_rule::Runner;
use odtu_columns::TakeFrame;
use otn_base::limits::{OTU2_SLOTS, OTU3_SLOTS, PAYLOAD_COLUMNS};
use otn_base::{LineKind, Slots};
use std::mem;

// So many cycles in a row are taken one by one.
const FEW_CYCLES: usize = 3;

/// How many groups a row has on the line of these slots: 476, or 119.
pub(crate) fn groups_of_row(slots: &Slots) -> usize
    ensures groups { result ≡ row_cycles slots.now.kind }
    ensures inside { length slots.now.list * result ≤ PAYLOAD_COLUMNS }
{
    match slots.kind() {
        LineKind::Otu2 => PAYLOAD_COLUMNS / OTU2_SLOTS,
        LineKind::Otu3 => PAYLOAD_COLUMNS / OTU3_SLOTS,
    }
}

/// Writes the data groups of a row, one after the other, to `into` at `at`, and says where they end. What stands before
/// them stays. The next group that the runner is asked about is the first of the row.
#[tactic(auto, using(crate::proofs::Rows::row_steps))]
pub(crate) fn take_row<F: TakeFrame>(
    runner: &mut Runner,
    frame: &F,
    row: u32,
    slots: &Slots,
    into: &mut [u8],
    at: usize,
) -> usize
    requires low { 1 ≤ row }
    requires high { row ≤ 4 }
    requires room { at + length slots.now.list * row_cycles slots.now.kind ≤ length into.old }
    requires asked { runner.old.asked + row_cycles slots.now.kind ≤ GROUPS }
    ensures count { result ≤ at + length slots.now.list * row_cycles slots.now.kind }
    ensures bytes { take result into.new ≡ take at into.old
        ++ row_data (slots_of slots.now.kind) runner.old.cm runner.old.asked
        (payload_row_of LINE_COLUMNS row (F.bytes frame.now)) slots.now.list (row_cycles slots.now.kind) }
    ensures runner { runner.new ≡ record runner.old { asked = runner.old.asked + row_cycles slots.now.kind } }
{
    let groups = groups_of_row(slots);
    let mut end = at;
    let mut cycle = 0usize;
    while cycle < groups {
        end = take_cycle(runner, frame, row, cycle, slots, into, end);
        let run = runner.data_run((groups - cycle - 1) as u32) as usize;
        end = put_cycles(frame, row, cycle + 1, run, slots, into, end);
        cycle += run + 1;
    }
    end
}

// Writes the bytes of one cycle at `at`, where its group is data, and says where they end.
fn take_cycle<F: TakeFrame>(
    runner: &mut Runner,
    frame: &F,
    row: u32,
    cycle: usize,
    slots: &Slots,
    into: &mut [u8],
    at: usize,
) -> usize
    requires low { 1 ≤ row }
    requires high { row ≤ 4 }
    requires cycle { cycle < row_cycles slots.now.kind }
    requires room { at + length slots.now.list ≤ length into.old }
    requires asked { runner.old.asked < GROUPS }
    ensures end { result ≤ at + length slots.now.list }
    ensures bytes { take result into.new ≡ take at into.old
        ++ (if is_data_at runner.old.cm (runner.old.asked + 1)
        then payload_group (slots_of slots.now.kind)
        (payload_row_of LINE_COLUMNS row (F.bytes frame.now)) slots.now.list cycle else []) }
    ensures runner { runner.new ≡ record runner.old { asked = runner.old.asked + 1 } }
{
    if runner.next() {
        put_cycle(frame, row, cycle, slots, into, at)
    } else {
        at
    }
}

// Writes the bytes of the slots in one cycle at `at`, and says where they end.
fn put_cycle<F: TakeFrame>(
    frame: &F,
    row: u32,
    cycle: usize,
    slots: &Slots,
    into: &mut [u8],
    at: usize,
) -> usize
    requires low { 1 ≤ row }
    requires high { row ≤ 4 }
    requires cycle { cycle < row_cycles slots.now.kind }
    requires room { at + length slots.now.list ≤ length into.old }
    ensures end { result ≡ at + length slots.now.list }
    ensures bytes { take result into.new ≡ take at into.old
        ++ payload_group (slots_of slots.now.kind)
        (payload_row_of LINE_COLUMNS row (F.bytes frame.now)) slots.now.list cycle }
{
    let end = at + slots.count() as usize;
    frame.take_group(row, cycle, slots, &mut into[at..end]);
    end
}

// Writes the bytes of the slots in `count` cycles from `first` on at `at`, and says where they end. What `take_groups`
// does before its first cycle only pays for more than a few.
fn put_cycles<F: TakeFrame>(
    frame: &F,
    row: u32,
    first: usize,
    count: usize,
    slots: &Slots,
    into: &mut [u8],
    at: usize,
) -> usize
    requires low { 1 ≤ row }
    requires high { row ≤ 4 }
    requires cycles { first + count ≤ row_cycles slots.now.kind }
    requires room { at + length slots.now.list * count ≤ length into.old }
    ensures end { result ≡ at + length slots.now.list * count }
    ensures bytes { take result into.new ≡ take at into.old
        ++ run_groups (slots_of slots.now.kind)
        (payload_row_of LINE_COLUMNS row (F.bytes frame.now)) slots.now.list first count }
{
    if count <= FEW_CYCLES {
        return put_few(frame, row, first, count, slots, into, at);
    }
    let end = at + slots.count() as usize * count;
    frame.take_groups(row, first, count, slots, &mut into[at..end]);
    end
}

// The same, cycle by cycle.
fn put_few<F: TakeFrame>(
    frame: &F,
    row: u32,
    first: usize,
    count: usize,
    slots: &Slots,
    into: &mut [u8],
    at: usize,
) -> usize
    requires low { 1 ≤ row }
    requires high { row ≤ 4 }
    requires cycles { first + count ≤ row_cycles slots.now.kind }
    requires room { at + length slots.now.list * count ≤ length into.old }
    ensures end { result ≡ at + length slots.now.list * count }
    ensures bytes { take result into.new ≡ take at into.old
        ++ run_groups (slots_of slots.now.kind)
        (payload_row_of LINE_COLUMNS row (F.bytes frame.now)) slots.now.list first count }
{
    let mut end = at;
    for i in 0..count {
        end = put_cycle(frame, row, first + i, slots, into, end);
    }
    end
}

/// Writes the data groups among these of one byte each, one after the other, to `into` at `at`, and says where they
/// end. What stands before them stays. The next group that the runner is asked about is the first of them. The runner
/// is taken out of its place for that, so that the loop keeps it in registers.
#[tactic(auto, using(crate::proofs::Rows::row_steps))]
pub(crate) fn take_own(runner: &mut Runner, own: &[u8], into: &mut [u8], at: usize) -> usize
    requires room { at + length own.now ≤ length into.old }
    requires asked { runner.old.asked + length own.now ≤ GROUPS }
    ensures count { result ≤ at + length own.now }
    ensures bytes { take result into.new ≡ take at into.old ++ own_data runner.old.cm runner.old.asked own.now }
    ensures runner { runner.new ≡ record runner.old { asked = runner.old.asked + length own.now } }
{
    let mut state = mem::replace(runner, Runner::start(0));
    let count = own.len();
    let mut end = at;
    let mut cycle = 0usize;
    while cycle < count {
        end = take_byte(&mut state, own, cycle, into, end);
        let run = state.data_run((count - cycle - 1) as u32) as usize;
        end = put_bytes(own, cycle + 1, run, into, end);
        cycle += run + 1;
    }
    *runner = state;
    end
}

// Writes one of these bytes at `at`, where its group is data, and says where it ends.
#[inline(always)]
fn take_byte(runner: &mut Runner, own: &[u8], cycle: usize, into: &mut [u8], at: usize) -> usize
    requires cycle { cycle < length own.now }
    requires room { at + 1 ≤ length into.old }
    requires asked { runner.old.asked < GROUPS }
    ensures end { result ≤ at + 1 }
    ensures bytes { take result into.new ≡ take at into.old
        ++ (if is_data_at runner.old.cm (runner.old.asked + 1) then payload_group 1 own.now (1 ∷ []) cycle else []) }
    ensures runner { runner.new ≡ record runner.old { asked = runner.old.asked + 1 } }
{
    if !runner.next() {
        return at;
    }
    put_byte(own[cycle], into, at)
}

// Writes a byte at `at`, and says where it ends.
#[inline(always)]
fn put_byte(byte: u8, into: &mut [u8], at: usize) -> usize
    requires room { at + 1 ≤ length into.old }
    ensures end { result ≡ at + 1 }
    ensures bytes { take result into.new ≡ take at into.old ++ byte ∷ [] }
{
    into[at] = byte;
    at + 1
}

// Writes `count` of these bytes, from `first` on, at `at`, and says where they end.
#[inline(always)]
fn put_bytes(own: &[u8], first: usize, count: usize, into: &mut [u8], at: usize) -> usize
    requires bytes { first + count ≤ length own.now }
    requires room { at + count ≤ length into.old }
    ensures end { result ≡ at + count }
    ensures bytes { take result into.new ≡ take at into.old ++ run_groups 1 own.now (1 ∷ []) first count }
{
    if count == 0 {
        return at;
    }
    let end = at + count;
    into[at..end].copy_from_slice(&own[first..first + count]);
    end
}
