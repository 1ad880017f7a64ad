// The rows of a frame.
ghost use Rattle.std.specs.Prelude.{◌≡◌, ℕ, ◌+◌, ◌-◌, ◌*◌, ◌<◌, ◌≤◌, List, length, drop, slice_index};
ghost use Rattle.otn_base.specs.declared.limits.TheConstants.{GROUPS, OTU2_SLOTS, ROWS};
ghost use Rattle.otn_base.specs.LineSlots.{slots_of};
ghost use Rattle.gmp_rule.specs.DataRule.{data_count};
ghost use Rattle.trib_source.specs.Rows.{groups_in_row};
ghost use Rattle.trib_source.specs.Steps.Rows.{data_bytes, byte_laid, AreEnough, RowsWerePut};
ghost use Rattle.trib_source.specs.Source.{groups_in_frames};

use crate::backlog::Backlog;
use crate::row_layer::RowLayer;
use gmp_rule::{Runner, data_groups};
use odtu_columns::FillFrame;
use otn_base::limits::{OTU2_SLOTS, OTU3_SLOTS, PAYLOAD_COLUMNS, ROWS};
use otn_base::{LineKind, Slots};

// The rows of a frame, in the type of their numbers.
const ALL: u32 = ROWS as u32;

/// Puts the groups of a frame, behind so many groups of a turn with so many data groups, into the columns
/// of the slots, row by row: out of the backlog what is data. The next group that the runner is asked about
/// is the first of the frame. What the scratch bytes are is of no account, before and behind the call.
pub(crate) fn put_rows<F: FillFrame>(
    runner: &mut Runner,
    cm: u32,
    asked: u32,
    backlog: &mut Backlog,
    slots: &Slots,
    scratch: &mut [u8],
    frame: &mut F,
)
    requires cm { cm ≡ runner.old.cm }
    requires most { cm ≤ GROUPS }
    requires asked { asked ≡ runner.old.asked }
    requires high { asked + ROWS * groups_in_row (slots_of slots.now.kind) ≤ GROUPS }
    requires scratch { length scratch.old
        ≡ 2 * (length slots.now.list * (ROWS * groups_in_row (slots_of slots.now.kind))) }
    requires enough { AreEnough (length slots.now.list) cm runner.old.asked backlog.old }
    ensures rows { RowsWerePut (slots_of slots.now.kind) slots.now.list
        (byte_laid (length slots.now.list) cm runner.old.asked backlog.old.items) ROWS (F.bytes frame.old)
        (F.bytes frame.new) }
    ensures backlog { backlog.new ≡ record backlog.old {
      items = drop
          (data_bytes (length slots.now.list) cm runner.old.asked (ROWS * groups_in_row (slots_of slots.now.kind)))
          backlog.old.items;
    } }
    ensures runner { runner.new ≡ record runner.old {
      asked = runner.old.asked + ROWS * groups_in_row
          (slots_of slots.now.kind);
    } }
{
    let m = slots.count() as usize;
    let row = cycles_in_row(slots.kind());
    let cycles = ALL * row;
    let (fresh, scratch) = scratch.split_at_mut(m * cycles as usize);
    put_front(backlog, cm, asked, cycles, m, slots, fresh, scratch, frame);
    *runner = Runner::at(cm, asked + cycles);
}

// Puts the next `cycles` groups, those of a frame, behind `asked`, of `m` bytes each, row by row, and moves the bytes
// of the data groups among them out of the backlog: where they do not stand together there, through `fresh`, which has
// room for them. What the bytes of `fresh` and `scratch` are is of no account.
fn put_front<F: FillFrame>(
    backlog: &mut Backlog,
    cm: u32,
    asked: u32,
    cycles: u32,
    m: usize,
    slots: &Slots,
    fresh: &mut [u8],
    scratch: &mut [u8],
    frame: &mut F,
)
    requires m { m ≡ length slots.now.list }
    requires cycles { cycles ≡ ROWS * groups_in_row (slots_of slots.now.kind) }
    requires most { cm ≤ GROUPS }
    requires high { asked + cycles ≤ GROUPS }
    requires fresh { length fresh.old ≡ m * cycles }
    requires scratch { length scratch.old ≡ m * cycles }
    requires enough { AreEnough m cm asked backlog.old }
    ensures rows { RowsWerePut (slots_of slots.now.kind) slots.now.list
        (byte_laid m cm asked backlog.old.items) ROWS (F.bytes frame.old) (F.bytes frame.new) }
    ensures backlog { backlog.new ≡ record backlog.old {
      items = drop
          (data_bytes m cm asked cycles) backlog.old.items;
    } }
{
    let count = m * data_between(cm, asked, cycles) as usize;
    let front = backlog.front();
    if count <= front.len() {
        fill_rows(cm, asked, &front[..count], m, slots, scratch, frame);
        backlog.drop_front(count);
        return;
    }
    backlog.read_front(fresh, count);
    fill_rows(cm, asked, &fresh[..count], m, slots, scratch, frame);
}

// Fills the rows of a frame with its groups, behind `asked`, of `m` bytes each: into the data groups go these bytes.
// Those of one slot of an OTU2 are laid out at once.
fn fill_rows<F: FillFrame>(
    cm: u32,
    asked: u32,
    fresh: &[u8],
    m: usize,
    slots: &Slots,
    scratch: &mut [u8],
    frame: &mut F,
)
    requires m { m ≡ length slots.now.list }
    requires most { cm ≤ GROUPS }
    requires high { asked + ROWS * groups_in_row (slots_of slots.now.kind) ≤ GROUPS }
    requires fresh { length fresh.now ≡ data_bytes m cm asked (ROWS * groups_in_row (slots_of slots.now.kind)) }
    requires scratch { length scratch.old ≡ m * (ROWS * groups_in_row (slots_of slots.now.kind)) }
    ensures { RowsWerePut (slots_of slots.now.kind) slots.now.list (byte_laid m cm asked fresh.now) ROWS
        (F.bytes frame.old) (F.bytes frame.new) }
{
    if slots.is_otu2_slot() {
        fill_slot(cm, asked, fresh, slots, scratch, frame);
        return;
    }
    let (scratch, _) = scratch.split_at_mut(m * cycles_in_row(slots.kind()) as usize);
    fill_each_row(cm, asked, fresh, m, slots, scratch, frame);
}

// The same of one slot of an OTU2.
fn fill_slot<F: FillFrame>(
    cm: u32,
    asked: u32,
    fresh: &[u8],
    slots: &Slots,
    scratch: &mut [u8],
    frame: &mut F,
)
    requires line { slots_of slots.now.kind ≡ OTU2_SLOTS }
    requires one { length slots.now.list ≡ 1 }
    requires most { cm ≤ GROUPS }
    requires high { asked + ROWS * groups_in_row OTU2_SLOTS ≤ GROUPS }
    requires fresh { length fresh.now ≡ data_bytes 1 cm asked (ROWS * groups_in_row OTU2_SLOTS) }
    requires scratch { length scratch.old ≡ ROWS * groups_in_row OTU2_SLOTS }
    ensures { RowsWerePut OTU2_SLOTS slots.now.list (byte_laid 1 cm asked fresh.now) ROWS
        (F.bytes frame.old) (F.bytes frame.new) }
{
    let groups = RowLayer::new(cm, asked, fresh, 1, ROWS * (PAYLOAD_COLUMNS / OTU2_SLOTS));
    frame.lay_slot(slots, &groups, scratch);
}

// The same, row by row.
fn fill_each_row<F: FillFrame>(
    cm: u32,
    asked: u32,
    fresh: &[u8],
    m: usize,
    slots: &Slots,
    scratch: &mut [u8],
    frame: &mut F,
)
    requires m { m ≡ length slots.now.list }
    requires most { cm ≤ GROUPS }
    requires high { asked + ROWS * groups_in_row (slots_of slots.now.kind) ≤ GROUPS }
    requires fresh { length fresh.now ≡ data_bytes m cm asked (ROWS * groups_in_row (slots_of slots.now.kind)) }
    requires scratch { length scratch.old ≡ m * groups_in_row (slots_of slots.now.kind) }
    ensures { RowsWerePut (slots_of slots.now.kind) slots.now.list (byte_laid m cm asked fresh.now) ROWS
        (F.bytes frame.old) (F.bytes frame.new) }
{
    let one = fill_row(cm, asked, 1, fresh, 0, m, slots, scratch, frame);
    let two = fill_row(cm, asked, 2, fresh, one, m, slots, scratch, frame);
    let three = fill_row(cm, asked, 3, fresh, two, m, slots, scratch, frame);
    let _end = fill_row(cm, asked, 4, fresh, three, m, slots, scratch, frame);
}

// Fills row `row` (1 to 4), whose bytes stand from `at` on, and says where they end.
fn fill_row<F: FillFrame>(
    cm: u32,
    asked: u32,
    row: u32,
    fresh: &[u8],
    at: usize,
    m: usize,
    slots: &Slots,
    scratch: &mut [u8],
    frame: &mut F,
) -> usize
    requires low { 1 ≤ row }
    requires last { row ≤ ROWS }
    requires m { m ≡ length slots.now.list }
    requires most { cm ≤ GROUPS }
    requires high { asked + ROWS * groups_in_row (slots_of slots.now.kind) ≤ GROUPS }
    requires fresh { length fresh.now ≡ data_bytes m cm asked (ROWS * groups_in_row (slots_of slots.now.kind)) }
    requires at { at ≡ data_bytes m cm asked (groups_in_row (slots_of slots.now.kind) * (row - 1)) }
    requires scratch { length scratch.old ≡ m * groups_in_row (slots_of slots.now.kind) }
    ensures next { result ≡ data_bytes m cm asked (groups_in_row (slots_of slots.now.kind) * row) }
    ensures rows { (before : List ℕ)
        → RowsWerePut (slots_of slots.now.kind) slots.now.list (byte_laid m cm asked fresh.now) (row - 1) before
        (F.bytes frame.old)
        → RowsWerePut (slots_of slots.now.kind) slots.now.list (byte_laid m cm asked fresh.now) row before
        (F.bytes frame.new) }
{
    let cycles = cycles_in_row(slots.kind());
    let first = asked + cycles * (row - 1);
    let next = at + m * data_between(cm, first, cycles) as usize;
    let groups = RowLayer::new(cm, first, &fresh[at..next], m, cycles as usize);
    frame.lay_row_groups(row, slots, &groups, scratch);
    next
}

/// How many groups a row has: 476, or 119.
pub(crate) fn cycles_in_row(kind: LineKind) -> u32
    ensures { result ≡ groups_in_row (slots_of kind) }
{
    match kind {
        LineKind::Otu2 => (PAYLOAD_COLUMNS / OTU2_SLOTS) as u32,
        LineKind::Otu3 => (PAYLOAD_COLUMNS / OTU3_SLOTS) as u32,
    }
}

/// How many groups stand before frame `n`, from 0, of a multiframe.
pub(crate) fn groups_before(kind: LineKind, n: u8) -> u32
    requires { n < slots_of kind }
    ensures groups { result ≡ groups_in_frames (slots_of kind) n }
    ensures high { result + ROWS * groups_in_row (slots_of kind) ≤ GROUPS }
{
    ALL * cycles_in_row(kind) * n as u32
}

// How many of the next `cycles` groups, behind `asked`, are data.
fn data_between(cm: u32, asked: u32, cycles: u32) -> u32
    requires most { cm ≤ GROUPS }
    requires asked { asked + cycles ≤ GROUPS }
    ensures count { result + data_count cm asked ≡ data_count cm (asked + cycles) }
    ensures few { result ≤ cycles }
{
    data_groups(asked + cycles, cm) - data_groups(asked, cm)
}
