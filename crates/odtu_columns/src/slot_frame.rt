// A frame of an OTU2 whose payload is kept by tributary slots.
ghost use Rattle.std.specs.Prelude.{◌≡◌, ◌≢◌, ℕ, ◌+◌, ◌-◌, ◌*◌, ◌/◌, ◌%◌, ◌<◌, ◌≤◌, ◌⊎◌, IfOk, length, slice_index};
ghost use Rattle.frame_geometry.specs.PayloadParity.{payload_parity_of, row_parity_of};
ghost use Rattle.frame_geometry.specs.Places.{place_of};
ghost use Rattle.otn_base.specs.LineSlots.{slots_of};
ghost use Rattle.otn_base.specs.SlotList.{IsSlotList};
ghost use Rattle.otn_base.specs.declared.limits.TheConstants.{LINE_COLUMNS, LINE_FRAME_BYTES, PAYLOAD_COLUMNS, ROWS};
ghost use Rattle.odtu_columns.specs.BySlots.{slot_byte};
ghost use Rattle.odtu_columns.specs.Steps.BySlots.{IsOutside, RowJoined};

use crate::RowGroups;
use crate::fill::FillFrame;
use crate::filled_slots::{FilledSlots, clear_run};
use crate::justification::put_message;
use crate::put::put_groups;
use frame_geometry::Frame;
use lane_kernels::parity;
use otn_base::limits::{
    LAST_PAYLOAD_COLUMN, LINE_COLUMNS, LINE_FRAME_BYTES, OVERHEAD_COLUMNS, PAYLOAD_COLUMNS,
};
use otn_base::{LineKind, Memory, Slots};
use std::alloc::Global;
use std::marker::Model;

/// A frame of an OTU2 that is best filled by sources of one slot each: its payload is kept slot by slot, and a source's
/// bytes of all four rows stand together. Of the columns that are no payload it has a message's alone; all else there
/// is 0. It is seen as the bytes of the frame that it stands for, row by row.
#[derive(Drop)]
pub struct SlotFrame {
    message: [u8; 6],
    payload: FilledSlots,
}

impl Model for SlotFrame {
    ghost use Rattle.std.specs.Prelude.{ℕ, List};
    ghost use Rattle.odtu_columns.specs.BySlots.{frame_by_slots, message_frame};

    ghost Value = { List ℕ };

    ghost view = { λ f. frame_by_slots (message_frame f.message) f.payload };
}

impl SlotFrame {
    /// A frame of bytes that are all 0. Answers `Memory` where there is none for them.
    pub fn new(alloc: Global) -> Result<SlotFrame, Memory>
        ensures size { IfOk result (λ frame. length frame ≡ LINE_FRAME_BYTES) }
        ensures zero { IfOk result (λ frame. (place : ℕ) → slice_index frame place ≡ 0) }
    {
        let payload = FilledSlots::new(alloc)?;
        Ok(SlotFrame {
            message: [0; 6],
            payload,
        })
    }

    /// Makes every byte 0: no slot is filled, and none is written for that.
    pub fn clear(&mut self)
        ensures size { length self.new ≡ LINE_FRAME_BYTES }
        ensures zero { (place : ℕ) → slice_index self.new place ≡ 0 }
    {
        self.message = [0; 6];
        self.payload.clear();
    }

    /// Writes its bytes into a frame, whatever that holds. Answers what the payload gives to the frame's BIP-8: it is
    /// taken of each row as soon as that is written.
    pub fn join_into(&mut self, frame: &mut Frame<LINE_COLUMNS>) -> u8
        ensures joined { frame.new ≡ self.old }
        ensures parity { result ≡ payload_parity_of LINE_COLUMNS frame.new }
        ensures kept { self.new ≡ self.old }
    {
        clear_beside_payload(frame);
        put_message(frame, self.message);
        let one = join_row(&mut self.payload, 1, frame);
        let two = join_row(&mut self.payload, 2, frame);
        let three = join_row(&mut self.payload, 3, frame);
        let four = join_row(&mut self.payload, 4, frame);
        one ^ two ^ three ^ four
    }
}

impl FillFrame for SlotFrame {
    ghost bytes = { λ frame. frame };

    fn fill_row_groups(&mut self, row: u32, slots: &Slots, groups: &[u8]) {
        put_in_row(&mut self.payload, row, slots, groups);
    }

    fn lay_row_groups<G: RowGroups>(
        &mut self,
        row: u32,
        slots: &Slots,
        groups: &G,
        scratch: &mut [u8],
    ) {
        groups.lay(scratch);
        put_in_row(&mut self.payload, row, slots, scratch);
    }

    fn lay_slot<G: RowGroups>(&mut self, slots: &Slots, groups: &G, _scratch: &mut [u8]) {
        self.payload.lay_slot(slots.last(), groups);
    }

    fn fill_message(&mut self, message: [u8; 6]) {
        self.message = message;
    }
}

// Writes 0 into every byte that is in no payload column.
fn clear_beside_payload(frame: &mut Frame<LINE_COLUMNS>)
    ensures { (place : ℕ) → IsOutside place → slice_index frame.new place ≡ 0 }
{
    clear_between_rows(frame.as_bytes_mut());
}

// The same, in the bytes of a frame: between the payload of two rows stand the FEC columns of the one and the overhead
// columns of the other.
fn clear_between_rows(bytes: &mut [u8])
    requires { length bytes.old ≡ LINE_FRAME_BYTES }
    ensures { (place : ℕ) → IsOutside place → slice_index bytes.new place ≡ 0 }
{
    clear_run(bytes, 0, OVERHEAD_COLUMNS);
    clear_run(bytes, LAST_PAYLOAD_COLUMN, LINE_COLUMNS + OVERHEAD_COLUMNS);
    clear_run(
        bytes,
        LINE_COLUMNS + LAST_PAYLOAD_COLUMN,
        2 * LINE_COLUMNS + OVERHEAD_COLUMNS,
    );
    clear_run(
        bytes,
        2 * LINE_COLUMNS + LAST_PAYLOAD_COLUMN,
        3 * LINE_COLUMNS + OVERHEAD_COLUMNS,
    );
    clear_run(
        bytes,
        3 * LINE_COLUMNS + LAST_PAYLOAD_COLUMN,
        LINE_FRAME_BYTES,
    );
}

// Writes the payload of a row, keeps every other byte, and answers what the row gives to the parity.
fn join_row(slots: &mut FilledSlots, row: u32, frame: &mut Frame<LINE_COLUMNS>) -> u8
    requires low { 1 ≤ row }
    requires high { row ≤ 4 }
    ensures joined { RowJoined slots.old row frame.old frame.new }
    ensures parity { result ≡ row_parity_of LINE_COLUMNS row frame.new }
    ensures kept { slots.new ≡ slots.old }
{
    slots.join_row(row, frame.payload_row_mut(row));
    parity(frame.payload_row(row))
}

// Puts all groups of a row for these slots: bytes of one slot of an OTU2 stand together.
fn put_in_row(payload: &mut FilledSlots, row: u32, slots: &Slots, bytes: &[u8])
    requires low { 1 ≤ row }
    requires high { row ≤ 4 }
    requires size { length bytes.now ≡ length slots.now.list * (PAYLOAD_COLUMNS / slots_of slots.now.kind) }
    ensures list { IsSlotList (slots_of slots.now.kind) slots.now.list }
    ensures put { (cycle i : ℕ) → cycle < PAYLOAD_COLUMNS / slots_of slots.now.kind → i < length slots.now.list
        → slot_byte payload.new (row - 1) (slots_of slots.now.kind * cycle + (slice_index slots.now.list i - 1))
        ≡ slice_index bytes.now (length slots.now.list * cycle + i) }
    ensures kept { (x : ℕ) → x < PAYLOAD_COLUMNS
        → ((i : ℕ) → i < length slots.now.list → x % slots_of slots.now.kind + 1 ≢ slice_index slots.now.list i)
        → slot_byte payload.new (row - 1) x ≡ slot_byte payload.old (row - 1) x }
    ensures others { (other x : ℕ) → other < ROWS → other ≢ row - 1 → x < PAYLOAD_COLUMNS
        → slot_byte payload.new other x ≡ slot_byte payload.old other x }
{
    let kind = slots.kind();
    let list = slots.as_slice();
    if slots.is_otu2_slot() {
        payload.put_row(list[0], row, bytes);
        return;
    }
    put_joined(kind, payload, row, list, bytes);
}

// Puts the groups of any slots into the payload of the row itself.
fn put_joined(kind: LineKind, slots: &mut FilledSlots, row: u32, list: &[u8], bytes: &[u8])
    requires low { 1 ≤ row }
    requires high { row ≤ 4 }
    requires list { IsSlotList (slots_of kind) list.now }
    requires size { length bytes.now ≡ length list.now * (PAYLOAD_COLUMNS / slots_of kind) }
    ensures put { (cycle i : ℕ) → cycle < PAYLOAD_COLUMNS / slots_of kind → i < length list.now
        → slot_byte slots.new (row - 1) (slots_of kind * cycle + (slice_index list.now i - 1))
        ≡ slice_index bytes.now (length list.now * cycle + i) }
    ensures kept { (x : ℕ) → x < PAYLOAD_COLUMNS
        → ((i : ℕ) → i < length list.now → x % slots_of kind + 1 ≢ slice_index list.now i)
        → slot_byte slots.new (row - 1) x ≡ slot_byte slots.old (row - 1) x }
    ensures others { (other x : ℕ) → other < ROWS → other ≢ row - 1 → x < PAYLOAD_COLUMNS
        → slot_byte slots.new other x ≡ slot_byte slots.old other x }
{
    let mut payload = [0u8; PAYLOAD_COLUMNS];
    slots.join_row(row, &mut payload);
    put_groups(kind, list, bytes, &mut payload);
    slots.split_row(row, &payload);
}
