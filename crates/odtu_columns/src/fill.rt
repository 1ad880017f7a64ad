// A frame of a line into which sources put their own.
ghost use Rattle.std.specs.Prelude.{◌≡◌, ◌*◌, ◌/◌, ◌≤◌, ℕ, List, length, slice_index};
ghost use Rattle.frame_geometry.specs.Places.{place_of};
ghost use Rattle.otn_base.specs.LineSlots.{slots_of};
ghost use Rattle.otn_base.specs.declared.limits.TheConstants.{LINE_COLUMNS, OTU2_SLOTS, PAYLOAD_COLUMNS, ROWS};
ghost use Rattle.odtu_columns.specs.Groups.{row_groups_of};
ghost use Rattle.odtu_columns.specs.Message.{message_of};
ghost use Rattle.odtu_columns.specs.Put.{RowWasPut, SlotWasPut};

use crate::RowGroups;
use crate::justification::put_message;
use crate::put::{lay_row_groups, lay_slot, put_row_groups};
use frame_geometry::Frame;
use otn_base::Slots;
use otn_base::limits::LINE_COLUMNS;

/// A frame of an OTU2 or an OTU3 that is being filled: sources put their groups and their messages into it, one after
/// the other.
pub trait FillFrame: Drop {
    /// Its bytes, row by row.
    ghost bytes: { Self → List ℕ };

    /// Writes all groups of a row (1 to 4) for these slots, which stand one after the other, 476 on an OTU2,
    /// 119 on an OTU3; every byte that is not of the slots stays.
    fn fill_row_groups(&mut self, row: u32, slots: &Slots, groups: &[u8])
        requires row_low { 1 ≤ row }
        requires row_high { row ≤ 4 }
        requires size { length groups.now ≡ length slots.now.list * (PAYLOAD_COLUMNS / slots_of slots.now.kind) }
        ensures put { RowWasPut (slots_of slots.now.kind) slots.now.list row groups.now (bytes self.old)
            (bytes self.new) }
        ensures groups { row_groups_of (slots_of slots.now.kind) slots.now.list row (bytes self.new) ≡ groups.now };

    /// Writes all groups of a row (1 to 4) for these slots, as `fill_row_groups` does, out of what lays them out: where
    /// they stand together in the row, at their place in it. What the scratch bytes are is of no account, before and
    /// behind the call.
    fn lay_row_groups<G: RowGroups>(
        &mut self,
        row: u32,
        slots: &Slots,
        groups: &G,
        scratch: &mut [u8],
    )
        requires row_low { 1 ≤ row }
        requires row_high { row ≤ 4 }
        requires size { length (G.groups groups.now)
            ≡ length slots.now.list * (PAYLOAD_COLUMNS / slots_of slots.now.kind) }
        requires scratch { length scratch.old ≡ length (G.groups groups.now) }
        ensures { RowWasPut (slots_of slots.now.kind) slots.now.list row (G.groups groups.now) (bytes self.old)
            (bytes self.new) };

    /// Writes all groups of the frame for one slot of an OTU2, 1,904 of them, one after the other, out of what lays
    /// them out; every byte that is not of the slot stays. What the scratch bytes are is of no account, before and
    /// behind the call.
    fn lay_slot<G: RowGroups>(&mut self, slots: &Slots, groups: &G, scratch: &mut [u8])
        requires line { slots_of slots.now.kind ≡ OTU2_SLOTS }
        requires one { length slots.now.list ≡ 1 }
        requires size { length (G.groups groups.now) ≡ ROWS * (PAYLOAD_COLUMNS / OTU2_SLOTS) }
        requires scratch { length scratch.old ≡ length (G.groups groups.now) }
        ensures { SlotWasPut slots.now.list (G.groups groups.now) (bytes self.old) (bytes self.new) };

    /// Writes JC1 to JC6, in this order; every other byte stays.
    fn fill_message(&mut self, message: [u8; 6])
        ensures message { message_of (bytes self.new) ≡ message }
        ensures kept { (place : ℕ) → ((row column : ℕ) → 1 ≤ row → row ≤ 3 → 15 ≤ column → column ≤ 16
            → place ≡ place_of LINE_COLUMNS row column → ⊥)
            → slice_index (bytes self.new) place ≡ slice_index (bytes self.old) place };
}

impl FillFrame for Frame<LINE_COLUMNS> {
    ghost bytes = { λ frame. frame };

    fn fill_row_groups(&mut self, row: u32, slots: &Slots, groups: &[u8]) {
        put_row_groups(self, row, slots, groups);
    }

    fn lay_row_groups<G: RowGroups>(
        &mut self,
        row: u32,
        slots: &Slots,
        groups: &G,
        scratch: &mut [u8],
    ) {
        lay_row_groups(self, row, slots, groups, scratch);
    }

    fn lay_slot<G: RowGroups>(&mut self, slots: &Slots, groups: &G, scratch: &mut [u8]) {
        lay_slot(self, slots, groups, scratch);
    }

    fn fill_message(&mut self, message: [u8; 6]) {
        put_message(self, message);
    }
}
