// A frame of an OTU2 beside its payload by tributary slots.
ghost use Rattle.std.specs.Prelude.{◌≡◌, ◌+◌, ◌-◌, ◌*◌, ◌/◌, ◌<◌, ◌≤◌, ℕ, List, [], ◌∷◌, IfSome, length, slice_index};
ghost use Rattle.frame_geometry.specs.Places.{payload_row_of, place_of};
ghost use Rattle.otn_base.specs.LineSlots.{slots_of};
ghost use Rattle.otn_base.specs.SlotList.{IsSlotList};
ghost use Rattle.otn_base.specs.declared.limits.TheConstants.{LINE_COLUMNS, PAYLOAD_COLUMNS, ROWS};
ghost use Rattle.odtu_columns.specs.BySlots.{IsPayloadOf};
ghost use Rattle.odtu_columns.specs.Message.{message_of};
ghost use Rattle.odtu_columns.specs.Payload.{payload_group, run_groups};

use crate::SlotPayload;
use crate::take::TakeFrame;
use frame_geometry::Frame;
use otn_base::Slots;
use otn_base::limits::LINE_COLUMNS;
use std::marker::Model;

/// A frame of an OTU2 of which sinks of one slot each take best: beside it stands its payload by slots, where a sink's
/// bytes stand together. It is seen as the bytes of the frame, row by row.
#[derive(Drop)]
pub struct SplitFrame<'a> {
    frame: &'a Frame<LINE_COLUMNS>,
    slots: &'a SlotPayload,
}

impl<'a> Model for SplitFrame<'a> {
    ghost use Rattle.std.specs.Prelude.{ℕ, List};
    ghost use Rattle.odtu_columns.specs.BySlots.{IsPayloadOf};

    ghost Value = { List ℕ };

    ghost view = { λ f. f.frame.now };

    ghost invariant = { λ f. IsPayloadOf f.frame.now f.slots.now };
}

impl<'a> SplitFrame<'a> {
    /// This frame, whose payload is kept by slots.
    pub fn new(frame: &'a Frame<LINE_COLUMNS>, slots: &'a SlotPayload) -> SplitFrame<'a>
        requires { IsPayloadOf frame.now slots.now }
        ensures { result ≡ frame.now }
    {
        SplitFrame { frame, slots }
    }
}

impl<'a> TakeFrame for SplitFrame<'a> {
    ghost bytes = { λ frame. frame };

    fn take_group(&self, row: u32, cycle: usize, slots: &Slots, into: &mut [u8]) {
        self.frame.take_group(row, cycle, slots, into);
    }

    fn take_groups(&self, row: u32, first: usize, count: usize, slots: &Slots, into: &mut [u8]) {
        self.frame.take_groups(row, first, count, slots, into);
    }

    fn own_bytes(&self, slots: &Slots) -> Option<&[u8]> {
        if slots.is_otu2_slot() {
            return Some(self.slots.slot(slots.last()));
        }
        None
    }

    fn take_message(&self) -> [u8; 6] {
        self.frame.take_message()
    }

    fn psi(&self) -> u8 {
        self.frame.psi()
    }
}
