// The MSI bytes of a turn.
ghost use Rattle.std.specs.Prelude.{◌≡◌, ◌+◌, ◌<◌, ◌≤◌, ◌++◌, length};
ghost use Rattle.std.specs.List.{range_with_len};
ghost use Rattle.otn_base.specs.LineSlots.{slots_of};
ghost use Rattle.otn_base.specs.declared.limits.TheConstants.{MOST_SLOTS};
ghost use Rattle.tributary_model.specs.Places.{msi_at};

use arrayvec::ArrayVec;
use odtu_columns::TakeFrame;
use otn_base::LineKind;
use otn_base::limits::MOST_SLOTS;

/// The MSI bytes that came in a turn, each with its slot.
pub(crate) type MsiBytes = ArrayVec<(u8, u8), MOST_SLOTS>;

/// Notes the MSI byte of a frame of a line of this kind, with its slot, where the MFAS that is expected of it is that
/// of one.
pub(crate) fn note_msi<F: TakeFrame>(kind: LineKind, frame: &F, expected: u8, msi: &mut MsiBytes)
    requires room { length msi.old.items < MOST_SLOTS }
    ensures bytes { msi.new.items ≡ msi.old.items
        ++ msi_at (range_with_len 1 (slots_of kind)) expected (F.bytes frame.now) }
    ensures few { length msi.new.items ≤ length msi.old.items + 1 }
{
    if expected < 2 {
        return;
    }
    if expected > kind.slots() + 1 {
        return;
    }
    msi.push((expected - 1, frame.psi()));
}
