// The message and the MSI bytes of a tributary in the frames of a multiframe.
ghost use Rattle.std.specs.Prelude.{◌≡◌, ◌+◌, ◌<◌, ◌≤◌, ◌++◌, ◌==◌, if◌then◌else◌, length};
ghost use Rattle.odtu_columns.specs.Message.{message_of};
ghost use Rattle.tributary_model.specs.Places.{greatest, msi_at};
ghost use Rattle.otn_base.specs.declared.limits.TheConstants.{MOST_SLOTS};
ghost use Rattle.trib_sink.specs.Watching.{AreOfSlots};

use arrayvec::ArrayVec;
use odtu_columns::TakeFrame;
use otn_base::Slots;
use otn_base::limits::MOST_SLOTS;

/// The message of a multiframe so far: that of frame `n` where it is the frame of the greatest slot.
pub(crate) fn message_so_far<F: TakeFrame>(
    slots: &Slots,
    n: u8,
    frame: &F,
    former: [u8; 6],
) -> [u8; 6]
    requires { n < MOST_SLOTS }
    ensures { result ≡ (if n + 1 == greatest slots.now.list then message_of (F.bytes frame.now) else former) }
{
    if n + 1 == greatest_slot(slots) {
        frame.take_message()
    } else {
        former
    }
}

// The slot in whose frame the message of a multiframe stands.
fn greatest_slot(slots: &Slots) -> u8
    ensures { result ≡ greatest slots.now.list }
{
    slots.last()
}

/// Notes the MSI byte of a frame, with its slot, where an own one has its MSI byte there.
pub(crate) fn note_msi<F: TakeFrame>(
    slots: &Slots,
    frame: &F,
    expected: u8,
    msi: &mut ArrayVec<(u8, u8), MOST_SLOTS>,
)
    requires room { length msi.old.items < MOST_SLOTS }
    ensures bytes { msi.new.items ≡ msi.old.items ++ msi_at slots.now.list expected (F.bytes frame.now) }
    ensures few { length msi.new.items ≤ length msi.old.items + 1 }
    ensures slots { AreOfSlots msi.old.items → AreOfSlots msi.new.items }
{
    if expected == 0 {
        return;
    }
    if slots.has(expected - 1) {
        msi.push((expected - 1, frame.psi()));
    }
}
