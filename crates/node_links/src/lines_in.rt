// A piece of an input line.
ghost use Rattle.std.specs.Prelude.{◌≡◌, ◌<◌};
ghost use Rattle.otn_base.specs.LineSlots.{slots_of};
ghost use Rattle.otn_base.specs.declared.kind.PortName.TheVariants.{LineIn as line-in};
ghost use Rattle.port_base.specs.InPlace.{in_view};
ghost use Rattle.node_links.specs.Links.{takes_part};
ghost use Rattle.node_links.specs.Moves.{EachLink, TookFrame, ReadsLine};

use crate::link::Link;
use frame_geometry::Frame;
use line_side::LineIn;
use odtu_columns::{SlotPayload, SplitFrame, TakeFrame};
use otn_base::PortName;
use otn_base::limits::LINE_COLUMNS;
use port_base::{InPlaceOf, Source};

/// One piece of line input `a` in turn past + 1: where it comes to a frame of the turn's multiframe, each active
/// connection from the line takes it. What `payload` holds is of no account, before and behind the call.
pub fn read_line<P: Source>(
    line: &mut LineIn,
    a: u8,
    past: u32,
    links: &mut Vec<Link>,
    payload: &mut SlotPayload,
    place: &mut InPlaceOf<P>,
)
    requires pieces { line.old.pieces < slots_of line.old.kind }
    ensures { ReadsLine past a line.old (in_view P.Source place.old) links.old.items line.new
        (in_view P.Source place.new) links.new.items }
{
    if !line.piece(place) {
        return;
    }
    hand_out(a, past, line.frame(), line.expected(), links, payload);
}

// Each active connection from line input `a` takes a frame of it, with the MFAS that is expected of it.
fn hand_out(
    a: u8,
    past: u32,
    frame: &Frame<LINE_COLUMNS>,
    expected: u8,
    links: &mut Vec<Link>,
    payload: &mut SlotPayload,
)
    ensures { EachLink (λ link then. TookFrame (takes_part past (line-in a) link)
        (record { frame = frame.now; expected = expected }) link then) links.old.items links.new.items }
{
    if is_by_slots(a, past, links) {
        payload.split(frame);
        hand_each(a, past, &SplitFrame::new(frame, payload), expected, links);
        return;
    }
    hand_each(a, past, frame, expected, links);
}

// Whether a frame of line input `a` is best split by slots before it is taken in turn past + 1: several connections
// take of it, and each one slot of an OTU2. What they take is the same.
fn is_by_slots(a: u8, past: u32, links: &[Link]) -> bool {
    let mut count = 0u32;
    for link in links {
        if link.takes_part(PortName::LineIn(a), past) {
            if !link.pipe.takes_one_slot() {
                return false;
            }
            count = count.saturating_add(1);
        }
    }
    count > 1
}

// Each active connection from line input `a` takes of this frame.
fn hand_each<F: TakeFrame>(a: u8, past: u32, frame: &F, expected: u8, links: &mut Vec<Link>)
    ensures { EachLink (λ link then. TookFrame (takes_part past (line-in a) link)
        (record { frame = F.bytes frame.now; expected = expected }) link then) links.old.items links.new.items }
{
    for link in links.iter_mut() {
        link.take_frame(a, past, frame, expected);
    }
}
