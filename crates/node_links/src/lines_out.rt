// A piece of an output line.
ghost use Rattle.std.specs.Prelude.{◌≡◌, ◌<◌, ◌≤◌, ◌+◌, ◌*◌, ◌%◌, ℕ, true, false, length, slice_index};
ghost use Rattle.otn_base.specs.LineSlots.{LineSlots, slots_of};
ghost use Rattle.otn_base.specs.declared.kind.PortName.TheVariants.{LineOut as line-out};
ghost use Rattle.otn_base.specs.declared.limits.TheConstants.{LINE_COLUMNS, LINE_FRAME_BYTES as FRAME_BYTES};
ghost use Rattle.frame_geometry.specs.PayloadParity.{payload_parity_of};
ghost use Rattle.port_base.specs.OutPlace.{out_view};
ghost use Rattle.node_links.specs.Links.{takes_part};
ghost use Rattle.node_links.specs.LineFrames.{FrameWritten};
ghost use Rattle.node_links.specs.Steps.LineFrames.{PutsOwn, AllotsOwn, LinkByLink, FromBlank};
ghost use Rattle.node_links.specs.Moves.{EachLink, GaveFrame};

use crate::link::Link;
use frame_geometry::Frame;
use line_side::LineOut;
use msi_table::SlotMap;
use odtu_columns::{FillFrame, SlotFrame};
use otn_base::limits::{LINE_COLUMNS, LINE_FRAME_BYTES};
use otn_base::{LineKind, PortName, Slots};
use plan_file::ToEnd;
use port_base::{OutPlaceOf, Sink};

/// One piece of line output `b`: frame `n`, from 0, of turn past + 1, into which each active connection to the line
/// puts its own. What `slots` holds is of no account, before and behind the call.
pub fn write_line<K: Sink>(
    line: &mut LineOut,
    b: u8,
    past: u32,
    n: u8,
    links: &mut Vec<Link>,
    slots: &mut SlotFrame,
    place: &mut OutPlaceOf<K>,
)
    requires frame { n < slots_of line.old.form.kind }
    ensures { FrameWritten past b n line.old (out_view K.Sink place.old) links.old.items line.new
        (out_view K.Sink place.new) links.new.items }
{
    let kind = line.kind();
    let map = slot_map(kind, b, past, links);
    let by_slots = is_by_slots(kind, b, past, links);
    let payload = fill_line(by_slots, b, past, links, slots, line);
    line.finish_with(mfas_of(kind, past, n), &map, payload, place);
}

// Whether a frame of line output `b` is best kept by slots while it is filled in turn past + 1: on an OTU2, to which
// several connections give, and each has one slot. The frame is the same.
fn is_by_slots(kind: LineKind, b: u8, past: u32, links: &[Link]) -> bool {
    let mut count = 0u32;
    for link in links {
        if link.takes_part(PortName::LineOut(b), past) {
            if !has_one_slot(&link.entry.to) {
                return false;
            }
            count = count.saturating_add(1);
        }
    }
    kind == LineKind::Otu2 && count > 1
}

fn has_one_slot(to: &ToEnd) -> bool {
    match to {
        ToEnd::Line(_, _, slots) => slots.as_slice().len() == 1,
        ToEnd::Client(_) => false,
    }
}

// Each active connection to line output `b` puts its own into the next frame, where all else is 0. Answers what the
// payload gives to the frame's BIP-8.
fn fill_line(
    by_slots: bool,
    b: u8,
    past: u32,
    links: &mut Vec<Link>,
    slots: &mut SlotFrame,
    line: &mut LineOut,
) -> u8
    ensures gave { (n : ℕ) → EachLink (λ link then. GaveFrame (takes_part past (line-out b) link) n link then)
        links.old.items links.new.items }
    ensures puts { FromBlank (λ link before now. PutsOwn (takes_part past (line-out b) link) link before now)
        links.old.items line.new.frame }
    ensures size { length line.new.frame ≡ FRAME_BYTES }
    ensures payload { result ≡ payload_parity_of LINE_COLUMNS line.new.frame }
    ensures line { line.new ≡ record line.old { frame = line.new.frame } }
{
    if by_slots {
        return fill_by_slots(b, past, links, slots, line.begin_whole());
    }
    fill_blank(b, past, links, line.begin());
    line.payload_parity()
}

// The same of a frame that is all 0.
fn fill_blank(b: u8, past: u32, links: &mut Vec<Link>, frame: &mut Frame<LINE_COLUMNS>)
    requires blank { (place : ℕ) → slice_index frame.old place ≡ 0 }
    ensures gave { (n : ℕ) → EachLink (λ link then. GaveFrame (takes_part past (line-out b) link) n link then)
        links.old.items links.new.items }
    ensures puts { FromBlank (λ link before now. PutsOwn (takes_part past (line-out b) link) link before now)
        links.old.items frame.new }
    ensures size { length frame.new ≡ FRAME_BYTES }
{
    fill_links(b, past, links, frame);
    prove_eq!(frame.as_bytes().len(), LINE_FRAME_BYTES);
}

// The same by way of a frame that is kept by slots. What either frame holds is of no account.
fn fill_by_slots(
    b: u8,
    past: u32,
    links: &mut Vec<Link>,
    slots: &mut SlotFrame,
    frame: &mut Frame<LINE_COLUMNS>,
) -> u8
    ensures gave { (n : ℕ) → EachLink (λ link then. GaveFrame (takes_part past (line-out b) link) n link then)
        links.old.items links.new.items }
    ensures puts { FromBlank (λ link before now. PutsOwn (takes_part past (line-out b) link) link before now)
        links.old.items frame.new }
    ensures size { length frame.new ≡ FRAME_BYTES }
    ensures payload { result ≡ payload_parity_of LINE_COLUMNS frame.new }
{
    slots.clear();
    fill_links(b, past, links, slots);
    let payload = slots.join_into(frame);
    prove_eq!(frame.as_bytes().len(), LINE_FRAME_BYTES);
    payload
}

// Each active connection to line output `b` puts its own into a frame.
fn fill_links<F: FillFrame>(b: u8, past: u32, links: &mut Vec<Link>, frame: &mut F)
    ensures gave { (n : ℕ) → EachLink (λ link then. GaveFrame (takes_part past (line-out b) link) n link then)
        links.old.items links.new.items }
    ensures puts { LinkByLink (λ link before now. PutsOwn (takes_part past (line-out b) link) link before now)
        links.old.items (F.bytes frame.old) (F.bytes frame.new) }
{
    for link in links.iter_mut() {
        link.fill_frame(b, past, frame);
    }
}

// The tributary ports of the slots of line output `b`, which is of this kind, in turn past + 1.
fn slot_map(kind: LineKind, b: u8, past: u32, links: &[Link]) -> SlotMap
    ensures size { length result ≡ slots_of kind }
    ensures allots { FromBlank (λ link before now. AllotsOwn kind (takes_part past (line-out b) link) link before now)
        links.now result }
{
    let mut map = SlotMap::new(kind);
    for link in links {
        allot_own(kind, b, past, link, &mut map);
    }
    map
}

// The slots of an active connection to the line get its tributary port.
fn allot_own(kind: LineKind, b: u8, past: u32, link: &Link, map: &mut SlotMap)
    requires kind { length map.old ≡ slots_of kind }
    ensures kind { length map.new ≡ slots_of kind }
    ensures allots { AllotsOwn kind (takes_part past (line-out b) link.now) link.now map.old map.new }
{
    if link.takes_part(PortName::LineOut(b), past) {
        allot(kind, &link.entry.to, map);
    }
}

ghost use Rattle.msi_table.specs.Psi.{IsGiven};
ghost use Rattle.plan_file.specs.declared.connection.ToEnd.TheVariants as to_end;

// The slots of a line end of this kind get its tributary port, if it is one of the line's.
fn allot(kind: LineKind, to: &ToEnd, map: &mut SlotMap)
    requires kind { length map.old ≡ slots_of kind }
    ensures kind { length map.new ≡ slots_of kind }
    ensures given { (b number : ℕ) (slots : LineSlots) → to.now ≡ to_end.Line b number slots → slots.kind ≡ kind
        → 1 ≤ number → number ≤ slots_of kind
        → IsGiven slots.list number map.old map.new }
{
    match to {
        ToEnd::Line(_, number, slots) => allot_slots(kind, *number, slots, map),
        ToEnd::Client(_) => {}
    }
}

// The same of the slots alone.
fn allot_slots(kind: LineKind, number: u8, slots: &Slots, map: &mut SlotMap)
    requires kind { length map.old ≡ slots_of kind }
    ensures kind { length map.new ≡ slots_of kind }
    ensures given { slots.now.kind ≡ kind → 1 ≤ number → number ≤ slots_of kind
        → IsGiven slots.now.list number map.old map.new }
{
    if slots.kind() == kind && 1 <= number && number <= kind.slots() {
        map.free(slots);
        map.allot(slots, number);
    }
}

// The MFAS of frame `n`, from 0, of turn past + 1 of a line of this kind (G.709 clause 15.6.2.2).
fn mfas_of(kind: LineKind, past: u32, n: u8) -> u8
    ensures { result ≡ (slots_of kind * past + n) % 256 }
{
    let frames = u64::from(kind.slots()) * u64::from(past) + u64::from(n);
    (frames % 256) as u8
}
