// The end of a turn.
ghost use Rattle.std.specs.Prelude.{◌≡◌, ◌≤◌, ◌<◌, ℕ, true, length, slice_get, vec_len, Some};
ghost use Rattle.otn_base.specs.LineSlots.{slots_of};
ghost use Rattle.otn_base.specs.declared.kind.PortName.TheVariants.{LineIn as line-in};
ghost use Rattle.otn_base.specs.declared.limits.TheConstants.{LINES as LINE_PORTS};
ghost use Rattle.line_side.specs.LineStands.{LineView};
ghost use Rattle.node_links.specs.LineEnds.{LinesEnd, ends_if};
ghost use Rattle.node_links.specs.Moves.{Fences, EachLink};
ghost use Rattle.node_links.specs.LinkEnds.{Starts, whole_for};
ghost use Rattle.turn_pieces.specs.Pieces.{wanted_of};

use crate::link::Link;
use line_side::LineIn;
use otn_base::PortName;
use otn_base::limits::LINES;
use turn_pieces::Pieces;

/// Ends the turn of each line input that is used, and says of each whether it has a multiframe in it.
pub fn end_lines(lines: &mut Vec<LineIn>, pieces: &Pieces) -> [bool; LINES]
    requires four { vec_len lines.old ≡ LINE_PORTS }
    requires done { (a : ℕ) (line : LineView) → slice_get lines.old.items a ≡ Some line
        → 1 ≤ wanted_of pieces.now (line-in a) → line.pieces ≡ slots_of line.kind }
    ensures four { vec_len lines.new ≡ LINE_PORTS }
    ensures ends { LinesEnd pieces.now lines.old.items lines.new.items result }
{
    let mut wholes = [false; LINES];
    for a in 0..LINES as u8 {
        wholes[a as usize] = end_line(&mut lines[a as usize], pieces.is_used(PortName::LineIn(a)));
    }
    wholes
}

// Ends the turn of a line, where it is used, and says whether it has a multiframe in it.
fn end_line(line: &mut LineIn, used: bool) -> bool
    requires done { used ≡ true → line.old.pieces ≡ slots_of line.old.kind }
    ensures { ends_if used line.old line.new result }
{
    if !used {
        return false;
    }
    line.end_turn()
}

/// Ends turn past + 1 of each connection: `wholes` says of each line input whether it has a multiframe in it.
pub fn fence_all(links: &mut Vec<Link>, past: u32, wholes: &[bool])
    ensures { EachLink (λ link then. Fences past (whole_for link.entry.from wholes.now) link then) links.old.items
        links.new.items }
{
    for link in links.iter_mut() {
        link.fence(past, wholes);
    }
}

/// Begins each connection whose first turn is turn past + 1.
pub fn start_all(links: &mut Vec<Link>, past: u32)
    ensures { EachLink (λ link then. Starts past link then) links.old.items links.new.items }
{
    for link in links.iter_mut() {
        link.start_in(past);
    }
}
