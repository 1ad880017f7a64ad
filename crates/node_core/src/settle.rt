// How a node past its last turn is settled: each line whose end was not seen is asked for one byte more.
ghost use Rattle.std.specs.Prelude.{◌≡◌, ◌≤◌, ◌<◌, ◌||◌, true, length};
ghost use Rattle.otn_base.specs.declared.limits.TheConstants.{LINES as LINE_PORTS};
ghost use Rattle.port_base.specs.InPlace.{in_view};
ghost use Rattle.port_base.specs.Racks.{bays_view};
ghost use Rattle.port_base.specs.Views.{BaysView, is_dead};
ghost use Rattle.plan_file.specs.declared.plan.Plan.{Plan};
ghost use Rattle.device_model.specs.Outcomes.{place_state};
ghost use Rattle.port_base.specs.Asked.{ByteAnswer};
ghost use Rattle.node_core.specs.Asking.{LinesAsked, asks_line};
ghost use Rattle.node_core.specs.Steps.Asking.{LinesAnswer, CutAnswer, OpenAnswer, OpensAnswer, is_cut, outcome_by};
ghost use Rattle.turn_pieces.specs.Ports.{index_of, port_count};
ghost use Rattle.node_core.specs.Settling.{Settled};
ghost use Rattle.node_moments.specs.Stands.{InputBytes, StandsAt};

use crate::Node;
use device_model::Outcome;
use line_side::LineIn;
use node_links::Link;
use otn_base::PortName;
use otn_base::limits::LINES;
use plan_file::FromEnd;
use port_base::{InPlaceOf, Rack, Sink, Source, ask_byte, is_dead_in, is_dead_out};
use turn_pieces::{PORTS, Pieces, port_at};

impl Node {
    /// Asks each input line that is used, and whose end was not seen, for one byte more, in the order of the lines, and
    /// says how the run ended: Cut where a place that is used is dead; else Unfinished where such a byte came, or a
    /// client that is used is not spent; else Done. The node is past its last turn.
    pub fn settle<P: Source, K: Sink>(&self, bays: &mut Rack<P, K>) -> Outcome
        requires finished { self.now.turns ≤ self.now.past }

        // whatever plan it is of, and whatever was taken of the inputs, this settles it
        ensures settled { (plan : Plan) (first : BaysView) (read : InputBytes)
            → StandsAt plan first read self.now (bays_view P.Source K.Sink bays.old)
            → Settled plan first read self.now (bays_view P.Source K.Sink bays.new) result }
        ensures asked { LinesAsked LINE_PORTS self.now.pieces self.now.lines_in (bays_view P.Source K.Sink bays.old)
            (bays_view P.Source K.Sink bays.new) }
    {
        let more = ask_lines(&self.lines_in, &self.pieces, bays);
        let dead = has_dead(&self.pieces, bays);
        let unspent = has_open(&self.links);
        outcome_by(dead, more, unspent)
    }
}

// Asks each line for one byte, where it is to be asked, and says whether one came.
fn ask_lines<P: Source, K: Sink>(lines: &[LineIn], pieces: &Pieces, bays: &mut Rack<P, K>) -> bool
    requires four { length lines.now ≡ LINE_PORTS }
    ensures { LinesAnswer LINE_PORTS pieces.now lines.now (bays_view P.Source K.Sink bays.old)
        (bays_view P.Source K.Sink bays.new) result }
{
    let mut more = false;
    for a in 0..LINES as u8 {
        let asks = asks_line(a, &lines[a as usize], pieces);
        let has_more = ask_if(asks, bays.line_in_mut(a));
        more = either(more, has_more);
    }
    more
}

// Whether a line is to be asked: it is used, and its end was not seen.
fn asks_line(a: u8, line: &LineIn, pieces: &Pieces) -> bool
    ensures { result ≡ asks_line pieces.now a line.now }
{
    pieces.is_used(PortName::LineIn(a)) && !line.end_seen()
}

// Asks a place for one byte, where it is to be asked, and says whether it came.
fn ask_if<P: Source>(asks: bool, place: &mut InPlaceOf<P>) -> bool
    ensures { ByteAnswer asks (in_view P.Source place.old) (in_view P.Source place.new) result }
{
    if !asks {
        return false;
    }
    ask_byte(place)
}

// Whether the place of some port that is used is dead.
fn has_dead<P: Source, K: Sink>(pieces: &Pieces, bays: &Rack<P, K>) -> bool
    ensures { CutAnswer pieces.now (bays_view P.Source K.Sink bays.now) result }
{
    for i in 0..PORTS as u8 {
        if is_cut(port_at(i), pieces, bays) {
            return true;
        }
    }
    false
}

// Whether the port is used, and its place is dead.
fn is_cut<P: Source, K: Sink>(name: PortName, pieces: &Pieces, bays: &Rack<P, K>) -> bool
    requires { index_of name < port_count }
    ensures { result ≡ is_cut pieces.now (bays_view P.Source K.Sink bays.now) name }
{
    pieces.is_used(name) && is_dead(name, bays)
}

fn is_dead<P: Source, K: Sink>(name: PortName, bays: &Rack<P, K>) -> bool
    requires { index_of name < port_count }
    ensures { result ≡ is_dead (place_state (bays_view P.Source K.Sink bays.now) name) }
{
    match name {
        PortName::LineIn(a) => is_dead_in(bays.line_in(a)),
        PortName::LineOut(b) => is_dead_out(bays.line_out(b)),
        PortName::ClientIn(n) => is_dead_in(bays.client_in(n)),
        PortName::ClientOut(n) => is_dead_out(bays.client_out(n)),
    }
}

// Whether some connection comes from a client that is not spent.
fn has_open(links: &[Link]) -> bool
    ensures { OpensAnswer links.now result }
{
    for link in links {
        if is_open(link) {
            return true;
        }
    }
    false
}

// Whether the connection does.
fn is_open(link: &Link) -> bool
    ensures { OpenAnswer link.now result }
{
    match &link.entry.from {
        FromEnd::Client(_) => !link.pipe.client_in().1,
        FromEnd::Line(..) => false,
        FromEnd::Signal(_) => false,
    }
}

fn either(one: bool, other: bool) -> bool
    ensures { result ≡ (one || other) }
{
    one || other
}

// How the run ended: some place is dead or not, a byte came or none, some client is not spent or all are.
fn outcome_by(dead: bool, more: bool, unspent: bool) -> Outcome
    ensures { result ≡ outcome_by dead (more || unspent) }
{
    if dead {
        return Outcome::Cut;
    }
    if either(more, unspent) {
        Outcome::Unfinished
    } else {
        Outcome::Done
    }
}
