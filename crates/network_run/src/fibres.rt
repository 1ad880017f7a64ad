// Fibres in memory: what their near ends got goes to their far ends.
ghost use Rattle.std.specs.Prelude.{◌≡◌, ◌≢◌, ◌<◌, ◌++◌, ℕ, IfSome, true, false};
ghost use Rattle.filled_ports.specs.Filled.{filled_left, filled_ended};
ghost use Rattle.port_base.specs.InPlace.{in_view};
ghost use Rattle.port_base.specs.OutPlace.{out_view};
ghost use Rattle.live_laws.specs.HandedIn.{grown};
ghost use Rattle.network_run.specs.FibreSinks.{fibre_got};
ghost use Rattle.network_run.specs.Fibres.{IsFilled, WaitsAt, WaitsFor, HandedTo, TookMore, WaitsIn};
ghost use Rattle.network_run.specs.Sites.{EachOne, SiteStill, net_sink, net_source};

use crate::{FibreSink, NetIn, NetOut, Site};
use filled_ports::{FilledSource, Handed};
use otn_base::limits::LINES;
use port_base::{InPlaceOf, OutPlaceOf, Sink, Source};

/// A fibre: from line output `out` of node `here` to line input `into` of node `there`, nodes by their index from 0.
#[derive(Clone, Copy, Debug, PartialEq, Eq)]
pub struct Span {
    pub here: u32,
    pub out: u8,
    pub there: u32,
    pub into: u8,
}

/// A fibre while it is filled.
#[derive(Clone, Copy, Debug, PartialEq, Eq)]
pub struct Filling {
    pub span: Span,
    /// How many bytes its near end had got when it was filled last.
    pub mark: u64,
    /// Whether each time all was handed over that waited.
    pub whole: bool,
}

/// Fills a fibre with what waits for it. `frames` is room for that.
pub(crate) fn fill<P: Source, K: Sink>(
    filling: &mut Filling,
    sites: &mut Vec<Site<P, K>>,
    frames: &mut Vec<u8>,
)
    ensures { IsFilled P.Source K.Sink filling.old filling.new sites.old.items sites.new.items }
{
    let mark = match waiting(sites, &filling.span, filling.mark, frames) {
        Some(total) => total,
        None => {
            filling.whole = false;
            return;
        }
    };
    if hand_over(sites, &filling.span, frames) {
        filling.mark = mark;
    } else {
        filling.whole = false;
    }
}

// Copies what waits for a fibre, and says how many bytes its near end got.
fn waiting<P: Source, K: Sink>(
    sites: &[Site<P, K>],
    span: &Span,
    mark: u64,
    frames: &mut Vec<u8>,
) -> Option<u64>
    ensures { IfSome result (WaitsFor P.Source K.Sink sites.now span.now mark frames.new.items) }
{
    let here = span.here as usize;
    if span.out >= LINES as u8 {
        return None;
    }
    if here >= sites.len() {
        return None;
    }
    waiting_at(sites[here].bays.line_out(span.out), mark, frames)
}

fn waiting_at<K: Sink>(
    place: &OutPlaceOf<NetOut<K>>,
    mark: u64,
    frames: &mut Vec<u8>,
) -> Option<u64>
    ensures { IfSome result (WaitsAt (out_view (net_sink K.Sink) place.now) mark frames.new.items) }
{
    match place {
        OutPlaceOf::Live(NetOut::Fibre(sink), _) => waiting_in(sink, mark, frames),
        OutPlaceOf::Live(NetOut::Edge(_), _) => None,
        OutPlaceOf::Empty => None,
        OutPlaceOf::Retired(..) => None,
        OutPlaceOf::Dead(..) => None,
    }
}

fn waiting_in(sink: &FibreSink, mark: u64, frames: &mut Vec<u8>) -> Option<u64>
    ensures { IfSome result (WaitsIn (fibre_got sink.now) mark frames.new.items) }
{
    let bytes = sink.since(mark)?;
    frames.clear();
    match frames.extend_from_slice(bytes) {
        Ok(()) => Some(sink.total()),
        Err(_) => None,
    }
}

// Hands bytes over to the far end of a fibre, and says whether it took them.
fn hand_over<P: Source, K: Sink>(sites: &mut Vec<Site<P, K>>, span: &Span, frames: &[u8]) -> bool
    ensures taken { result ≡ true → HandedTo P.Source K.Sink span.now.there span.now.into frames.now sites.old.items
        sites.new.items }
    ensures not { result ≡ false → EachOne (SiteStill P.Source K.Sink) sites.old.items sites.new.items }
{
    let there = span.there as usize;
    if span.into >= LINES as u8 {
        return false;
    }
    if there >= sites.len() {
        return false;
    }
    hand_in(&mut sites[there], span.into, frames)
}

fn hand_in<P: Source, K: Sink>(site: &mut Site<P, K>, into: u8, frames: &[u8]) -> bool
    requires few { into < 4 }
    ensures taken { result ≡ true → TookMore P.Source K.Sink into frames.now site.old site.new }
    ensures not { result ≡ false → SiteStill P.Source K.Sink site.old site.new }
{
    hand_in_place(site.bays.line_in_mut(into), frames)
}

fn hand_in_place<P: Source>(place: &mut InPlaceOf<NetIn<P>>, frames: &[u8]) -> bool
    ensures taken { result ≡ true → in_view (net_source P.Source) place.new
        ≡ grown frames.now (in_view (net_source P.Source) place.old) }
    ensures going { result ≡ true → (in_view (net_source P.Source) place.old).ended ≡ false }
    ensures not { result ≡ false → in_view (net_source P.Source) place.new
        ≡ in_view (net_source P.Source) place.old }
{
    match place {
        InPlaceOf::Live(NetIn::Fibre(source), _) => hand_in_source(source, frames),
        InPlaceOf::Live(NetIn::Edge(_), _) => false,
        InPlaceOf::Empty => false,
        InPlaceOf::Dead(..) => false,
    }
}

fn hand_in_source(source: &mut FilledSource, frames: &[u8]) -> bool
    ensures taken { result ≡ true → filled_left source.new ≡ filled_left source.old ++ frames.now }
    ensures going { result ≡ true → filled_ended source.old ≡ false }
    ensures not { result ≡ false → filled_left source.new ≡ filled_left source.old }
    ensures ended { filled_ended source.new ≡ filled_ended source.old }
{
    match source.hand_in(frames) {
        Ok(Handed::Taken) => true,
        Ok(Handed::Over) => false,
        Err(_) => false,
    }
}
