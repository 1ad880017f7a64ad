// The places of a live node: ports in memory, to which bytes are handed in, and from which they are taken out.
ghost use Rattle.std.specs.Prelude.{◌≡◌, ◌≢◌, ◌<◌, ◌++◌, [], Ok, IfOk, false};
ghost use Rattle.filled_ports.specs.Filled.{filled_left, filled_ended};
ghost use Rattle.port_base.specs.InPlace.{in_view};
ghost use Rattle.port_base.specs.OutPlace.{out_view};
ghost use Rattle.port_base.specs.Views.{line_in_at, client_in_at};
ghost use Rattle.node_moments.specs.Stands.{no_bytes};
ghost use Rattle.live_laws.specs.HandedIn.{grown, LineGrew, ClientGrew};
ghost use Rattle.live_laws.specs.Live.{OpensWith, holding, telling};
ghost use Rattle.live_node.specs.Kept.{KeepsOutputs};
ghost use Rattle.live_node.specs.Places.{places, kept_at, line_kept, client_kept, LinesUpTo, ClientsUpTo};

use filled_ports::{FilledSink, FilledSource, Handed};
use otn_base::Memory;
use otn_base::limits::{CLIENTS, LINES};
use port_base::{InPlaceOf, OutPlaceOf, Rack, Sink, Source};
use std::alloc::Global;

/// What came of handing in.
#[derive(Clone, Copy, Debug, PartialEq, Eq)]
pub enum HandedIn {
    /// The bytes are handed in.
    Taken,
    /// The plan has no such input, or it has ended: nothing is handed in.
    NoInput,
    /// The bytes of a line are no whole frames, or those of a client no whole lines: nothing is handed in.
    NotWhole,
}

/// Places in memory.
pub type Places = Rack<FilledSource, FilledSink>;

/// All places, to which nothing was handed in.
pub(crate) fn open_places(alloc: Global) -> Result<Places, Memory>
    ensures { IfOk result (λ made. OpensWith no_bytes (places made)) }
{
    let mut bays = Rack::new(alloc)?;
    open_lines(alloc, &mut bays);
    open_clients(alloc, &mut bays);
    Ok(bays)
}

fn open_lines(alloc: Global, bays: &mut Places)
    ensures { LinesUpTo 4 (places bays.old) (places bays.new) }
{
    for n in 0..LINES as u8 {
        bays.set_line_in(n, input(alloc));
        bays.set_line_out(n, output(alloc));
    }
}

fn open_clients(alloc: Global, bays: &mut Places)
    ensures { ClientsUpTo 16 (places bays.old) (places bays.new) }
{
    for n in 0..CLIENTS as u8 {
        bays.set_client_in(n, input(alloc));
        bays.set_client_out(n, output(alloc));
    }
}

fn input(alloc: Global) -> InPlaceOf<FilledSource>
    ensures { in_view ⟦<FilledSource as Source>⟧ result ≡ holding [] }
{
    InPlaceOf::Live(FilledSource::new(alloc), 0)
}

fn output(alloc: Global) -> OutPlaceOf<FilledSink>
    ensures { out_view ⟦<FilledSink as Sink>⟧ result ≡ telling }
{
    OutPlaceOf::Live(FilledSink::new(alloc), 0)
}

// ---- handing in

/// Hands in bytes at line input `a`.
pub(crate) fn hand_in_line(bays: &mut Places, a: u8, frames: &[u8]) -> Result<HandedIn, Memory>
    requires few { a < 4 }
    ensures grew { result ≡ Ok HandedIn.Taken → LineGrew a frames.now (places bays.old) (places bays.new) }
    ensures going { result ≡ Ok HandedIn.Taken → (line_in_at (places bays.old) a).ended ≡ false }
    ensures still { result ≢ Ok HandedIn.Taken → places bays.new ≡ places bays.old }
    ensures keeps { KeepsOutputs bays.old bays.new }
{
    hand_in(bays.line_in_mut(a), frames)
}

/// Hands in bytes at client input `n`.
pub(crate) fn hand_in_client(bays: &mut Places, n: u8, text: &[u8]) -> Result<HandedIn, Memory>
    requires few { n < 16 }
    ensures grew { result ≡ Ok HandedIn.Taken → ClientGrew n text.now (places bays.old) (places bays.new) }
    ensures going { result ≡ Ok HandedIn.Taken → (client_in_at (places bays.old) n).ended ≡ false }
    ensures still { result ≢ Ok HandedIn.Taken → places bays.new ≡ places bays.old }
    ensures keeps { KeepsOutputs bays.old bays.new }
{
    hand_in(bays.client_in_mut(n), text)
}

fn hand_in(place: &mut InPlaceOf<FilledSource>, bytes: &[u8]) -> Result<HandedIn, Memory>
    ensures taken { result ≡ Ok HandedIn.Taken → in_view ⟦<FilledSource as Source>⟧ place.new
        ≡ grown bytes.now (in_view ⟦<FilledSource as Source>⟧ place.old) }
    ensures going { result ≡ Ok HandedIn.Taken → (in_view ⟦<FilledSource as Source>⟧ place.old).ended ≡ false }
    ensures still { result ≢ Ok HandedIn.Taken → in_view ⟦<FilledSource as Source>⟧ place.new
        ≡ in_view ⟦<FilledSource as Source>⟧ place.old }
{
    match place {
        InPlaceOf::Live(source, _) => hand_in_port(source, bytes),
        InPlaceOf::Empty => Ok(HandedIn::NoInput),
        InPlaceOf::Dead(..) => Ok(HandedIn::NoInput),
    }
}

fn hand_in_port(source: &mut FilledSource, bytes: &[u8]) -> Result<HandedIn, Memory>
    ensures taken { result ≡ Ok HandedIn.Taken → filled_left source.new ≡ filled_left source.old ++ bytes.now }
    ensures going { result ≡ Ok HandedIn.Taken → filled_ended source.old ≡ false }
    ensures none { result ≢ Ok HandedIn.Taken → filled_left source.new ≡ filled_left source.old }
    ensures ended { filled_ended source.new ≡ filled_ended source.old }
{
    match source.hand_in(bytes)? {
        Handed::Taken => Ok(HandedIn::Taken),
        Handed::Over => Ok(HandedIn::NoInput),
    }
}

// ---- taking out

/// The bytes that the port of line output `b` keeps.
pub(crate) fn line_kept(bays: &Places, b: u8) -> &[u8]
    requires few { b < 4 }
    ensures { result.now ≡ line_kept bays.now b }
{
    kept(bays.line_out(b))
}

/// The bytes that the port of client output `n` keeps.
pub(crate) fn client_kept(bays: &Places, n: u8) -> &[u8]
    requires few { n < 16 }
    ensures { result.now ≡ client_kept bays.now n }
{
    kept(bays.client_out(n))
}

fn kept(place: &OutPlaceOf<FilledSink>) -> &[u8]
    ensures { result.now ≡ kept_at place.now }
{
    match place {
        OutPlaceOf::Live(sink, _) => sink.kept_bytes(),
        OutPlaceOf::Empty => &[],
        OutPlaceOf::Retired(..) => &[],
        OutPlaceOf::Dead(..) => &[],
    }
}

/// Lets go of what all outputs keep. They tell it for ever.
pub(crate) fn let_go_of_outputs(bays: &mut Places)
    ensures { places bays.new ≡ places bays.old }
{
    let_go_of_lines(bays);
    let_go_of_clients(bays);
}

fn let_go_of_lines(bays: &mut Places)
    ensures { places bays.new ≡ places bays.old }
{
    for b in 0..LINES as u8 {
        let_go(bays.line_out_mut(b));
    }
}

fn let_go_of_clients(bays: &mut Places)
    ensures { places bays.new ≡ places bays.old }
{
    for n in 0..CLIENTS as u8 {
        let_go(bays.client_out_mut(n));
    }
}

fn let_go(place: &mut OutPlaceOf<FilledSink>)
    ensures { out_view ⟦<FilledSink as Sink>⟧ place.new ≡ out_view ⟦<FilledSink as Sink>⟧ place.old }
{
    match place {
        OutPlaceOf::Live(sink, _) => sink.let_go(),
        OutPlaceOf::Empty => {}
        OutPlaceOf::Retired(..) => {}
        OutPlaceOf::Dead(..) => {}
    }
}
