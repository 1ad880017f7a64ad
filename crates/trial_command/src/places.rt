// The places of the trial, in memory.
ghost use Rattle.std.specs.Prelude.{◌≡◌, ◌<◌, Some, IfOk};
ghost use Rattle.port_base.specs.InPlace.{in_view};
ghost use Rattle.port_base.specs.OutPlace.{out_view};
ghost use Rattle.port_base.specs.Racks.{bays_view};
ghost use Rattle.port_base.specs.Views.{Live, line_out_at};
ghost use Rattle.trial_command.specs.TrialRuns.{file_bytes, holding, most_text, waiting};
ghost use Rattle.trial_command.specs.Steps.TrialRuns.{FirstPlaces, MiddlePlaces, LastPlaces};

use bounded_ports::BoundedSink;
use otn_base::Memory;
use port_base::{InPlaceOf, MemSource, OutPlaceOf, Rack, Sink, Source};
use std::alloc::Global;
use std::mem;
use trial_plans::{CLIENTS, draw_text, generator_of};

/// Places in memory, whose outputs are of this kind.
pub(crate) type Memories<K> = Rack<MemSource, K>;

/// Room for a line's file, of 16 turns of eight frames, and for one byte more: so it is never full, and no write to it
/// fails.
pub(crate) const FILE_ROOM: usize = 2_088_961;

/// Room for the text of 16 packets of 1,500 bytes, and for one byte more.
pub(crate) const TEXT_ROOM: usize = 48_017;

/// Each output has room for more than is ever due to it.
pub(crate) fn rooms_suffice()
    ensures file { file_bytes < FILE_ROOM }
    ensures text { most_text < TEXT_ROOM }
{}

/// Takes a line's file.
pub(crate) type FileSink = BoundedSink<FILE_ROOM>;

/// Takes a client's text.
pub(crate) type TextSink = BoundedSink<TEXT_ROOM>;

/// The places of the first run: the clients' texts, drawn by the number, and room for the file of line 0.
pub(crate) fn first_places(alloc: Global, number: u64) -> Result<Memories<FileSink>, Memory>
    ensures { IfOk result (λ bays. FirstPlaces number
        (bays_view ⟦<MemSource as Source>⟧ ⟦<BoundedSink<FILE_ROOM> as Sink>⟧ bays)) }
{
    let mut generator = generator_of(number);
    let mut bays = Rack::new(alloc)?;
    bays.set_line_out(0, room_for(alloc)?);
    for c in 0..CLIENTS {
        let text = draw_text(alloc, &mut generator)?;
        bays.set_client_in(c, holding(text));
    }
    Ok(bays)
}

/// The places of the second or the third run: the file of the one before, and room for its own.
pub(crate) fn middle_places(
    alloc: Global,
    run: u8,
    file: Vec<u8>,
) -> Result<Memories<FileSink>, Memory>
    requires { run < 4 }
    ensures { IfOk result (λ bays. MiddlePlaces run file.items
        (bays_view ⟦<MemSource as Source>⟧ ⟦<BoundedSink<FILE_ROOM> as Sink>⟧ bays)) }
{
    let mut bays = Rack::new(alloc)?;
    bays.set_line_in(0, holding(file));
    bays.set_line_out(run, room_for(alloc)?);
    Ok(bays)
}

/// The places of the last run: the file of the third one, and room for the clients' texts.
pub(crate) fn last_places(alloc: Global, file: Vec<u8>) -> Result<Memories<TextSink>, Memory>
    ensures { IfOk result (λ bays. LastPlaces file.items
        (bays_view ⟦<MemSource as Source>⟧ ⟦<BoundedSink<TEXT_ROOM> as Sink>⟧ bays)) }
{
    let mut bays = Rack::new(alloc)?;
    bays.set_line_in(0, holding(file));
    for c in 0..CLIENTS {
        bays.set_client_out(c, room_for(alloc)?);
    }
    Ok(bays)
}

// A place with these bytes.
fn holding(bytes: Vec<u8>) -> InPlaceOf<MemSource>
    ensures { in_view ⟦<MemSource as Source>⟧ result ≡ holding bytes.items }
{
    InPlaceOf::Live(MemSource::new(bytes), 0)
}

// A place with so much room, to which nothing went.
fn room_for<const ROOM: usize>(alloc: Global) -> Result<OutPlaceOf<BoundedSink<ROOM>>, Memory>
    ensures { IfOk result (λ place. out_view ⟦<BoundedSink<ROOM> as Sink>⟧ place ≡ waiting) }
{
    Ok(OutPlaceOf::Live(BoundedSink::new(alloc)?, 0))
}

/// The file that went to a line whose place lives, handed out whole.
pub(crate) fn file_of(bays: Memories<FileSink>, line: u8) -> Vec<u8>
    requires line { line < 4 }
    requires live { (line_out_at (bays_view ⟦<MemSource as Source>⟧ ⟦<BoundedSink<FILE_ROOM> as Sink>⟧ bays) line).state
        ≡ Live }
    ensures { (line_out_at (bays_view ⟦<MemSource as Source>⟧ ⟦<BoundedSink<FILE_ROOM> as Sink>⟧ bays) line).got
        ≡ Some result.items }
{
    let mut bays = bays;
    match mem::replace(bays.line_out_mut(line), OutPlaceOf::Empty) {
        OutPlaceOf::Live(sink, _) => sink.into_bytes(),
        OutPlaceOf::Empty => unreachable!(),
        OutPlaceOf::Retired(..) => unreachable!(),
        OutPlaceOf::Dead(..) => unreachable!(),
    }
}

/// The text that went to a place that lives.
pub(crate) fn text_of(place: &OutPlaceOf<TextSink>) -> &[u8]
    requires { (out_view ⟦<BoundedSink<TEXT_ROOM> as Sink>⟧ place.now).state ≡ Live }
    ensures { (out_view ⟦<BoundedSink<TEXT_ROOM> as Sink>⟧ place.now).got ≡ Some result.now }
{
    match place {
        OutPlaceOf::Live(sink, _) => sink.bytes(),
        OutPlaceOf::Empty => unreachable!(),
        OutPlaceOf::Retired(..) => unreachable!(),
        OutPlaceOf::Dead(..) => unreachable!(),
    }
}
