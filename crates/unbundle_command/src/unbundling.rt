// The turns of the command: a sink of the line, and what becomes of the bytes that it emits.
ghost use Rattle.std.specs.Prelude.{◌≡◌, ◌+◌, ◌*◌, ℕ, List, ◌∷◌, [], IfOk, vec_len};
ghost use Rattle.otn_base.specs.declared.limits.TheConstants.{GROUPS};
ghost use Rattle.port_base.specs.Racks.{bays_view};
ghost use Rattle.port_base.specs.Views.{BaysView};

use crate::outputs::Outputs;
use crate::receiving::take_all;
use gfp_linear::ChannelReader;
use odu_client::ClientAligner;
use otn_base::{LineKind, Memory, Slots};
use port_base::{Rack, Sink, Source};
use std::alloc::Global;
use tributary_line::Tap;

/// The sink of the tributary in slot 1 with port 1, what finds the client frames in the bytes that it emits, the reader
/// of the linear GFP frames in these, and the outputs of the channels.
#[derive(Drop)]
pub(crate) struct Unbundling {
    pub(crate) tap: Tap,
    pub(crate) aligner: ClientAligner,
    pub(crate) reader: ChannelReader,
    pub(crate) outputs: Outputs,
}

ghost use Rattle.unbundle_command.specs.Unbundling.{OnlyUnbundled};
ghost use Rattle.unbundle_command.specs.Steps.Unbundling.{IsReady, Stands, TurnGone, TurnsGone};

impl Unbundling {
    /// The parts before the first turn. Takes all memory that they will ever need; answers `Memory` where there is
    /// none.
    pub(crate) fn new(alloc: Global) -> Result<Unbundling, Memory>
        ensures gone { IfOk result (λ parts. (first : BaysView) → TurnsGone first first 0 parts) }
        ensures ready { IfOk result IsReady }
    {
        let tap = Tap::new(alloc, 1, &first_slot())?;
        let aligner = ClientAligner::new(alloc)?;
        let reader = ChannelReader::new(alloc)?;
        let outputs = Outputs::new(alloc)?;
        Ok(Unbundling {
            tap,
            aligner,
            reader,
            outputs,
        })
    }

    /// Turn t + 1: the sink sees a turn of the line, and what arrives on channels with the bytes that it emits is due
    /// to their client outputs.
    pub(crate) fn turn<I: Source, O: Sink>(&mut self, room: &mut Vec<u8>, bays: &mut Rack<I, O>)
        requires ready { IsReady self.old }
        requires room { vec_len room.old ≡ GROUPS + 1 }
        ensures gone { (first : BaysView) (read : List ℕ) (t : ℕ)
            → Stands first (bays_view I.Source O.Sink bays.old) read t self.old
            → TurnGone first (bays_view I.Source O.Sink bays.new) read t self.new }
        ensures ready { IsReady self.new }
        ensures room_stays { vec_len room.new ≡ vec_len room.old }
        ensures alone { OnlyUnbundled (bays_view I.Source O.Sink bays.old) (bays_view I.Source O.Sink bays.new) }
    {
        let emitted = self.tap.turn(bays.line_in_mut(0), room);
        take_all(
            &room[emitted],
            &mut self.aligner,
            &mut self.reader,
            &mut self.outputs,
            bays,
        );
    }
}

// Slot 1 of an OTU2.
fn first_slot() -> Slots
    ensures { result ≡ record { kind = LineKind.Otu2; list = 1 ∷ [] } }
{
    match Slots::new(&[1], LineKind::Otu2) {
        Some(slots) => slots,
        None => unreachable!(),
    }
}
