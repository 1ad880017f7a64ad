// Whether the outputs keep all that they got since they were last told to let go: their places count it.
ghost use Rattle.std.specs.Prelude.{◌≡◌, ◌<◌, ◌+◌, ◌-◌, ◌^◌, ℕ, get_or, IsTrue};
ghost use Rattle.port_base.specs.OutPlace.{out_view};
ghost use Rattle.port_base.specs.Views.{line_out_at, client_out_at};
ghost use Rattle.live_node.specs.Kept.{KeepsSince, ClientsKeep, LinesKeep, OutputsKeep, AreNone, AreSent};
ghost use Rattle.live_node.specs.Places.{places, kept_at};

use crate::places::Places;
use filled_ports::FilledSink;
use otn_base::limits::{CLIENTS, LINES};
use port_base::{OutPlaceOf, Sink};

/// How many bytes were sent to each output.
#[derive(Drop)]
pub(crate) struct Sent {
    pub lines: [u64; LINES],
    pub clients: [u64; CLIENTS],
}

/// None.
pub(crate) fn nothing_sent() -> Sent
    ensures { AreNone result.lines result.clients }
{
    Sent {
        lines: [0; LINES],
        clients: [0; CLIENTS],
    }
}

/// How many were by now.
pub(crate) fn sent_so_far(bays: &Places) -> Sent
    ensures { AreSent result.lines result.clients (places bays.now) }
{
    Sent {
        lines: sent_to_lines(bays),
        clients: sent_to_clients(bays),
    }
}

fn sent_to_lines(bays: &Places) -> [u64; LINES]
    ensures { (b : ℕ) → b < 4 → get_or result b 0 ≡ (line_out_at (places bays.now) b).number }
{
    let mut sent = [0; LINES];
    for b in 0..LINES as u8 {
        sent[b as usize] = number_of(bays.line_out(b));
    }
    sent
}

fn sent_to_clients(bays: &Places) -> [u64; CLIENTS]
    ensures { (n : ℕ) → n < 16 → get_or result n 0 ≡ (client_out_at (places bays.now) n).number }
{
    let mut sent = [0; CLIENTS];
    for n in 0..CLIENTS as u8 {
        sent[n as usize] = number_of(bays.client_out(n));
    }
    sent
}

fn number_of(place: &OutPlaceOf<FilledSink>) -> u64
    ensures { result ≡ (out_view ⟦<FilledSink as Sink>⟧ place.now).number }
{
    match place {
        OutPlaceOf::Empty => 0,
        OutPlaceOf::Retired(..) => 0,
        OutPlaceOf::Live(_, number) => *number,
        OutPlaceOf::Dead(_, number) => *number,
    }
}

/// Whether no output has died, and each one keeps all that was sent to it since so much was. One has died where there
/// was no memory for what it got.
pub(crate) fn keep_all(bays: &Places, sent: &Sent) -> bool
    ensures { IsTrue result → OutputsKeep sent.now.lines sent.now.clients bays.now }
{
    lines_keep(bays, &sent.lines) && clients_keep(bays, &sent.clients)
}

fn lines_keep(bays: &Places, sent: &[u64; LINES]) -> bool
    ensures { IsTrue result → LinesKeep 4 sent.now bays.now }
{
    for b in 0..LINES as u8 {
        if !keeps_since(bays.line_out(b), sent[b as usize]) {
            return false;
        }
    }
    true
}

fn clients_keep(bays: &Places, sent: &[u64; CLIENTS]) -> bool
    ensures { IsTrue result → ClientsKeep 16 sent.now bays.now }
{
    for n in 0..CLIENTS as u8 {
        if !keeps_since(bays.client_out(n), sent[n as usize]) {
            return false;
        }
    }
    true
}

fn keeps_since(place: &OutPlaceOf<FilledSink>, sent: u64) -> bool
    ensures { IsTrue result → KeepsSince sent (out_view ⟦<FilledSink as Sink>⟧ place.now) (kept_at place.now) }
{
    match place {
        OutPlaceOf::Empty => true,
        OutPlaceOf::Retired(..) => true,
        OutPlaceOf::Live(sink, number) => is_sum(sent, sink.kept_bytes().len() as u64, *number),
        OutPlaceOf::Dead(..) => false,
    }
}

// Whether the third is the sum of the first two, below the number at which counts stop.
fn is_sum(sent: u64, kept: u64, number: u64) -> bool
    ensures { IsTrue result → (number < 2 ^ 64 - 1) × (number ≡ sent + kept) }
{
    number < u64::MAX && sent.saturating_add(kept) == number
}
