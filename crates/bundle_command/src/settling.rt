// The end of the command: clients that may have more are asked once more, and how it ended.
ghost use Rattle.std.specs.Prelude.{◌≡◌, ◌≢◌, ◌<◌, ◌≤◌, ◌*◌, ◌/◌, ◌&&◌, ℕ, List, length, nat_le, vec_len};
ghost use Rattle.otn_base.specs.declared.limits.TheConstants.{CLIENT_FRAME_BYTES, CLIENT_PAYLOAD_BYTES, MOST_TURNS, NOMINAL};
ghost use Rattle.port_base.specs.Racks.{bays_view};
ghost use Rattle.port_base.specs.Views.{BaysView, line_out_at};
ghost use Rattle.bundle_command.specs.BundleStream.{payload_whole};
ghost use Rattle.bundle_command.specs.Steps.Channels.{HasChannel, IsStanding, WeavingStands};
ghost use Rattle.bundle_command.specs.Steps.Framed.{OnlyInputs};
ghost use Rattle.bundle_command.specs.Steps.Settled.{AllEnded, ChannelSettled, DeadClients, IsEnded, IsSettled};

use crate::channel::{Channel, Standing};
use crate::weaving::Weaving;
use otn_base::limits::{CLIENT_FRAME_BYTES, CLIENT_PAYLOAD_BYTES, NOMINAL};
use port_base::{Ended, Rack, Sink, Source};
use tributary_line::{either, ended_by, is_dead_in, is_dead_out};

/// Asks each channel once more whose last answer was a packet, in the order of the channels.
pub(crate) fn settle<I: Source, O: Sink>(weaving: &mut Weaving, bays: &mut Rack<I, O>)
    requires stands { IsStanding (bays_view I.Source O.Sink bays.old) weaving.old }
    ensures settled { (clients : List ℕ) (first : BaysView) (emitted : List ℕ)
        → WeavingStands clients first (bays_view I.Source O.Sink bays.old) emitted weaving.old
        → IsSettled (length clients) clients first (bays_view I.Source O.Sink bays.new) emitted weaving.new }
    ensures alone { OnlyInputs (bays_view I.Source O.Sink bays.old) (bays_view I.Source O.Sink bays.new) }
{
    for i in 0..weaving.channels.len() {
        settle_one(&mut weaving.channels, i, bays);
    }
}

// The same of one channel.
fn settle_one<I: Source, O: Sink>(channels: &mut Vec<Channel>, index: usize, bays: &mut Rack<I, O>)
    requires within { index < vec_len channels.old }
    requires place { (channel : Channel) → HasChannel channels.old.items index channel → channel.client < 16 }
    ensures settled { ChannelSettled index (bays_view I.Source O.Sink bays.old) channels.old.items
        (bays_view I.Source O.Sink bays.new) channels.new.items }
    ensures alone { OnlyInputs (bays_view I.Source O.Sink bays.old) (bays_view I.Source O.Sink bays.new) }
    ensures many { vec_len channels.new ≡ vec_len channels.old }
{
    let client = channels[index].client;
    channels[index].settle(bays.client_in_mut(client));
}

/// How the command ended after so many turns, where the report did not fail.
pub(crate) fn ended<I: Source, O: Sink>(weaving: &Weaving, turns: u32, bays: &Rack<I, O>) -> Ended
    requires turns { turns ≤ MOST_TURNS }
    requires places { (c : ℕ) (channel : Channel) → HasChannel weaving.now.channels.items c channel
        → channel.client < 16 }
    ensures { IsEnded weaving.now turns (bays_view I.Source O.Sink bays.now) result }
{
    let dead = either(
        has_dead(&weaving.channels, bays),
        is_dead_out(bays.line_out(0)),
    );
    let finished = both(
        are_ended(&weaving.channels),
        weaving.end <= payload_whole(turns),
    );
    ended_by(dead, !finished)
}

// Payload bytes of the client frames that are whole in so many turns.
fn payload_whole(turns: u32) -> u64
    requires { turns ≤ MOST_TURNS }
    ensures { result ≡ payload_whole turns }
{
    (CLIENT_PAYLOAD_BYTES * (NOMINAL * turns as usize / CLIENT_FRAME_BYTES)) as u64
}

// Whether the text of each channel has ended.
fn are_ended(channels: &[Channel]) -> bool
    ensures { AllEnded channels.now result }
{
    for channel in channels {
        if channel.standing != Standing::Ended {
            return false;
        }
    }
    true
}

// Whether the place of some channel's client is dead.
fn has_dead<I: Source, O: Sink>(channels: &[Channel], bays: &Rack<I, O>) -> bool
    requires places { (c : ℕ) (channel : Channel) → HasChannel channels.now c channel → channel.client < 16 }
    ensures { DeadClients channels.now (bays_view I.Source O.Sink bays.now) result }
{
    for channel in channels {
        if is_dead_in(bays.client_in(channel.client)) {
            return true;
        }
    }
    false
}

fn both(one: bool, other: bool) -> bool
    ensures { result ≡ (one && other) }
{
    one && other
}
