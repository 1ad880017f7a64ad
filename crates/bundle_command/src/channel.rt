// A channel: its client's text, packet by packet.
ghost use Rattle.std.specs.Prelude.{◌≡◌, ◌≢◌, ◌⊎◌, ◌<◌, ◌≤◌, ◌++◌, ℕ, List, [], IfOk, length};
ghost use Rattle.port_base.specs.InPlace.{in_view};
ghost use Rattle.port_base.specs.Views.{InView};
ghost use Rattle.packet_text.specs.LinesStand.{lines_view};
ghost use Rattle.bundle_command.specs.Steps.Channels.{ChannelStands, Answered, count_of, news, standing_of, standing_at_end};

use otn_base::Memory;
use packet_text::{Line, PacketLines};
use port_base::{InPlaceOf, Source};
use std::alloc::Global;

/// Bytes of a packet that a channel carries at most: the area of its frame has 65,535 bytes, 12 of which are headers
/// and FCS.
pub(crate) const MOST_CARRIED: usize = 65_523;

/// How a channel stands, after what its client's text answered last.
#[derive(Clone, Copy, PartialEq, Eq, Debug)]
pub(crate) enum Standing {
    /// It was not asked.
    Fresh,
    /// It gave a packet.
    Going,
    /// Its text has ended.
    Ended,
    /// A line of it is bad, or a packet too long.
    Bad,
    /// Its place died.
    Lost,
    /// Behind the last turn it had a packet more.
    More,
}

/// A channel of the stream: the number of its client, whose text is read packet by packet.
#[derive(Drop)]
pub(crate) struct Channel {
    pub(crate) client: u8,
    pub(crate) lines: PacketLines,
    pub(crate) standing: Standing,
    // The packets that it gave.
    pub(crate) packets: u64,
}

impl Channel {
    /// The channel of this client, 0 to 15, which was not asked. All memory is taken here.
    pub(crate) fn new(alloc: Global, client: u8) -> Result<Channel, Memory>
        ensures stands { IfOk result (λ channel. (first : InView) → ChannelStands first first [] [] channel) }
        ensures client { IfOk result (λ channel. channel.client ≡ client) }
        ensures fresh { IfOk result (λ channel. channel.standing ≡ Standing.Fresh) }
    {
        Ok(Channel {
            client,
            lines: PacketLines::new(alloc)?,
            standing: Standing::Fresh,
            packets: 0,
        })
    }

    /// Asks for its next packet, which is `packet` where it is Going after that; once it gave none it gives none, and
    /// nothing is read.
    pub(crate) fn next<I: Source>(&mut self, place: &mut InPlaceOf<I>) -> Standing
        requires open { self.old.standing ≢ Standing.More }
        ensures answered { (first : InView) (read : List ℕ) (offered : List (List ℕ))
            → ChannelStands first (in_view I.Source place.old) read offered self.old
            → Answered first (in_view I.Source place.new) read
            (offered ++ news result (lines_view self.new.lines).packet) self.old self.new }
        ensures answer { self.new.standing ≡ result }
        ensures closed { (result ≢ Standing.Fresh) × (result ≢ Standing.More) }
        ensures packet { result ≡ Standing.Going → (1 ≤ length (lines_view self.new.lines).packet)
            × (length (lines_view self.new.lines).packet ≤ 65523) }
        ensures client { self.new.client ≡ self.old.client }
    {
        match self.standing {
            Standing::Fresh => self.take(place),
            Standing::Going => self.take(place),
            standing => standing,
        }
    }

    // Asks for the next packet of its text.
    fn take<I: Source>(&mut self, place: &mut InPlaceOf<I>) -> Standing
        requires open { (self.old.standing ≡ Standing.Fresh) ⊎ (self.old.standing ≡ Standing.Going) }
        ensures answered { (first : InView) (read : List ℕ) (offered : List (List ℕ))
            → ChannelStands first (in_view I.Source place.old) read offered self.old
            → Answered first (in_view I.Source place.new) read
            (offered ++ news result (lines_view self.new.lines).packet) self.old self.new }
        ensures answer { self.new.standing ≡ result }
        ensures closed { (result ≢ Standing.Fresh) × (result ≢ Standing.More) }
        ensures packet { result ≡ Standing.Going → (1 ≤ length (lines_view self.new.lines).packet)
            × (length (lines_view self.new.lines).packet ≤ 65523) }
        ensures client { self.new.client ≡ self.old.client }
    {
        let line = self.lines.take(place);
        self.standing = standing_of(line, self.lines.packet().len());
        self.packets = self.packets.saturating_add(count_of(self.standing));
        self.standing
    }

    /// The packet that it gave last.
    pub(crate) fn packet(&self) -> &[u8]
        ensures { result.now ≡ (lines_view self.now.lines).packet }
    {
        self.lines.packet()
    }

    /// Behind the last turn: where a packet was its last answer it is asked once more, and gives no other.
    pub(crate) fn settle<I: Source>(&mut self, place: &mut InPlaceOf<I>)
        ensures settled { (first : InView) (read : List ℕ) (offered : List (List ℕ))
            → ChannelStands first (in_view I.Source place.old) read offered self.old
            → Answered first (in_view I.Source place.new) read offered self.old self.new }
        ensures over { self.new.standing ≢ Standing.Going }
        ensures stays { self.old.standing ≡ Standing.Fresh → self.new.standing ≡ Standing.Fresh }
        ensures still { self.new.standing ≡ Standing.Fresh → in_view I.Source place.new ≡ in_view I.Source place.old }
        ensures fresh { self.new.standing ≡ Standing.Fresh → self.old.standing ≡ Standing.Fresh }
        ensures client { self.new.client ≡ self.old.client }
    {
        if self.standing != Standing::Going {
            return;
        }
        let line = self.lines.take(place);
        self.standing = standing_at_end(line);
    }
}

// How a channel stands after this answer, with a packet of so many bytes where it is one.
fn standing_of(line: Line, size: usize) -> Standing
    ensures { result ≡ standing_of line size }
{
    match line {
        Line::Packet => {
            if size <= MOST_CARRIED {
                Standing::Going
            } else {
                Standing::Bad
            }
        }
        Line::End => Standing::Ended,
        Line::Bad(_) => Standing::Bad,
        Line::Lost => Standing::Lost,
    }
}

// How many packets a channel gave with an answer after which it stands so.
fn count_of(standing: Standing) -> u64
    ensures { result ≡ count_of standing }
{
    if standing == Standing::Going { 1 } else { 0 }
}

// The same where no packet more is given.
fn standing_at_end(line: Line) -> Standing
    ensures value { result ≡ standing_at_end line }
    ensures closed { (result ≢ Standing.Fresh) × (result ≢ Standing.Going) }
{
    match line {
        Line::Packet => Standing::More,
        Line::End => Standing::Ended,
        Line::Bad(_) => Standing::Bad,
        Line::Lost => Standing::Lost,
    }
}
