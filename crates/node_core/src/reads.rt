// What a node tells of its ports and its connections.
ghost use Rattle.std.specs.Prelude.{◌≡◌, ◌<◌, ℕ, Some, None, true, false, length, slice_get, is_some};
ghost use Rattle.otn_base.specs.declared.limits.TheConstants.{LINES};
ghost use Rattle.node_links.specs.Steps.LinkMoves.{FirstOf};
ghost use Rattle.node_links.specs.Links.{joins, was_on};
ghost use Rattle.node_moments.specs.NodeView.{HasLink};
ghost use Rattle.node_core.specs.Settling.{IsLineCounts, IsFrameCount, IsClientInCount, IsClientOutCount, IsLastState};
ghost use Rattle.node_links.specs.declared.link.Link.{Link};

use crate::Node;
use device_model::FromState;
use line_side::LineCounts;
use node_links::Link;
use otn_base::PortName;

impl Node {
    /// The numbers of line input `n` so far.
    pub fn line_counts(&self, n: u8) -> LineCounts
        requires { n < LINES }
        ensures { IsLineCounts self.now n result }
    {
        self.lines_in[n as usize].counts()
    }

    /// How many frames of line output `n` count: all that were made on an empty place, else those that went out whole.
    pub fn line_out_frames(&self, n: u8) -> u64
        requires { n < LINES }
        ensures { IsFrameCount self.now n result }
    {
        self.lines_out[n as usize].frames()
    }

    /// Of client input `n`: how many packets were begun so far, whether it is spent, and the number of its bad line,
    /// once that is seen. An accepted plan has one connection from it, or none.
    pub fn client_in(&self, n: u8) -> (u64, bool, Option<u64>)
        ensures { IsClientInCount self.now n (record { packets = result.0; spent = result.1; bad = result.2 }) }
    {
        match link_at(PortName::ClientIn(n), &self.links) {
            Some(i) => self.links[i].client_in(self.past),
            None => (0, false, None),
        }
    }

    /// Of client output `n`: how many whole frames were handed on, and how many packets delivered and counted. An
    /// accepted plan has one connection to it, or none.
    pub fn client_out(&self, n: u8) -> (u64, u64)
        ensures { IsClientOutCount self.now n (record { frames = result.0; packets = result.1 }) }
    {
        match link_at(PortName::ClientOut(n), &self.links) {
            Some(i) => self.links[i].pipe.client_out(),
            None => (0, 0),
        }
    }

    /// What connection `i` of the plan, from 0, comes from is after the last turn that is done; nothing where the
    /// connection was not active in that.
    pub fn connection_state(&self, i: u32) -> Option<FromState>
        requires { i < length self.now.links }
        ensures state { IsLastState self.now i result }
        ensures active { (link : Link) → HasLink self.now i link → is_some result ≡ was_on self.now.past link }
    {
        self.links[i as usize].last_state(self.past)
    }
}

// The first connection that comes from the port or goes to it.
fn link_at(name: PortName, links: &[Link]) -> Option<usize>
    ensures { FirstOf (joins name) links.now result }
{
    let mut i = 0;
    for link in links {
        if link.joins(name) {
            return Some(i);
        }
        i += 1;
    }
    None
}
