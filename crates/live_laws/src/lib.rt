//! Laws of a node to whose inputs bytes are handed in while it goes: whatever comes later changes nothing of where it
//! stands, and what has left of it is due of what was handed in. So two live nodes put out alike what they were handed
//! alike, and one whose turns are all done has left what a run leaves.
#![tactic(auto)]

mod laws;

pub use laws::{
    handed_may_give, handing_in_line, handing_in_packets, live_is_run, live_turns,
    lives_are_isolated, ring_closes,
};
