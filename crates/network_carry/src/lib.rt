//! A network of a file, with the plans of its nodes, run in one process: the ends of its fibres are put at the places
//! of its nodes, all nodes are run turn by turn, and what goes over fibres may be written beside.
//!
//! - `ends`: the ends of fibres at the places of a node.
//! - `opening`: a node before its first turn, with its places.
//! - `fillings`: the fibres before the first turn.
//! - `recording`: what goes over a fibre, written to a sink beside.
//! - `cut_ends`, `passing`: the ends of a fibre that is cut, and what goes between them; `outside`: ports outside a
//!   network, of which some are such ends.
//! - `turns`: all turns of a network.
//! - `carry`: the network, from its first turn to the numbers of its nodes.
#![tactic(auto)]

mod carry;
mod cut_ends;
mod ends;
mod fillings;
mod opening;
mod outside;
mod passing;
mod recording;
mod turns;

pub use carry::{Carried, carry_network};
pub use cut_ends::{CutSink, CutSource, cut_fibre};
pub use ends::{begins_at, leads_to, near_end_at, turn_bytes};
pub use opening::open_site;
pub use outside::{Outside, OutsideSink};
pub use recording::Recording;
