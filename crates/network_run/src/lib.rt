//! All nodes of a network, turn by turn in one process, with its fibres in memory: rings too.
//!
//! - `ports`: what the places of a node hold; `fibre_sink`: the near end of fibres.
//! - `serving`: what leaves on the lines of a node in a turn; `site`: what all nodes do at once.
//! - `fibres`: how fibres are filled; `turn`: a turn of a network, and all of them.
//! - `ending`: how nodes are settled; `run`: a run of a network, from its first turn to the numbers of its nodes.
#![tactic(auto)]

mod ending;
mod fibre_sink;
mod fibres;
mod ports;
mod run;
mod serving;
mod site;
mod turn;

pub use ending::settle_all;
pub use fibre_sink::FibreSink;
pub use fibres::{Filling, Span};
pub use ports::{NetIn, NetOut};
pub use run::run_network;
pub use serving::write_lines;
pub use site::Site;
pub use turn::{do_turn, do_turns, fill_all, send_lines};
