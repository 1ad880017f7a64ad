//! The trial's packets and plans, and why all packets come back.
//!
//! - `draw`: the packets of eight clients, by the words of a generator.
//! - `plans`: the plans of four runs in a row.
//! - `laws`: what such runs bring back to a client.
#![tactic(auto)]

mod draw;
mod laws;
mod plans;

pub use draw::{draw_text, generator_of};
pub use laws::{all_packets_come_back, come_back, drawn_as_said};
pub use plans::{CLIENTS, plan_of_run};
