//! Laws of what leaves on a connection, each the contract of a function. They name no node: they are about the
//! definitions of `device_model` alone.
//!
//! - `carriage`: what the file of an output line carries of the connections that go to it.
//! - `damage`: what a connection gets after damage on its line, and of one damaged message.
//! - `runs`: what runs in a row carry, each over the file that the one before made.
//! - `worlds`: what leaves on a connection is the same wherever its own input is, and as far as that is.
#![tactic(auto)]

mod carriage;
mod damage;
mod runs;
mod worlds;

pub use carriage::{
    carried_from, carried_on, carried_through_all, packets_at_client, sound_connections,
};
pub use damage::{behind_a_gap, healing, one_damaged_message};
pub use runs::carried_through_runs;
pub use worlds::{nothing_ahead, one_line_file, same_leaving, same_places, two_worlds};
