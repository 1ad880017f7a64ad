//! What a tributary is on a line (G.709 clause 19 and Annex D): its own places in a multiframe, its
//! stretches, what its sink emits, and what it is to carry a client's bytes. The definitions are in
//! `specs/`, for a line of either kind; the laws about them are the contracts of the functions in `laws`,
//! `carriage` and `sending`.
#![tactic(auto)]

mod carriage;
mod laws;
mod sending;
mod turns;

pub use carriage::{chains, healing, intact_carriage, one_damaged_message, passing_on};
pub use laws::{most_bytes, most_groups, own_places_alone, sink_without_totals};
pub use sending::{put_apart, sent_on, what_is_put};
pub use turns::{Hearing, Said, SinkState, Standing};
