//! What is told of a network: its fibres, each customer's way, what does not meet, and whether all does, as text.
//!
//! - `named`: a network with the names of its nodes, and its entries.
//! - `meeting`: how an entry that puts and one that takes suit one another.
//! - `tracing`: the entry before one, and the way to an end.
//! - `trouble`: which entries have none before them, none after them, or no beginning.
//! - `slots`: the free slots of a line.
//! - `words`, `lines`: the words, and the lines.
//! - `text`: the whole text, and how it is written.
//! - `laws`: what is told, by the laws of networks.
#![tactic(auto)]

mod laws;
mod lines;
mod meeting;
mod named;
mod slots;
mod text;
mod tracing;
mod trouble;
mod words;

pub use laws::what_is_told;
pub use lines::{Trouble, is_in_step, last_of, turns_later, used_of, way_nodes};
pub use meeting::Likeness;
pub use named::{Leg, NamedNetwork, legs_of};
pub use network_parts::FibreEnds;
pub use slots::{free_slots, kind_out};
pub use text::{Told, answer_of, word_of_status, write_network};
pub use tracing::{before, way_to};
pub use trouble::{is_round, is_taken, is_unmet, is_untaken, why};
pub use words::{turns_left, word_of_kind, word_of_line_kind, word_of_signal, word_of_why};
