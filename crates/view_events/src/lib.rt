//! What changes between two turns of a view: a sink that takes the lines of a view, and writes a line for each change
//! to another sink.
//!
//! - `event_sink`: the sink.
//! - `events`: what is known of a line and of what is on it, turn by turn.
//! - `said`: what a view says of a turn.
//! - `line_events`, `slot_events`, `tributary_events`: what changes of the line, of its slots, of a tributary.
//! - `tally`: numbers that stop at their end.
//! - `tributary`: a tributary by its label.
//! - `event_text`: events as text.
//! - `view_lines`, `words`: the lines of a view and their words.
#![tactic(auto)]

mod event_sink;
mod event_text;
mod events;
mod line_events;
mod said;
mod slot_events;
mod tally;
mod tributary;
mod tributary_events;
mod view_lines;
mod words;

pub use event_sink::EventSink;
pub use events::Events;
pub use line_events::{LineEvent, LineTally, error_event, lead_in_event};
pub use said::{Alignment, MsiSaid, SinkState, TributarySaid, TurnSaid};
pub use slot_events::{SLOTS, SlotSeen, SlotTally};
pub use tributary::Tributary;
pub use tributary_events::{Change, TributaryTally, first_change};
