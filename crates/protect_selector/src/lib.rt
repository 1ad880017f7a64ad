//! 1+1 protection (G.873.1, unidirectional, without APS): one tributary arrives on two lines, working and protection,
//! and the better one of them goes on.
//!
//! - `side`: the two lines, why one is left for the other, and what is chosen in a turn.
//! - `selector`: `Selector`, which chooses turn by turn.
//! - `laws`: what holds of every choice.
//! - `command`: `protect`, the command over the places of a device.
//! - `protecting`, `report_line`, `settling`: its turns, the lines of its report, and its end.
#![tactic(auto)]

mod command;
mod laws;
mod protecting;
mod report_line;
mod selector;
mod settling;
mod side;
#[cfg(test)]
mod tests;

pub use command::protect;
pub use laws::{
    groups_stay_whole, protected_line_reads_back, protects_what_is_carried, selected_is_apart,
    switches_have_causes,
};
pub use selector::Selector;
pub use side::{Choice, Side, SwitchCause};
