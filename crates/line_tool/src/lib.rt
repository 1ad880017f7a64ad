//! The commands of the program, from their words to their report.
//!
//! - `top`: the one call that does all that the program does.
//! - `laws`: what no call shows by itself, of all commands, and of those that end turn by turn.
//!
//! Each command is a crate of its own, whose laws are passed on here: `line_commands` (`slot`, `pull`),
//! `check_command`, `run_command`, `trial_command`, `protect_selector`, `bundle_command`, `unbundle_command`.
#![tactic(auto)]

mod laws;
mod top;

pub use check_command::check_of_text;
pub use command_base::Status;
pub use command_words::{Command, command_of, forms_are_apart, order_of, takes_captures};
pub use laws::{bundle_of_given, protect_of_given, unbundle_of_given, without_faults};
pub use line_commands::{
    pull_of_carried, pull_of_given, pull_of_one_damaged, pull_two_worlds, slot_of_given,
    slot_two_worlds,
};
pub use number_order::NumberChooser;
pub use run_command::{damaged_lines, headline, headline_of_any_inputs, run_of_text};
pub use run_report::{REPORT_BYTES, put_report};
pub use top::run;
pub use trial_plans::{all_packets_come_back, come_back, drawn_as_said};
