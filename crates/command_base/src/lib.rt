//! What the commands of the program share: how each ends, and all that it is handed.
//!
//! - `status`: how a run of the program ended, and the number that it ends with.
//! - `ended`: the answer to a command over places, by how it ended.
//! - `beyond`: whether a line has more than a command reads.
//!
//! `Device` in `specs/` is all that a command is handed, `AnswerWords` what the records of their answers share.
#![tactic(auto)]

mod beyond;
mod ended;
mod status;

pub use beyond::ask_for_more;
pub use ended::status_of;
pub use status::Status;
