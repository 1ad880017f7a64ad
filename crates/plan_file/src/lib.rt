//! The plan of a node, as the file `plan.toml` says it: read from TOML, and judged by fifteen rules.
//!
//! - `plan`: a plan, how it is read, and the first rule of its values that it breaks.
//! - `connection`, `connections`, `lines`, `name`, `pace`: what a plan is made of.
//! - `error`: the rules by name and number, and why there is no plan.
//! - `outline`, `rules`: a plan as the rules of its values see it, and these rules.
//! - `read`: from the text to the table, the first broken rule, and the plan.
//!
//! What stands at the keys of the table, and which keys and kinds of values it may have, is of `plan_table`.
#![tactic(auto)]

mod connection;
mod connections;
mod error;
mod lines;
mod name;
mod outline;
mod pace;
mod plan;
mod read;
mod rules;

pub use connection::{Connection, FromEnd, ToEnd};
pub use connections::Connections;
pub use error::{NoPlan, PlanError};
pub use lines::LineList;
pub use maintenance_signals::Signal;
pub use name::Name;
pub use pace::Pace;
pub use plan::Plan;
