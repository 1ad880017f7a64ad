// Reading a plan: its text, its table, and the plan that they say.
mod connection;
mod number;
mod plan;
mod table;
mod text;

pub(crate) use plan::plan;
pub(crate) use text::table_of;
