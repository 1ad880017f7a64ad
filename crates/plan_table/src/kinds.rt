// The kinds of a plan's values: whether each is what its key asks for.
mod connection;
mod end;
mod top;
mod value;

pub use connection::has_kinds;
pub use top::has_top_kinds;
