// The keys of a plan's tables: which a table may have, and which it must have.
mod known;
mod list;
mod required;
mod value;

pub use known::{has_unknown_key, has_unknown_top_key};
pub use required::{lacks_key, lacks_turns};
pub(crate) use value::is_this_number;
pub use value::top_value;
