//! The table of a plan: the TOML table that its text has, read key by key, before any of its values is judged.
//!
//! - `ends`: the values of `from` and `to`, and the form that each takes.
//! - `keys`: which keys a table may have, and which it must have.
//! - `kinds`: what the value of each key has to be.
//! - `values`: what the value of a key says, or what stands for it where the key is not there.
//! - `numbers`, `number_lists`, `paces`, `names`: lists of numbers where they stand, and tests of them and of names.
#![tactic(auto)]

mod ends;
mod keys;
mod kinds;
mod names;
mod number_lists;
mod numbers;
mod paces;
mod values;

pub use ends::{Form, Side, TableEnd, end_at};
pub use keys::{has_unknown_key, has_unknown_top_key, lacks_key, lacks_turns, top_value};
pub use kinds::{has_kinds, has_top_kinds};
pub use names::{is_name, is_sapi};
pub use number_lists::{all_within, have_common, is_line_list, is_slot_list, is_within};
pub use numbers::Numbers;
pub use paces::{is_nominal_pace, is_pace};
pub use values::{
    connections, item, kind_at, list_or_empty, number_or, numbers_at, pace_at, signal_at,
    text_or_empty, truth_or,
};
