//! Why a text is no plan, in words: the value that breaks the rule, what is wrong with it, and what would do.
//!
//! - `refusal`: the rule that is broken first, its place, and the reason.
//! - `no_toml`: where a text stops to be TOML.
//! - `keys`, `kinds`: keys that can't stand there, keys that are missing, values of the wrong type.
//! - `top`, `names`, `ends`, `slots`, `paces`, `spans`: the rules of the top, and of one connection.
//! - `pairs`: the rules of two connections.
//! - `text`: how values and lists are shown.
//!
//! That the rule and the place are those of `Plan::read` is proved. That the reasons are right is tested.
#![tactic(auto)]

mod ends;
mod keys;
mod kinds;
mod names;
mod no_toml;
mod paces;
mod pairs;
mod refusal;
mod slots;
mod spans;
mod text;
mod top;

pub use refusal::{Refusal, refusal_of};
