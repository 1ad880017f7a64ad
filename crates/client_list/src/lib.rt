//! Whose packets go as channels: lists of clients, and their texts.
//!
//! - `list`: `ClientList`, the numbers of some clients.
#![tactic(auto)]

mod list;

pub use list::ClientList;
