//! The file of a network, `network.toml`: its nodes, the fibres between them and the cuts of these, read from TOML, and
//! judged by fourteen rules.
//!
//! - `file`: the file, and how it is read: the rules of the file alone.
//! - `join`: the file with the plans of its nodes: the rules 11 and 12, and what a network then is.
//! - `node`, `fibre`, `cut`: what a file is made of; `whole`: the fibres that are not cut.
//! - `error`, `place`: the rules by name and number, and where one is broken.
//! - `table`: what stands in the TOML tables, and which keys and kinds of values they may have.
//! - `lists`: elements of lists.
//! - `outline`, `rules`: nodes, fibres and cuts as the text names them, and the rules of them.
//! - `read`: from the text to the table, the first broken rule, and the file.
#![tactic(auto)]

mod cut;
mod error;
mod fibre;
mod file;
mod join;
mod limits;
mod lists;
mod node;
mod outline;
mod place;
mod read;
mod rules;
mod table;
#[cfg(test)]
mod tests;
mod whole;

pub use cut::{Cut, Cuts};
pub use error::{NetworkError, NoNetwork};
pub use fibre::Fibres;
pub use file::NetworkFile;
pub use join::fault;
pub use limits::{MOST_CUTS, MOST_FIBRES, MOST_NODES};
pub use network_parts::FibreEnds;
pub use node::{Folder, NodeEntry, Nodes};
pub use place::Place;
