// Nodes, fibres between nodes that are named, and cuts, as the text has them.
mod cut;
mod fibre;
mod node;
mod whole;

pub(crate) use cut::Cut;
pub(crate) use fibre::{End, Fibre};
pub(crate) use node::Node;
pub(crate) use whole::Outline;
