// What stands in the tables of a network's file: keys, kinds of values, and the values.
mod kinds;
mod known;
mod required;
mod values;

pub(crate) use kinds::{has_cut_kinds, has_fibre_kinds, has_node_kinds, has_top_kinds};
pub(crate) use known::{
    has_unknown_cut_key, has_unknown_fibre_key, has_unknown_node_key, has_unknown_top_key,
};
pub(crate) use required::{lacks_cut_key, lacks_fibre_key, lacks_node_key, lacks_nodes};
pub(crate) use values::{cuts_at, fibres_at, nodes_at};
