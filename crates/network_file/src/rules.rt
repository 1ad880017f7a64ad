// The rules of a network's values, tried one after another.
mod cuts;
mod fault;
mod fibres;
mod names;

pub(crate) use fault::fault;
