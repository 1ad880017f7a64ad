// The rules of a plan's values, tried one after another.
mod fault;
mod first;
mod names;
mod pace;
mod pairs;
mod places;
mod slots;
mod span;

pub(crate) use fault::fault;
pub(crate) use pace::slots_between;
