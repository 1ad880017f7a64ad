// A plan as its rules see it: views of a table that is being read, and of a plan that stands.
mod end;
mod entries;
mod entry;
mod top;
mod whole;

pub(crate) use end::End;
pub(crate) use entries::Entries;
pub(crate) use entry::Entry;
pub(crate) use top::Top;
pub(crate) use whole::Outline;
