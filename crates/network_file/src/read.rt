// Reading the file of a network: its text, its table, and the file that they say.
mod file;
mod numbered;
mod table;
mod text;

pub(crate) use file::file;
pub(crate) use text::table_of;
