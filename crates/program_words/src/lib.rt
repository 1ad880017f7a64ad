//! What the program does with its words beside the top call: the pages that it answers by itself, the files that it
//! opens, what it makes of the system's answers, and the number that it ends with.
//!
//! - `standard`: the descriptors of standard input, output and error.
//! - `given`: the words after the program's name.
//! - `pages`: the words that are answered by a page of text.
//! - `files`: the files of the current folder, and which of them each command reads and writes.
//! - `plan`: the plan's text, and whether files are made for it.
//! - `opened`: the answer of the system to the opening of an input.
//! - `file_number`: which file of the system an open file is, and outputs that are none of the inputs.
//! - `ports`: what the places of files hold: files as they are, or captures.
//! - `ending`: the number that the program ends with.
#![tactic(auto)]

mod ending;
mod file_number;
mod files;
mod given;
mod opened;
mod pages;
mod plan;
mod ports;
mod standard;

pub use ending::{exit_code, status_of_page};
pub use file_number::{FileNumber, made_output, number_of};
pub use files::{InputFile, OutputFile, input_files, output_files, reads_plan};
pub use given::given_words;
pub use opened::{Opened, opened_input};
pub use pages::{Page, explained, page_of};
pub use plan::{opens_files, plan_source, plan_text};
pub use ports::{InputPort, OutputPort};
pub use standard::take_standard;

#[cfg(test)]
mod tests;
