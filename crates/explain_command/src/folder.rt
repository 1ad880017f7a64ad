// What the system says of a file of the current folder.
use otn_ports::{FileSource, ReadBlock};
use program_words::FileNumber;
use std::fs;
use std::io::ErrorKind;

/// What there is under a name.
#[derive(Clone, Copy)]
pub(crate) enum State {
    Absent,
    /// A file of so many bytes, and which.
    File(u64, Option<FileNumber>),
    Folder,
    /// A pipe or a device.
    Other,
    /// The system does not say.
    Refused,
}

pub(crate) fn state_of(rt: &HostRuntime, name: &str) -> State {
    match fs::metadata(rt, name) {
        Ok(metadata) if metadata.is_file() => {
            State::File(metadata.len(), FileNumber::of(&metadata))
        }
        Ok(metadata) if metadata.is_dir() => State::Folder,
        Ok(_) => State::Other,
        Err(error) if error.kind() == ErrorKind::NotFound => State::Absent,
        Err(_) => State::Refused,
    }
}

/// The file of this name, read by blocks.
pub(crate) fn source_of(rt: &HostRuntime, name: &str) -> FileSource {
    let mut source = FileSource::of(fs::open(rt, name).ok());
    source.read_by_blocks(rt.alloc(), ReadBlock::Text);
    source
}
