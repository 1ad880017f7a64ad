// Which file of the system an open file is, and outputs that are none of the inputs.
ghost use Rattle.std.specs.Prelude.{◌↔◌, Contains, IsTrue};

use std::fs::{Files, Metadata, OpenFile, OpenOptions};
use std::os::unix::fs::MetadataExt;

/// A file of the system, by its device and its number on it. All names and links of one file have the same.
#[derive(Clone, Copy, Debug, PartialEq, Eq)]
pub struct FileNumber {
    device: u64,
    number: u64,
}

/// Which file this is. None where it is no regular file, as a pipe, or where the system does not say: such a file is
/// not emptied by an output.
pub fn number_of<F: OpenFile>(file: &F) -> Option<FileNumber> {
    FileNumber::of(&file.metadata().ok()?)
}

impl FileNumber {
    /// Which file this is. None where it is no regular file.
    pub fn of(metadata: &Metadata) -> Option<FileNumber> {
        if !metadata.is_file() {
            return None;
        }
        Some(FileNumber {
            device: metadata.dev(),
            number: metadata.ino(),
        })
    }
}

/// Whether the file is one of these.
pub fn is_among(files: &[FileNumber], file: FileNumber) -> bool
    ensures { IsTrue result ↔ Contains files.now file }
{
    files.iter().any(|&one| one == file)
}

/// Opens the file of an output, and makes it where it is not there. What it has is gone only where it is none of these,
/// which the same command reads. None where it is one of them, or cannot be opened or emptied.
pub fn made_output<R: Files>(files: &R, path: &str, read: &[FileNumber]) -> Option<R::File> {
    let file = OpenOptions::new()
        .write(true)
        .create(true)
        .open(files, path)
        .ok()?;
    let metadata = file.metadata().ok()?;
    if let Some(number) = FileNumber::of(&metadata) {
        if is_among(read, number) {
            return None;
        }
        file.set_len(0).ok()?;
    }
    Some(file)
}
